//! Why a map rejected a layer.

use thiserror::Error;

/// Why a map rejected a layer.
#[derive(Clone, Copy, Debug, PartialEq, Eq, Error)]
pub enum LayerFault {
    /// Allocation failed.
    #[error("out of memory")]
    OutOfMemory,
    /// The map already has a layer of that name.
    #[error("the map has a layer of this name")]
    Repeated,
}
