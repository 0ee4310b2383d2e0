//! What a query asks for, once its checks pass.

use crate::response::Answer;
use wf_picture::PictureRequest;

/// A request for a picture of a map.
#[derive(Drop)]
pub(crate) struct QueriedPicture {
    /// The update sequence of the map.
    pub sequence: u16,
    pub request: PictureRequest,
}

/// A checked query.
#[derive(Drop)]
pub(crate) enum Plan {
    /// The answer, complete: no picture is requested.
    Ready(Answer),
    Picture(QueriedPicture),
}
