//! What a node goes by of the replacements of nodes, for its whole run.

use wf_rejoin::Replacements;

/// What the files of a node's folder said of replacements when its process started. The node goes
/// by it for its whole run: what it learns is written, and only its next start goes by that.
#[derive(Clone, Copy)]
pub struct Membership {
    /// Whether its folder joins in the place of a lost one: it learns what is published, and does
    /// nothing else.
    pub joins: bool,
    /// The replacements of nodes that its folder knows of.
    pub replacements: Replacements,
}
