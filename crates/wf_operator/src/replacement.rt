//! What an operator asks a node about the replacement of a node, and what the node answers.

use crate::page::TextPage;
use http::StatusCode;
use std::alloc::{AllocError, Global};
use wf_ballot::NodeId;
use wf_rejoin::{Objection, Replacement};

/// A replacement of a node, to which another node is to agree.
#[derive(Clone, Copy, PartialEq, Eq)]
pub struct Proposed {
    /// The node that is replaced.
    pub node: NodeId,
    /// The folder that takes its place, and under which count.
    pub replacement: Replacement,
    /// Whether it is to agree though it has run, or not heard the node, for a short time only.
    pub force: bool,
}

/// What an operator asks a node about a replacement.
#[derive(Clone, Copy, PartialEq, Eq)]
pub enum ReplaceRequest {
    /// Whether it would agree.
    Ask(Proposed),
    /// To agree.
    Agree(Proposed),
    /// To begin, under this count, the replacement by its own folder, which joins.
    Begin(u32),
}

/// What a node answers to that.
#[derive(Clone, Copy, PartialEq, Eq)]
pub enum ReplaceReply {
    /// It would agree.
    Agrees,
    /// It writes that, and goes by it once it is written.
    Noted,
    /// What stands against it.
    Objects(Objection),
    /// The count is no higher than the one before.
    NoHigherCount,
    /// Its folder doesn't join.
    NotJoining,
    /// It isn't permitted to take part in replacements.
    NotPermitted,
    /// It isn't a node, and takes part in none.
    NotANode,
}

impl ReplaceReply {
    /// Its page.
    pub(crate) fn page(&self, alloc: Global) -> Result<TextPage, AllocError> {
        match self {
            ReplaceReply::Agrees => TextPage::of(alloc, StatusCode::OK, "agrees\n"),
            ReplaceReply::Noted => TextPage::of(alloc, StatusCode::ACCEPTED, "noted\n"),
            ReplaceReply::Objects(objection) => Ok(TextPage::of_text(
                StatusCode::CONFLICT,
                format!(in alloc; "{objection}\n")?,
            )),
            ReplaceReply::NoHigherCount => {
                TextPage::of(alloc, StatusCode::CONFLICT, "the count isn't higher\n")
            }
            ReplaceReply::NotJoining => {
                TextPage::of(alloc, StatusCode::NOT_FOUND, "not joining\n")
            }
            ReplaceReply::NotPermitted => TextPage::of(
                alloc,
                StatusCode::FORBIDDEN,
                "not permitted: node without --replace-allowed\n",
            ),
            ReplaceReply::NotANode => TextPage::of(alloc, StatusCode::NOT_FOUND, "not found\n"),
        }
    }
}
