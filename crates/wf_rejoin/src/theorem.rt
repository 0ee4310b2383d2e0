//! Theorems about replacements.
ghost use Rattle.wf_rejoin.specs.Theorems.{AnswersAreBounds, CountsNeverFall, OneFolder, VotersAreGuarded};

/// Of no number does a node know a replacement with a lower count later, nor another folder of the
/// same count. A theorem: the call does nothing.
pub fn counts_never_fall()
    ensures { CountsNeverFall }
{}

/// Of two folders that join as one node under one count, half of all nodes agree to one at most:
/// two halves, neither of which has the node itself, share a node. A theorem: the call does
/// nothing.
pub fn one_folder_is_agreed_to()
    ensures { OneFolder }
{}

/// A folder that may vote has answers of at least half of all nodes, none higher than m, and has
/// published a window more: the facts that a replacement of a lost node needs. A theorem: the call
/// does nothing.
#[tactic(auto, using(crate::proofs::Voters::voters_are_guarded))]
pub fn voters_are_guarded()
    ensures { VotersAreGuarded }
{}

/// A node's stored state has published, and voted, no further than m, if the answer about it is no
/// higher. A theorem: the call does nothing.
#[tactic(auto, using(crate::proofs::Voters::answers_are_bounds))]
pub fn answers_are_bounds<V>()
    ensures { AnswersAreBounds V }
{}
