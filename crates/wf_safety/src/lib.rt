//! The agreement theorem of multi-decree Paxos, over the definitions of `wf_model` alone. A
//! sequence is an index of the replicated log, and a definition is the value chosen there; a node
//! publishes the chosen values in order. For every number of nodes and every list of proposals,
//! retries, deliveries, losses, duplicates, reorderings, stops, restarts and crashes within a step,
//! no two nodes publish different definitions under one sequence, and no node ever loses a
//! published definition.
//!
//! **Model.** The worlds and events of `wf_model`. `specs/Theorems.antt` states what holds in the
//! world after any list of events; `specs/Replacement.antt` adds replacements, by which a stopped
//! node that lost its disk goes on from another stored state.
//!
//! **Promises.** Four theorems, each built on those before it, and a fifth, [`earlier_messages`],
//! which joins separately observed runs into one: messages sent earlier only shift message numbers.
//! Each theorem is a function with an empty body; its contract is the theorem, and calling it at a
//! type of definitions states it for that type.
//!
//! **Replacements.** Agreement holds, and no list loses a definition, if a replaced node's state
//! covers all that the node may have said ([`agreement_with_replacements`]). It does where half of
//! all nodes were asked meanwhile ([`guard_covers`], [`agreement_under_guard`]), and a tape of
//! published records alone is such a state ([`copied_tapes`]). Less isn't enough:
//! [`three_are_too_few`] and [`votes_are_needed`] are runs in which two definitions are published
//! under one sequence, and [`four_are_enough`] is one that publishes. [`own_ballots`] and
//! [`kept_promises`] are of runs without a replacement: after one, its node's ballots may be used
//! again.
//!
//! **Doesn't.** It proves safety, not liveness: nothing says that a definition is ever chosen or
//! published, or that a node answers. It says nothing of code: the crates that use it relate each
//! step of a node to a transition of the step table.
#![tactic(auto)]

ghost use Rattle.wf_safety.specs.Earlier.{EarlierMessages};
ghost use Rattle.wf_safety.specs.Examples.{FourAreEnough, FourAreGuarded, ThreeAreTooFew, VotesAreNeeded};
ghost use Rattle.wf_safety.specs.Replacement.{AgreementUnderGuard, AgreementWithReplacements, CopiedTapes, GuardCovers};
ghost use Rattle.wf_safety.specs.Theorems.{Agreement, KeptPromises, OwnBallots, PromisedMajority};

/// A ballot is used only by proposals of its own node, at a round that the node stored before.
/// Promises are requested at it from one sequence on, and votes for one definition at each
/// sequence, even after a restart that lost the proposal.
pub fn own_ballots<V>()
    ensures { OwnBallots V }
{}

/// A node keeps its promises: its promise never decreases, it sends no vote below it at any
/// sequence, and for each vote that it stored or reported an Accept was sent.
pub fn kept_promises<V>()
    ensures { KeptPromises V }
{}

/// Each Accept is backed by a majority of promises, made from its sequence or one of the three
/// before it on, and carries the highest vote that they reported for its sequence. So each Accept
/// at a ballot above one at which a definition was chosen carries that definition.
pub fn promised_majority<V>()
    ensures { PromisedMajority V }
{}

/// At most one definition is chosen for a sequence; whatever is published or sent as Chosen is
/// chosen; so nodes that both published a sequence have the same definition there; and the
/// published lists only grow.
pub fn agreement<V>()
    ensures { Agreement V }
{}

/// Messages sent earlier only shift message numbers: events that lead from one world to another
/// also do so where any messages were sent before all of its own, once each message number is
/// increased by their count.
pub fn earlier_messages<V>()
    ensures { EarlierMessages V }
{}

/// Agreement with replacements: where a stopped node goes on from a state of chosen definitions
/// alone, without a vote or a promise and at any round, agreement holds and no published list loses
/// a definition, if that state covers all that the node may have said: it has published as far as
/// each vote that it sent, each vote that it asked for, and each window that it promised.
pub fn agreement_with_replacements<V>()
    ensures { AgreementWithReplacements V }
{}

/// A state covers all that a node may have said, if since the node did anything at least half of
/// all nodes were asked, each at a moment of its own, none of which had published, or stored a
/// vote, after sequence m; and the state has all definitions up to the window of four after m.
pub fn guard_covers<V>()
    ensures { GuardCovers V }
{}

/// Agreement where each replacement is guarded so, and its state is a copy of what some node has
/// published: of any nodes, one after the other or at once.
pub fn agreement_under_guard<V>()
    ensures { AgreementUnderGuard V }
{}

/// A tape of published records alone, of chosen definitions, folds to a state of these definitions
/// without a vote or a promise.
pub fn copied_tapes<V>()
    ensures { CopiedTapes V }
{}

/// An example, which shows that the window is needed: the guard holds with m = 0, node 2 is
/// replaced by a copy of three maps, and two nodes publish different maps under one sequence.
pub fn three_are_too_few()
    ensures { ThreeAreTooFew }
{}

/// An example, which shows that votes have to be asked for: half of all nodes have published
/// nothing, node 2 is replaced by a copy of four maps, and two nodes publish different maps under
/// one sequence.
pub fn votes_are_needed()
    ensures { VotesAreNeeded }
{}

/// An example, which shows that the premises can be met: the guard holds with m = 0, node 2 is
/// replaced by a copy of four maps, old messages arrive late, and the farm publishes a fifth map
/// with node 2's vote.
pub fn four_are_enough()
    ensures run { FourAreEnough }
    ensures guarded { FourAreGuarded }
{}
