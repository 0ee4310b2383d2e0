//! A farm of processes of which some are lost with their disks and replaced: it agrees, goes on and
//! answers alike. Theorems alone, above those of `wf_execution`, of which no process is ever lost.
//!
//! **Model.** A timeline (`specs/Timeline.antt`) is what happens to n processes, in one order of
//! time: a run begins, its node takes a step, the run ends, as `wf_execution` has them; a process
//! is lost with its disk, whether it runs or not; and one that was lost is replaced, by bytes that
//! its next run is opened from. Moment k is that after the first k events.
//!
//! **Premises of a replacement** (`MayRejoin` of `specs/Rejoining.antt`). Since anything happened
//! to the process that is replaced, at least half of all processes were asked, each at a moment of
//! its own, while its node ran: none had published anything after sequence m, or stored a vote
//! after m. The bytes stand for published definitions alone, without a vote or a promise: a
//! beginning of what some process had published by then, up to m + 4, or all 4,096. Those asked are
//! others than the process itself, since it was lost by then.
//!
//! **Promises**, over any kind of tape, of all node values that processes ever held, each at any
//! moment of any run:
//! - A timeline is a course of `wf_trace`, one move for each event, and where each replacement's
//!   premises hold, each is allowed there ([`a_timeline_is_a_course`]).
//! - There is one history, of which each list is a beginning; no two have different definitions
//!   under one sequence ([`timelines_agree`]). What a process had published at one moment is a
//!   beginning of what it has published at each later one, however often it was replaced between
//!   them ([`published_lists_grow`]).
//! - Node values that have published equally many maps have one answer to a query of the web map
//!   service, byte for byte; so have those that a query asks for one map
//!   ([`timelines_answer_alike`]).
//! - Those who are asked before a replacement are others than the process that is replaced
//!   ([`asked_are_others`]), and bytes that read as the records by which definitions are published
//!   hold a copy of these ([`copies_are_held`]).
//! - A farm of `wf_execution` is a timeline without a loss ([`a_farm_is_a_timeline`]): so its
//!   theorems are these, without a replacement.
//! - A timeline goes on with each event that may happen at its end: so the calls of programs make
//!   one ([`a_timeline_goes_on`]).
//! - An example meets the premises: process 2 of three is lost, and replaced by a copy of four maps
//!   that the others published ([`a_lost_process_is_replaced`]).
//!
//! **Doesn't.** The number of processes is fixed. That a lost process never comes back from its old
//! disk is a premise: after its loss, nothing happens to it but its replacement. Nothing here asks
//! a process or writes a tape: no process of the program does this yet.
#![tactic(auto)]

ghost use Rattle.wf_replacement.specs.Examples.{LostIsReplaced};
ghost use Rattle.wf_replacement.specs.Rejoining.{CopiesAreHeld};
ghost use Rattle.wf_replacement.specs.Theorems.{AskedAreOthers, FarmIsTimeline, ListsGrow, OneAnswer, OneDefinition, OneHistory, OneMapAnswer, TimelineGoesOn, TimelineIsCourse};

use wf_codec::Canon;
use wf_journal::records_are_read_one_way;
use wf_safety::copied_tapes;
use wf_tape::Tape;
use wf_trace::{courses_agree, courses_are_one, entries_are_moves, lives_go_on};
use wf_wms::{asked_maps_are_answered_alike, each_query_has_one_answer};

/// A timeline is a course of the model, in which each replacement is allowed whose premises hold:
/// so each theorem of `wf_trace` about courses holds of it. A theorem: the call does nothing.
pub fn a_timeline_is_a_course<T: Tape>()
    ensures { TimelineIsCourse T.Tape }
{
    // A tape stands for exactly one durable state.
    records_are_read_one_way();
    lives_go_on::<Canon>();
    entries_are_moves::<Canon>();
    courses_are_one::<Canon>();
}

/// The headline, for processes that may be lost and replaced: there is one history, of which each
/// list that a process ever published is a beginning; so no two node values that processes ever
/// held, at any two moments, have different definitions under one sequence. A theorem: the call
/// does nothing.
pub fn timelines_agree<T: Tape>()
    ensures history { OneHistory T.Tape }
    ensures definition { OneDefinition T.Tape }
{
    records_are_read_one_way();
    lives_go_on::<Canon>();
    entries_are_moves::<Canon>();
    courses_are_one::<Canon>();
    courses_agree::<Canon>();
}

/// What a process had published at one moment is a beginning of what it has published at each later
/// one, in whichever of its runs, and however often it was lost and replaced between them. A
/// theorem: the call does nothing.
pub fn published_lists_grow<T: Tape>()
    ensures { ListsGrow T.Tape }
{
    records_are_read_one_way();
    lives_go_on::<Canon>();
    entries_are_moves::<Canon>();
    courses_are_one::<Canon>();
    courses_agree::<Canon>();
}

/// The headline's second half: node values with the same last published sequence answer the same
/// query with the same bytes, the same kind and the same media type. So do those that are asked for
/// the same map (OGC 06-042, 7.3), whatever their last published sequences. A theorem: the call
/// does nothing.
pub fn timelines_answer_alike<T: Tape>()
    ensures sequence { OneAnswer T.Tape }
    ensures map { OneMapAnswer T.Tape }
{
    timelines_agree::<T>();
    each_query_has_one_answer();
    asked_maps_are_answered_alike();
}

/// A timeline goes on with each event that may happen to a process as it is at the timeline's end.
/// A theorem: the call does nothing.
pub fn a_timeline_goes_on<T: Tape>()
    ensures { TimelineGoesOn T.Tape }
{}

/// A farm of `wf_execution` is a timeline in which no process is lost: so what is proved here of
/// timelines is, without a replacement, what is proved there of farms. A theorem: the call does
/// nothing.
pub fn a_farm_is_a_timeline<T: Tape>()
    ensures { FarmIsTimeline T.Tape }
{}

/// Those who are asked before a replacement are others than the process that is replaced, which was
/// lost by then and doesn't run. A theorem: the call does nothing.
pub fn asked_are_others<T: Tape>()
    ensures { AskedAreOthers T.Tape }
{}

/// Bytes that read as the records by which definitions are published, one after the other, hold a
/// copy of exactly these, without a vote or a promise. A theorem: the call does nothing.
pub fn copies_are_held()
    ensures { CopiesAreHeld }
{
    copied_tapes::<Canon>();
}

/// An example, which shows that a replacement's premises can be met: process 2 of three is lost
/// when it has done nothing, the others go on until one has published four maps, and then process 2
/// may be replaced by bytes that read as the records of these. A theorem: the call does nothing.
pub fn a_lost_process_is_replaced<T: Tape>()
    ensures { LostIsReplaced T.Tape }
{
    records_are_read_one_way();
    copies_are_held();
}
