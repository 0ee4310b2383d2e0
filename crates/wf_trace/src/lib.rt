//! Traces: what several processes do in one order of time, each of them one node of a farm; and
//! agreement among them, over the definitions of `wf_model` alone, generic in what is agreed on.
//!
//! **Model.** A deed (`specs/Deed.antt`) is what a process does at one moment: it takes an input,
//! crashes within the step of one, stops or starts again. An entry is a deed with its process and
//! the messages that it sent. The entries of one process are its life: they lead its node from one
//! value to the next, where a step is the step table's transition. Entries of all processes go on
//! from some nodes and sent messages to the nodes after (`GoOn` of `specs/Trace.antt`): each
//! process's are its life, and each message that is delivered was sent before, by whichever of
//! them. A trace is that from the start: all nodes are new, and nothing was sent.
//!
//! A life says only which node values lead to which, so a process can show its own without
//! computing the model, and without knowing the others'. That its input had no effect is always
//! allowed: it may have been rejected, or lost for want of memory.
//!
//! **Promises.** From any world of the model that shows the nodes, some events lead to one that
//! shows them after the entries, with all that they sent appended, in order
//! ([`entries_are_events`]). So a trace is a run, and each theorem of `wf_safety` holds of its
//! nodes and messages ([`a_trace_is_a_run`]). Lives of single processes are a trace, if there is
//! one order of time of the inputs that they take and the messages that they send, and each message
//! is delivered after it was sent (`specs/Order.antt`, [`lives_are_one_trace`]). No process ever
//! loses a published definition ([`lists_grow`]). No two processes, at any two moments, have
//! published different definitions under one sequence, and there is one history of which each
//! published list, at each moment, is a beginning ([`processes_agree`]).
//!
//! **Replacements.** A course (`specs/Course.antt`) is a list of moves: an entry with the node that
//! it leaves, or the replacement of a stopped process that lost its disk. Where each replacement is
//! allowed, a course is a run with guarded replacements ([`a_course_is_a_run`]), and the processes
//! agree at any two moments, through replacements too ([`courses_agree`]). Lives between two
//! replacements or questions go on as one list of entries ([`lives_go_on`]), these are moves
//! ([`entries_are_moves`]), and parts of a course that follow one another are one
//! ([`courses_are_one`]).
//!
//! **Doesn't.** The number of processes is fixed, each is one node, and their order of time is
//! given. Nothing says that any process goes on, or that a message arrives.
#![tactic(auto)]

ghost use Rattle.wf_model.specs.Examples.{a};
ghost use Rattle.wf_trace.specs.Examples.{three_publish, EndsPublished};
ghost use Rattle.wf_trace.specs.Course.{CourseIsRun, CoursesAgree, CoursesAreOne, EntriesAreMoves};
ghost use Rattle.wf_trace.specs.Order.{LivesAreOneTrace, LivesGoOn};
ghost use Rattle.wf_trace.specs.Theorems.{EntriesAreEvents, ListsGrow, OneDefinition, OneHistory, PartsAreOne, TraceIsRun};

use wf_safety::{agreement, agreement_under_guard};

/// From any world of the model that shows the processes' nodes, some events lead to one that shows
/// their nodes after the entries, and has all messages that the entries sent appended, in order.
pub fn entries_are_events<V>()
    ensures { EntriesAreEvents V }
{}

/// A trace is a run of the model: some events lead from its start to exactly the nodes at the
/// trace's end, and to all messages that were sent, in order. So each theorem of `wf_safety` holds
/// of these nodes and messages.
pub fn a_trace_is_a_run<V>()
    ensures { TraceIsRun V }
{}

/// Two parts of a trace, one after the other, are one: where the first ends the second begins, with
/// all that was sent by then.
pub fn parts_are_one<V>()
    ensures { PartsAreOne V }
{}

/// Lives of processes that don't know one another are one trace, if there is one order of time of
/// what is seen of them, and in it each message is delivered after it was sent. Where in this order
/// a process stopped or started again need not be known.
pub fn lives_are_one_trace<V>()
    ensures { LivesAreOneTrace V }
{}

/// Lives of processes from any nodes on, where any messages were sent, go on as one list of
/// entries, if there is one order of time of what is seen of them, and in it each message is
/// delivered after it was sent.
pub fn lives_go_on<V>()
    ensures { LivesGoOn V }
{}

/// A course is a run of the model with replacements: some changes lead from its start to exactly
/// the nodes at the course's end, and to all messages that were sent, in order. Where each of its
/// replacements is allowed, each is guarded; so `wf_safety`'s theorem of agreement under the guard
/// holds of these nodes and messages.
pub fn a_course_is_a_run<V>()
    ensures { CourseIsRun V }
{}

/// Agreement of a course's processes at any moments, where each replacement is allowed: there is
/// one history of which each published list is a beginning; no two have different definitions under
/// one sequence; and no process loses a published definition.
pub fn courses_agree<V>()
    ensures { CoursesAgree V }
{
    // The theorem of the model's runs with guarded replacements, of which such a course is one.
    agreement_under_guard::<V>();
}

/// Entries that go on from some nodes and messages are moves without a replacement, which lead to
/// the same nodes. So what holds of courses holds of traces.
pub fn entries_are_moves<V>()
    ensures { EntriesAreMoves V }
{}

/// Two parts of a course, one after the other, are one.
pub fn courses_are_one<V>()
    ensures { CoursesAreOne V }
{}

/// No process ever loses a published definition: what it has published at one moment is a beginning
/// of what it has at each later one, through stops, restarts and crashes within a step.
pub fn lists_grow<V>()
    ensures { ListsGrow V }
{}

/// Agreement, of processes at any moments: no two of them have published different definitions
/// under one sequence, even if neither moment is the trace's end; and there is one history, of
/// which each published list, at each moment, is a beginning.
pub fn processes_agree<V>()
    ensures definition { OneDefinition V }
    ensures history { OneHistory V }
{
    // The theorem of the model's runs, of which a trace is one.
    agreement::<V>();
}

/// An example, which shows that the theorems' premises can be met: the proposal of one of three
/// processes is published at each of them, though one crashes within a step, and another is stopped
/// meanwhile.
pub fn three_processes_publish()
    ensures { EndsPublished three_publish a }
{}
