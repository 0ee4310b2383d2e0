//! Theorems about farms of processes. Each call does nothing.

ghost use Rattle.wf_execution.specs.Continuation.{EndGoesOn, NothingIsAFarm, StartGoesOn, StepGoesOn};
ghost use Rattle.wf_execution.specs.Theorems.{FarmIsOneRun, ListsGrow, OneAnswer, OneDefinition, OneHistory, OneMapAnswer};
ghost use Rattle.wf_execution.specs.CrashImages.{ComparisonLeaves, LeavesBetween, LeavesFailed, LeavesWithin};
ghost use Rattle.wf_execution.specs.Replica.{OneServed, ServedAgree, ServedAnswer, ServedMapAnswer};

use wf_codec::Canon;
use wf_journal::records_are_read_one_way;
use wf_tape::Tape;
use wf_trace::{a_trace_is_a_run, lives_are_one_trace};
use wf_wms::{asked_maps_are_answered_alike, each_query_has_one_answer};

/// What a process has published at one moment is a beginning of what it has published at each later
/// one, in whichever of its runs.
pub fn lists_grow<T: Tape>()
    ensures { ListsGrow T.Tape }
{
    // A tape stands for exactly one durable state.
    records_are_read_one_way();
}

/// A farm's premises can be met, one thing after the other: processes that haven't started are a
/// farm, and it stays one where a process starts from what its last run left, takes a step by its
/// contract, or ends.
pub fn a_farm_goes_on<T: Tape>()
    ensures nothing { NothingIsAFarm T.Tape }
    ensures start { StartGoesOn T.Tape }
    ensures step { StepGoesOn T.Tape }
    ensures end { EndGoesOn T.Tape }
{}

/// What a run leaves, as a farm's premises say it, is what a durable tape leaves: whatever a crash
/// leaves of the tape between two steps, within one, or after the tape failed.
pub fn durable_tapes_leave_this<T: Tape>()
    ensures between { LeavesBetween T.Tape }
    ensures within { LeavesWithin T.Tape }
    ensures failed { LeavesFailed T.Tape }
{}

/// A node whose tape has failed, and that is opened again where a comparison says that it has
/// stored what it had, or that and the record of the step that failed, goes on from what its run
/// left: of any tape, whatever its files keep.
pub fn a_compared_node_goes_on<T: Tape>()
    ensures { ComparisonLeaves T.Tape }
{}

/// What the processes of a farm are now is reached by events of the model, which send exactly the
/// messages that were returned.
pub fn a_farm_is_one_run<T: Tape>()
    ensures { FarmIsOneRun T.Tape }
{
    records_are_read_one_way();
    lives_are_one_trace::<Canon>();
    a_trace_is_a_run::<Canon>();
}

/// The headline, for processes of their own: there is one history, of which each list that a
/// process ever published is a beginning; so no two node values that processes ever held, at any
/// two moments, have different definitions under one sequence.
pub fn processes_agree<T: Tape>()
    ensures history { OneHistory T.Tape }
    ensures definition { OneDefinition T.Tape }
{
    records_are_read_one_way();
    lives_are_one_trace::<Canon>();
    wf_trace::processes_agree::<Canon>();
}

/// The headline's second half: node values with the same last published sequence answer the same
/// query with the same bytes, the same kind and the same media type. So do those that are asked for
/// the same map (OGC 06-042, 7.3), whatever their last published sequences.
pub fn processes_answer_alike<T: Tape>()
    ensures proposal_state { OneAnswer T.Tape }
    ensures map { OneMapAnswer T.Tape }
{
    processes_agree::<T>();
    each_query_has_one_answer();
    asked_maps_are_answered_alike();
}

/// What a replica has learned is at each moment a beginning of the one history of the farm's
/// processes. So no two lists, of replicas or of nodes, have different definitions under one
/// sequence.
pub fn replicas_agree<T: Tape>()
    ensures history { OneServed T.Tape }
    ensures definition { ServedAgree T.Tape }
{
    processes_agree::<T>();
}

/// Replicas answer queries as nodes do: with the same bytes, where their lists are equally long, or
/// where they are asked for the same map.
pub fn replicas_answer_alike<T: Tape>()
    ensures proposal_state { ServedAnswer T.Tape }
    ensures map { ServedMapAnswer T.Tape }
{
    replicas_agree::<T>();
    each_query_has_one_answer();
    asked_maps_are_answered_alike();
}
