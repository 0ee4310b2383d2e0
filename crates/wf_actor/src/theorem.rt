//! Theorems about processes.

ghost use Rattle.wf_actor.specs.Farm.{LifeIsPart, PartIsFirst, ProcessesAreFarm, RunsAreOwn};
ghost use Rattle.wf_actor.specs.Responses.{ProcessesRespondAlike};

use wf_edge::equal_requests_have_equal_responses;
use wf_execution::processes_agree;
use wf_tape::Tape;

/// Processes of which each shows its runs, and hears only its own messages and those that
/// connections carry, are a farm of `wf_execution`: so they agree, and answer alike. A theorem: the
/// call does nothing.
pub fn processes_are_a_farm<T: Tape>()
    ensures { ProcessesAreFarm T.Tape }
{}

/// What a process promises after each call
/// ([`Process::always_lived`](crate::Process::always_lived)), and so after each turn of a loop, is
/// a run of `wf_execution` from what was read of its tape, and its part of such a farm; of a
/// durable tape that was empty, a first run. A theorem: the call does nothing.
pub fn a_life_is_part_of_a_farm<T: Tape>()
    ensures part { LifeIsPart T.Tape }
    ensures first { PartIsFirst T.Tape }
{}

/// Node values that processes of a farm ever held respond to equal requests to the map service with
/// equal bytes, as whole HTTP responses, where they have published equally many maps, or are asked
/// for the same map (OGC 06-042, 7.3); but one for which an allocation failed responds with 503. A
/// theorem: the call does nothing.
pub fn processes_respond_alike<T: Tape>()
    ensures { ProcessesRespondAlike T.Tape }
{
    processes_agree::<T>();
    equal_requests_have_equal_responses::<T>();
}

/// Runs of a process, one after the other, hear only their own messages if each of them does. A
/// theorem: the call does nothing.
pub fn runs_receive_their_own()
    ensures { RunsAreOwn }
{}
