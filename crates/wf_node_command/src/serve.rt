//! A node is served.
ghost use Rattle.std.specs.Prelude.{◌≡◌, IsSome};
ghost use Rattle.wf_folder.specs.NodeFile.{IsNodeFile};
ghost use Rattle.wf_loop.specs.Continuation.{KeepsEarlier};
ghost use Rattle.wf_loop.specs.EventLoop.{HasAnswered, HasRepliedEarlier, IsHeardFirst, IsOver, membership_of, process_of};
ghost use Rattle.wf_loop.specs.Lived.{HasLived};
ghost use Rattle.wf_loop.specs.Membership.{membership_by};
ghost use Rattle.wf_loop.specs.NodePlan.{NodePlan as NodePlanValue};
ghost use Rattle.wf_node_command.specs.Done.{HasLivedOn, IsNodeServed};
ghost use Rattle.wf_node_folder.specs.Folder.{StaysFrom, calls_in, heard_in};
ghost use Rattle.wf_node_command.specs.Learned.{IsLearner};
ghost use Rattle.wf_node_folder.specs.Ready.{IsJustStarted};

use crate::running_node::{RunningNode, log_begun};
use std::fs::File;
use std::net::Net;
use std::rt::Files;
use std::time::Clock;
use wf_line::NodeLine;
use wf_loop::{EventLoop, Log};
use wf_node_folder::{CommandFault, ReadyNode};
use wf_store::Store;

/// Serves a node that is ready for this many turns, or until its process is over, over the network
/// of the system, and hands its folder back.
#[tactic(auto, using(crate::proofs::Served::not_served))]
pub(crate) fn serve<R: Files<File = File> + Clock + Eprint + Net + AllocGlobal, S: Store>(
    rt: &R,
    store: S,
    line: &NodeLine<'_>,
    ready: ReadyNode<S::Tape>,
    turns: u64,
) -> (Result<(), CommandFault>, S)
    requires file { IsNodeFile ready.file }
    requires fresh { IsJustStarted S.Tape.Tape ready (S.calls store) }
    ensures { IsNodeServed S.Tape.Tape ready.process ready.plan (S.calls store) (S.calls result.1)
        result.0 }
{
    let ReadyNode {
        plan,
        process,
        heard,
        file,
    } = ready;
    let log = Log::new(rt, line.log);
    let listen = plan.listen;
    match EventLoop::new(rt, plan, process, heard) {
        Ok(event_loop) => {
            log_begun(&log, &event_loop, &file, listen);
            let node = RunningNode::of(rt.alloc(), event_loop, store, file);
            (Ok(()), take_turns(rt, &log, node, turns))
        }
        Err(fault) => (Err(CommandFault::Loop(fault)), store),
    }
}

/// Takes that many turns of a node, or those until its process is over, and hands its folder back.
#[tactic(auto, using(crate::proofs::Served::lived_on))]
fn take_turns<R: Files<File = File> + Clock + Eprint + Net + AllocGlobal, S: Store>(
    rt: &R,
    log: &Log<'_, R>,
    node: RunningNode<S>,
    turns: u64,
) -> S
    requires heard { IsHeardFirst (heard_in (S.calls node.folder.running.store)) node.event_loop }
    ensures on { (plan : NodePlanValue) → membership_of node.event_loop ≡ membership_by plan →
        (IsSome plan.joining → IsLearner S.Tape.Tape node.event_loop) →
        HasLivedOn S.Tape.Tape (process_of node.event_loop) plan (S.calls result) }
    ensures stays { ∥ StaysFrom (calls_in S.calls node.folder.running.began.items)
        (S.calls result) ∥₁ }
{
    let mut node = node;
    run_turns(rt, log, &mut node, turns);
    node.close()
}

/// Takes that many turns of a node, or those until its process is over.
#[tactic(auto, using(crate::proofs::Learned::learner_still, crate::proofs::Served::kept_still))]
fn run_turns<R: Files<File = File> + Clock + Eprint + Net + AllocGlobal, S: Store>(
    rt: &R,
    log: &Log<'_, R>,
    node: &mut RunningNode<S>,
    turns: u64,
)
    // Whatever came in however many turns, the node has lived by its acts, was given only what
    // receivers returned, and sent only what it returned.
    ensures lived { HasLived S.Tape.Tape (process_of node.new.event_loop) }
    // Each client was sent the response to exactly what had come of its request, by this process as
    // it then was.
    ensures answered { HasAnswered S.Tape.Tape node.new.event_loop }
    // Each question of a reader was replied by the list that this process had by then.
    ensures replied { HasRepliedEarlier S.Tape.Tape node.new.event_loop }
    // It goes on in its run, or its run has ended and others began.
    ensures earlier { KeepsEarlier S.Tape.Tape (process_of node.old.event_loop)
        (process_of node.new.event_loop) }
    // What it goes by of replacements stays.
    ensures membership { membership_of node.new.event_loop ≡ membership_of node.old.event_loop }
    // If its folder joins, it goes on learning.
    ensures learns { IsLearner S.Tape.Tape node.old.event_loop →
        IsLearner S.Tape.Tape node.new.event_loop }
    // One that is over takes no turn.
    ensures over { IsOver node.old.event_loop → node.new.event_loop ≡ node.old.event_loop }
    ensures began { calls_in S.calls node.new.folder.running.began.items ≡
        calls_in S.calls node.old.folder.running.began.items }
    ensures heard { IsHeardFirst (heard_in (S.calls node.old.folder.running.store))
        node.old.event_loop →
        IsHeardFirst (heard_in (S.calls node.new.folder.running.store)) node.new.event_loop }
{
    for _ in 0..turns {
        if node.is_over() {
            break;
        }
        node.wait_and_run(rt, log);
    }
    node.always_lived();
}
