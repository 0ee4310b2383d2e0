//! A node that runs on its folder, and that its caller steps.
ghost use Rattle.std.specs.Prelude.{◌≡◌, ◌≤◌, ◌↔◌, IfErr, IfOk, IsTrue};
ghost use Rattle.wf_folder.specs.NodeFile.{IsNodeFile};
ghost use Rattle.wf_line.specs.NodeLine.{IsNodeInRange};
ghost use Rattle.wf_loop.specs.Continuation.{KeepsEarlier};
ghost use Rattle.wf_loop.specs.EventLoop.{HasAnswered, HasRepliedEarlier, IsHeardFirst, IsOver, kept_of, membership_of, process_of, taken_in_by};
ghost use Rattle.wf_loop.specs.Lived.{HasLived};
ghost use Rattle.wf_loop.specs.Membership.{membership_by};
ghost use Rattle.wf_node_folder.specs.Fault.{IsFromSystem};
ghost use Rattle.wf_node_folder.specs.FarmPut.{HasPut};
ghost use Rattle.wf_node_folder.specs.Folder.{StaysFrom, calls_in, heard_in};
ghost use Rattle.wf_node_command.specs.Learned.{IsLearner};
ghost use Rattle.wf_node_folder.specs.Ready.{IsJustStarted};
ghost use Rattle.wf_node_command.specs.Running.{IsRunning};
ghost use Rattle.wf_node_folder.specs.Start.{IsNodeFault};

use std::alloc::Global;
use std::fs::File;
use std::net::{Net, SocketAddr};
use std::rt::Files;
use std::time::Clock;
use wf_folder::NodeFile;
use wf_line::NodeLine;
use wf_loop::{EventLoop, Log, NodeEvent, NodeFolder, Process};
use wf_node_folder::{CommandFault, HeldFolder, ReadyNode, start_node};
use wf_sockets::{Network, SystemNetwork};
use wf_store::Store;
use wf_tape::Tape;

/// A node that runs on its folder, which it has locked, over a network: its caller waits for
/// sockets and steps it. A clause sees its event loop and its folder.
pub struct RunningNode<S: Store, N: Network = SystemNetwork> {
    event_loop: EventLoop<S::Tape, N>,
    folder: HeldFolder<S>,
}

impl<S: Store + Drop, N: Network + Drop> Drop for RunningNode<S, N> {
    fn drop(self) {
        drop(self.close());
    }
}

impl<S: Store, N: Network + Drop> RunningNode<S, N> {
    /// Starts a node on its folder, which is locked first, and binds its addresses on a network, at
    /// this time in milliseconds. Err: the cause, as that of `wfarm node`, and the folder.
    #[tactic(auto, using(crate::proofs::Served::running_by, crate::proofs::Served::not_started, crate::proofs::Served::fresh_by))]
    pub fn start<R: Files<File = File> + Clock + Eprint + Net + AllocGlobal>(
        rt: &R,
        network: N,
        store: S,
        line: &NodeLine<'_>,
        time: u64,
    ) -> Result<Self, (CommandFault, S)>
        requires { IsNodeInRange line.now }
        ensures running { IfOk result (λ node.
            IsRunning S.Tape.Tape line.now (process_of node.event_loop)
            (kept_of node.event_loop) (membership_of node.event_loop) (S.calls store)
            (S.calls node.folder.running.store)) }
        ensures began { IfOk result (λ node. calls_in S.calls node.folder.running.began.items ≡
            S.calls node.folder.running.store) }
        ensures heard { IfOk result (λ node.
            IsHeardFirst (heard_in (S.calls node.folder.running.store)) node.event_loop) }
        ensures fault { IfErr result (λ failed.
            IsNodeFault line.now (S.calls store) (S.calls failed.1) failed.0) }
    {
        let mut store = store;
        match start_node(rt, &mut store, line) {
            Ok(ready) => RunningNode::on(rt, network, store, line, ready, time),
            Err(fault) => Err((fault, store)),
        }
    }

    /// The node that is ready, on its folder and over a network.
    fn on<R: Clock + Eprint + Net + AllocGlobal>(
        rt: &R,
        network: N,
        store: S,
        line: &NodeLine<'_>,
        ready: ReadyNode<S::Tape>,
        time: u64,
    ) -> Result<Self, (CommandFault, S)>
        requires file { IsNodeFile ready.file }
        requires fresh { IsJustStarted S.Tape.Tape ready (S.calls store) }
        ensures process { IfOk result (λ node. process_of node.event_loop ≡ ready.process) }
        ensures kept { IfOk result (λ node. kept_of node.event_loop ≡ ready.heard) }
        ensures membership { IfOk result (λ node.
            membership_of node.event_loop ≡ membership_by ready.plan) }
        ensures same { IfOk result (λ node. S.calls node.folder.running.store ≡ S.calls store) }
        ensures began { IfOk result (λ node. calls_in S.calls node.folder.running.began.items ≡
            S.calls store) }
        ensures heard { IfOk result (λ node.
            IsHeardFirst (heard_in (S.calls store)) node.event_loop) }
        ensures fault { IfErr result (λ failed. IsFromSystem failed.0) }
        ensures left { IfErr result (λ failed. S.calls failed.1 ≡ S.calls store) }
    {
        let ReadyNode {
            plan,
            process,
            heard,
            file,
        } = ready;
        let listen = plan.listen;
        match EventLoop::on(rt, network, plan, process, heard, time) {
            Ok(event_loop) => {
                log_begun(&Log::new(rt, line.log), &event_loop, &file, listen);
                Ok(RunningNode::of(rt.alloc(), event_loop, store, file))
            }
            Err(fault) => Err((CommandFault::Loop(fault), store)),
        }
    }

    /// The node of an event loop, on the folder whose file was written last so.
    pub(crate) fn of(
        alloc: Global,
        event_loop: EventLoop<S::Tape, N>,
        store: S,
        file: NodeFile,
    ) -> Self
        requires file { IsNodeFile file }
        requires put { HasPut file (S.calls store) }
        ensures event_loop { result.event_loop ≡ event_loop }
        ensures same { S.calls result.folder.running.store ≡ S.calls store }
        ensures began { calls_in S.calls result.folder.running.began.items ≡ S.calls store }
    {
        RunningNode {
            event_loop,
            folder: HeldFolder::new(alloc, store, file),
        }
    }

    /// How many messages the node took in since it was started, its own too. It saturates.
    pub fn message_count(&self) -> u64
        ensures { result ≡ taken_in_by self.now.event_loop }
    {
        self.event_loop.message_count()
    }

    /// The node's process.
    pub fn process(&self) -> &Process<S::Tape>
        ensures { result.now ≡ process_of self.now.event_loop }
    {
        self.event_loop.process()
    }

    /// The life of the node, what clients were answered and readers replied, always. The call does
    /// nothing.
    pub fn always_lived(&self)
        ensures lived { HasLived S.Tape.Tape (process_of self.now.event_loop) }
        ensures answered { HasAnswered S.Tape.Tape self.now.event_loop }
        ensures replied { HasRepliedEarlier S.Tape.Tape self.now.event_loop }
    {
        self.event_loop.always_lived();
    }

    /// Whether what its process wrote is for the next start of its folder: it is given nothing any
    /// more, and is to end without an error.
    pub fn is_over(&self) -> bool
        ensures { IsTrue result ↔ IsOver self.now.event_loop }
    {
        self.event_loop.is_over()
    }

    /// For how long the next turn may be waited for at most where no socket is ready, in
    /// milliseconds.
    pub fn patience(&self, time: u64) -> u64
        ensures { result ≤ 100 }
    {
        self.event_loop.patience(time)
    }

    /// One turn, at this time in milliseconds, for the sockets with these tokens, which may be
    /// ready; it waits for nothing. Where the tape has failed, it is opened again once that is due.
    #[tactic(auto, using(crate::proofs::Learned::learner_on, crate::proofs::Served::kept_still))]
    pub fn run_once<R: Files<File = File> + Clock + Eprint + Net + AllocGlobal>(
        &mut self,
        rt: &R,
        log: &Log<'_, R>,
        ready: &[usize],
        time: u64,
    )
        // Whatever came, the node has lived by its acts, was given only what receivers returned,
        // and sent only what it returned.
        ensures lived { HasLived S.Tape.Tape (process_of self.new.event_loop) }
        // Each client was sent the response to exactly what had come of its request, by this
        // process as it then was.
        ensures answered { HasAnswered S.Tape.Tape self.new.event_loop }
        // Each question of a reader was replied by the list that this process had by then.
        ensures replied { HasRepliedEarlier S.Tape.Tape self.new.event_loop }
        // It goes on in its run, or its run has ended and another began.
        ensures earlier { KeepsEarlier S.Tape.Tape (process_of self.old.event_loop)
            (process_of self.new.event_loop) }
        // What it goes by of replacements stays, whatever it was told.
        ensures membership { membership_of self.new.event_loop ≡ membership_of self.old.event_loop }
        // If its folder joins, it goes on learning: it doesn't vote.
        ensures learns { IsLearner S.Tape.Tape self.old.event_loop →
            IsLearner S.Tape.Tape self.new.event_loop }
        ensures began { calls_in S.calls self.new.folder.running.began.items ≡
            calls_in S.calls self.old.folder.running.began.items }
        ensures heard { IsHeardFirst
            (heard_in (S.calls self.old.folder.running.store)) self.old.event_loop →
            IsHeardFirst (heard_in (S.calls self.new.folder.running.store)) self.new.event_loop }
    {
        let RunningNode { event_loop, folder } = self;
        event_loop.run_once(rt, log, folder, ready, time);
        reopen_if_due(rt, log, event_loop, folder);
        event_loop.always_lived();
    }

    /// Ends the node. Its folder is handed back, unlocked where it is dropped: no tape of it was
    /// made or put in the place of another, and only the folder that was locked was written to.
    pub fn close(self) -> S
        ensures same { S.calls result ≡ S.calls self.folder.running.store }
        ensures stays { ∥ StaysFrom (calls_in S.calls self.folder.running.began.items)
            (S.calls result) ∥₁ }
    {
        let RunningNode { event_loop, folder } = self;
        drop(event_loop);
        folder.close()
    }
}

impl<S: Store> RunningNode<S> {
    /// One turn over the network of the system, for which it waits.
    #[tactic(auto, using(crate::proofs::Learned::learner_on, crate::proofs::Served::kept_still))]
    pub(crate) fn wait_and_run<R: Files<File = File> + Clock + Eprint + Net + AllocGlobal>(
        &mut self,
        rt: &R,
        log: &Log<'_, R>,
    )
        ensures earlier { KeepsEarlier S.Tape.Tape (process_of self.old.event_loop)
            (process_of self.new.event_loop) }
        ensures membership { membership_of self.new.event_loop ≡ membership_of self.old.event_loop }
        ensures learns { IsLearner S.Tape.Tape self.old.event_loop →
            IsLearner S.Tape.Tape self.new.event_loop }
        ensures began { calls_in S.calls self.new.folder.running.began.items ≡
            calls_in S.calls self.old.folder.running.began.items }
        ensures heard { IsHeardFirst
            (heard_in (S.calls self.old.folder.running.store)) self.old.event_loop →
            IsHeardFirst (heard_in (S.calls self.new.folder.running.store)) self.new.event_loop }
    {
        let RunningNode { event_loop, folder } = self;
        event_loop.wait_and_run(rt, log, folder);
        reopen_if_due(rt, log, event_loop, folder);
    }
}

/// Logs where the node listens, and how far it is.
pub(crate) fn log_begun<R: Clock + Eprint, T: Tape + Drop, N: Network + Drop>(
    log: &Log<'_, R>,
    event_loop: &EventLoop<T, N>,
    file: &NodeFile,
    listen: SocketAddr,
) {
    if let Some(http) = event_loop.http() {
        log.write(&NodeEvent::Listening { http, listen });
    }
    log.write(&NodeEvent::Opened {
        node: file.node as usize,
        published: event_loop.process().node().published().number(),
    });
}

/// Opens the tape of a halted node again, if it is time to; where that fails it is tried later.
#[tactic(auto, using(crate::proofs::Learned::learner_reopened, crate::proofs::Served::kept_still, crate::proofs::Served::kept_same, crate::proofs::Served::kept_due))]
fn reopen_if_due<
    R: Clock + Eprint + AllocGlobal,
    T: Tape + Drop,
    F: NodeFolder<T>,
    N: Network + Drop,
>(rt: &R, log: &Log<'_, R>, event_loop: &mut EventLoop<T, N>, folder: &mut F)
    ensures earlier { KeepsEarlier T.Tape (process_of event_loop.old) (process_of event_loop.new) }
    ensures membership { membership_of event_loop.new ≡ membership_of event_loop.old }
    ensures learns { IsLearner T.Tape event_loop.old → IsLearner T.Tape event_loop.new }
    ensures begun { (F.stands folder.new).begun ≡ (F.stands folder.old).begun }
    ensures heard { IsHeardFirst (F.stands folder.old).heard event_loop.old →
        IsHeardFirst (F.stands folder.new).heard event_loop.new }
{
    if event_loop.is_reopening_due() {
        let _ = event_loop.reopen(rt, log, folder);
    }
}
