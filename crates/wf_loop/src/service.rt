//! How an event loop begins and goes on, turn after turn.
ghost use Rattle.std.specs.Prelude.{◌≡◌, ◌≤◌, ◌+◌, ◌↔◌, ◌++◌, ◌∷◌, [], ℕ, List, false, true, Err, IfErr, IfOk, IsSome, IsTrue, OnErr, OnOk, Option};
ghost use Rattle.wf_voter.specs.Process.{IsJustOpened};
ghost use Rattle.wf_digest.specs.Digest.{AreDigestsOf};
ghost use Rattle.wf_folder.specs.declared.suspension.Suspension.{Suspension as SuspensionValue};
ghost use Rattle.wf_loop.specs.EventLoop.{GreetsAsNow, HasAnswered, HasRepliedEarlier, IsBusy, IsHeardFirst, IsJoiner, IsOutvoted, IsOver, IsReopeningDue, IsSuspended, OnlyAnswersAsks, OnlyLearns, address_of, kept_of, membership_of, process_of, taken_in_by, time_of};
ghost use Rattle.wf_peer_connections.specs.Membership.{membership_by};
ghost use Rattle.wf_peer_connections.specs.StartErrors.{IsStartError};
ghost use Rattle.wf_peer_connections.specs.declared.plan.NodePlan.{NodePlan as NodePlanValue};
ghost use Rattle.wf_peer_connections.specs.ReadersPort.{exchanges_of};
ghost use Rattle.wf_node.specs.Reopening.{HasStoredAs};
ghost use Rattle.wf_visitors.specs.Visitors.{responses_of};
ghost use Rattle.wf_voter.specs.Cause.{IsWhyNoNextRun};
ghost use Rattle.wf_voter.specs.Continuation.{ContinuesIn, IsNextRun, StaysInRun, KeepsEarlier, StaysSuspended};
ghost use Rattle.wf_voter.specs.Folder.{counted};
ghost use Rattle.wf_voter.specs.Lived.{HasLived};
ghost use Rattle.wf_voter.specs.declared.reopening.NotReopened.TheVariants.{Runs};

use crate::clock::turn_by_clock;
use crate::event_loop::EventLoop;
use crate::turn::{answer_operators, has_more, serve_all};
use std::alloc::Global;
use std::net::{Net, SocketAddr};
use std::rt::Files;
use std::time::Clock;
use wf_membership::Gate;
use wf_peer::PeerProgress;
use wf_peer_connections::{
    LoopFault, LoopParts, LoopStart, NodeEvent, NodePlan, TICK_MILLIS, Timers, bind,
};
use wf_peering::keep_reach;
use wf_sockets::{Network, NetworkError, SystemNetwork};
use wf_store::FileName;
use wf_tape::Tape;
use wf_visitors::{Context, Log, Visitors, now};
use wf_voter::{
    Clients, NextRun, NodeFolder, NotReopened, Process, TapeNotReopened, Voter, begin_run,
};

/// The most sockets of a turn.
const MOST_READY: usize = 256;

/// For how long nothing comes before the digests are made that lack, in milliseconds.
const MOMENT_MILLIS: u64 = 1;

/// Why a node of this plan doesn't begin: there is no network of the system.
fn fault_of(error: NetworkError, plan: &NodePlan) -> LoopFault
    ensures { IsStartError plan.now result }
{
    let _ = plan;
    match error {
        NetworkError::Poll => LoopFault::Poll,
        NetworkError::Memory => LoopFault::Memory,
    }
}

/// An event loop of these parts. Err: that of the parts; the process is dropped.
fn event_loop_of<T: Tape + Drop, N: Network + Drop>(
    alloc: Global,
    begun: Result<LoopStart<N>, LoopFault>,
    process: Process<T>,
    known: PeerProgress,
    time: u64,
) -> Result<EventLoop<T, N>, LoopFault>
    requires visitors { IfOk begun (λ begun. responses_of begun.visitors ≡ []) }
    requires readers { IfOk begun (λ begun. exchanges_of begun.parts.desk.readers ≡ []) }
    ensures event_loop { IfOk result (λ event_loop. process_of event_loop ≡ process) }
    ensures kept { IfOk result (λ event_loop. kept_of event_loop ≡ known) }
    ensures time { IfOk result (λ event_loop. time_of event_loop ≡ time) }
    ensures suspended { (suspension : Option SuspensionValue) →
        IfOk begun (λ begun. begun.parts.peers.suspension ≡ suspension) →
        IsSome suspension → IfOk result IsSuspended }
    ensures joins { (plan : NodePlanValue) → IfOk begun (λ begun. begun.parts.peers.plan ≡ plan) →
        IsSome plan.joining → IfOk result IsJoiner }
    ensures membership { (plan : NodePlanValue) →
        IfOk begun (λ begun. begun.parts.peers.plan ≡ plan) →
        IfOk result (λ event_loop. membership_of event_loop ≡ membership_by plan) }
    ensures fault { IfErr result (λ fault. begun ≡ Err fault) }
{
    match begun {
        Ok(LoopStart { parts, visitors }) => Ok(assemble(
            alloc, parts, visitors, process, known, time,
        )),
        Err(fault) => {
            drop(process);
            Err(fault)
        }
    }
}

/// An event loop of these parts.
fn assemble<T: Tape + Drop, N: Network + Drop>(
    alloc: Global,
    parts: LoopParts<N>,
    visitors: Visitors<N>,
    process: Process<T>,
    known: PeerProgress,
    time: u64,
) -> EventLoop<T, N>
    requires visitors { responses_of visitors ≡ [] }
    requires readers { exchanges_of parts.desk.readers ≡ [] }
    ensures event_loop { process_of result ≡ process }
    ensures kept { kept_of result ≡ known }
    ensures suspended { IsSome parts.peers.suspension → IsSuspended result }
    ensures joins { IsSome parts.peers.plan.joining → IsJoiner result }
    ensures membership { membership_of result ≡ membership_by parts.peers.plan }
    ensures time { time_of result ≡ time }
{
    let timers = parts.timers(time);
    let http = visitors.address(&parts.network);
    let clients = Clients::new(visitors);
    let voter = Voter::new(
        alloc,
        process,
        known,
        &parts.peers.suspension,
        parts.peers.plan.membership(),
    );
    event_loop_with(parts, clients, voter, timers, http, time)
}

/// An event loop with these clients, of whom nobody was answered yet.
fn event_loop_with<T: Tape, N: Network>(
    parts: LoopParts<N>,
    clients: Clients<T, N>,
    voter: Voter<T>,
    timers: Timers,
    http: Option<SocketAddr>,
    time: u64,
) -> EventLoop<T, N>
    requires clients { clients.before.items ≡ [] }
    requires readers { exchanges_of parts.desk.readers ≡ [] }
    ensures voter { result.voter ≡ voter }
    ensures time { time_of result ≡ time }
{
    EventLoop {
        parts,
        clients,
        voter,
        timers,
        http,
        time,
        is_busy: false,
    }
}

impl<T: Tape + Drop> EventLoop<T> {
    /// Binds the addresses of a node of the system. Err: `Poll` if the system gives no poll;
    /// `Taken` if an address is taken or not permitted, the first one of peers, clients, operators
    /// and readers; `Memory` if an allocation fails. The process is dropped then.
    pub fn new<R: Net + Clock + AllocGlobal>(
        rt: &R,
        plan: NodePlan,
        process: Process<T>,
        known: PeerProgress,
    ) -> Result<Self, LoopFault>
        ensures process { IfOk result (λ event_loop. process_of event_loop ≡ process) }
        // What the file `heard` has is what was heard, as long as nothing is written to it.
        ensures kept { IfOk result (λ event_loop. kept_of event_loop ≡ known) }
        // A node that its folder says is suspended begins so.
        ensures suspended { IsSome plan.suspension → IfOk result IsSuspended }
        // One whose folder joins does so from the first turn on.
        ensures joins { IsSome plan.joining → IfOk result IsJoiner }
        // It goes by what its folder said of replacements.
        ensures membership { IfOk result (λ event_loop.
            membership_of event_loop ≡ membership_by plan) }
        ensures cause { IfErr result (IsStartError plan) }
    {
        match SystemNetwork::new(rt) {
            Ok(network) => EventLoop::on(rt, network, plan, process, known, now(rt)),
            Err(error) => {
                let fault = fault_of(error, &plan);
                drop(plan);
                drop(process);
                drop(known);
                Err(fault)
            }
        }
    }

    /// One turn: waits until a socket is ready or a tick is over, and does a bounded part of what
    /// there is to do. What has to be in the node's folder is written there: that it is suspended
    /// at once, and each second how far it is.
    pub fn wait_and_run<R: Net + Files + Clock + Eprint + AllocGlobal, F: NodeFolder<T>>(
        &mut self,
        rt: &R,
        log: &Log<'_, R>,
        folder: &mut F,
    )
        // Whatever came, the node has lived by its acts, was given only what receivers returned,
        // and sent only what it returned.
        ensures lived { HasLived T.Tape (process_of self.new) }
        // Each response that any client was sent is the one to exactly what had come of its
        // request, by this process as it then was.
        ensures answered { HasAnswered T.Tape self.new }
        // Each reply that any reader was sent has the maps that this process then had published
        // next.
        ensures replied { HasRepliedEarlier T.Tape self.new }
        // It goes on in the run that it was in, as the node that it was.
        ensures on { StaysInRun T.Tape (process_of self.old) (process_of self.new) }
        ensures earlier { KeepsEarlier T.Tape (process_of self.old) (process_of self.new) }
        // A suspended node stays suspended and as it is: it is given nothing, and emits no message.
        ensures suspended { IsSuspended self.old → StaysSuspended self.old.voter self.new.voter }
        // In a turn in which the history of a peer differs and no majority agrees, it is given no
        // message but those that ask for what is published, so it doesn't vote, and no client is
        // answered.
        ensures outvoted { IsOutvoted self.new → OnlyAnswersAsks self.old self.new }
        // A node whose folder joins is given no message but those that say what is published, so it
        // doesn't vote, and no client is answered.
        ensures joins { IsJoiner self.old → OnlyLearns self.old self.new }
        // What it goes by of replacements stays, whatever it was told.
        ensures membership { membership_of self.new ≡ membership_of self.old }
        // Once what was written is for the next start of the folder, nothing changes: the node is
        // given nothing, and emits no message.
        ensures over { IsOver self.old → process_of self.new ≡ process_of self.old }
        ensures starts { (F.stands folder.new).starts ≡ (F.stands folder.old).starts }
        ensures begun { (F.stands folder.new).begun ≡ (F.stands folder.old).begun }
        // What a message of a peer tells of its round and its promise is in the file `heard` before
        // the node is given it.
        ensures heard { IsHeardFirst (F.stands folder.old).heard self.old →
            IsHeardFirst (F.stands folder.new).heard self.new }
        ensures time { time_of self.old ≤ time_of self.new }
    {
        let mut tokens = [0usize; MOST_READY];
        let millis = self.patience(now(rt));
        let count = self.parts.network.wait(millis, &mut tokens);
        self.run_once(rt, log, folder, &tokens[..count], now(rt));
    }
}

impl<T: Tape + Drop, N: Network + Drop> EventLoop<T, N> {
    /// Binds the addresses of a node on a network, at this time in milliseconds. Err: `Taken` if an
    /// address is taken or not permitted, the first one of peers, clients, operators and readers;
    /// `Memory` if an allocation fails. The process is dropped then.
    pub fn on<R: Net + Clock + AllocGlobal>(
        rt: &R,
        network: N,
        plan: NodePlan,
        process: Process<T>,
        known: PeerProgress,
        time: u64,
    ) -> Result<Self, LoopFault>
        ensures process { IfOk result (λ event_loop. process_of event_loop ≡ process) }
        // What the file `heard` has is what was heard, as long as nothing is written to it.
        ensures kept { IfOk result (λ event_loop. kept_of event_loop ≡ known) }
        // A node that its folder says is suspended begins so.
        ensures suspended { IsSome plan.suspension → IfOk result IsSuspended }
        // One whose folder joins does so from the first turn on.
        ensures joins { IsSome plan.joining → IfOk result IsJoiner }
        // It goes by what its folder said of replacements.
        ensures membership { IfOk result (λ event_loop.
            membership_of event_loop ≡ membership_by plan) }
        ensures time { IfOk result (λ event_loop. time_of event_loop ≡ time) }
        ensures cause { IfErr result (IsStartError plan) }
    {
        event_loop_of(
            rt.alloc(),
            bind(rt, network, plan, known, time),
            process,
            known,
            time,
        )
    }

    /// Where clients come, as the system told it when the address was bound.
    pub fn http(&self) -> Option<SocketAddr>
        ensures { result ≡ address_of self.now }
    {
        self.http
    }

    /// The time of the last turn, in milliseconds.
    pub fn time(&self) -> u64
        ensures { result ≡ time_of self.now }
    {
        self.time
    }

    /// Whether what was written to the folder is for its next start, so that the process is to end:
    /// a replacement of a node became known, or the folder has joined. Nothing more is sent or
    /// taken in.
    pub fn is_over(&self) -> bool
        ensures { IsTrue result ↔ IsOver self.now }
    {
        self.parts.peers.is_over
    }

    /// How many messages the node took in since the event loop began, its own too. It saturates.
    pub fn message_count(&self) -> u64
        ensures { result ≡ taken_in_by self.now }
    {
        self.parts.peers.steps.number
    }

    /// The node's process.
    pub fn process(&self) -> &Process<T>
        ensures { result.now ≡ process_of self.now }
    {
        &self.voter.process
    }

    /// The life of the node, and what clients were answered and readers replied, by it as it was
    /// then, always. The call does nothing.
    pub fn always_lived(&self)
        ensures lived { HasLived T.Tape (process_of self.now) }
        ensures answered { HasAnswered T.Tape self.now }
        ensures replied { HasRepliedEarlier T.Tape self.now }
    {
        self.voter.process.always_lived();
        self.voter.process.always_received();
        self.clients.always_answered();
    }

    /// Whether the tape has failed and it is time to open it again: after a second, and then every
    /// two seconds.
    pub fn is_reopening_due(&self) -> bool
        ensures { IsTrue result ↔ IsReopeningDue self.now }
    {
        self.voter.process.is_halted() && self.timers.is_reopening_due(self.time)
    }

    /// Opens the node again on the tape of its folder, once it has failed: the node that it was, of
    /// as many. Its run ends, and another begins, which counts as a start of the folder. Err:
    /// `Runs` if it hasn't failed; else why not, by the folder's last call or what its tape holds,
    /// and nothing has changed but that it is tried again later, and the log has the cause.
    #[tactic(auto, using(wf_voter::proofs::Continuation::keeps_same))]
    pub fn reopen<R: Clock + Eprint + AllocGlobal, F: NodeFolder<T>>(
        &mut self,
        rt: &R,
        log: &Log<'_, R>,
        folder: &mut F,
    ) -> Result<(), NotReopened>
        ensures begun { OnOk result (IsJustOpened (process_of self.new)) }
        // It has stored what it had, or that and the record of the step that failed: whatever is on
        // the tape, and of files too.
        ensures stored { OnOk result
            (HasStoredAs (process_of self.old).actor.node (process_of self.new).actor.node) }
        ensures ended { OnOk result ((process_of self.new).ended.items ≡
            (process_of self.old).ended.items ++ ((process_of self.old).actor, 0) ∷ []) }
        ensures counted { OnOk result (F.stands folder.new ≡ counted (F.stands folder.old)) }
        ensures before { (F.stands folder.new).begun ≡ (F.stands folder.old).begun }
        ensures heard { IsHeardFirst (F.stands folder.old).heard self.old →
            IsHeardFirst (F.stands folder.new).heard self.new }
        ensures greets { OnOk result (GreetsAsNow (F.stands folder.new).starts self.new) }
        ensures suspended { IsSuspended self.old → IsSuspended self.new }
        ensures joins { IsJoiner self.old → IsJoiner self.new }
        ensures membership { membership_of self.new ≡ membership_of self.old }
        ensures same { OnErr result (process_of self.new ≡ process_of self.old) }
        ensures runs { (process_of self.old).actor.node.halted ≡ false → result ≡ Err Runs }
        ensures err { (process_of self.old).actor.node.halted ≡ true →
            IfErr result (λ why. IsWhyNoNextRun why (F.stands folder.old).starts
            (F.farm folder.old) (F.attempted folder.old)
            (F.calls folder.old) (F.calls folder.new)) }
        // The run that begins follows the one that has ended.
        ensures earlier { KeepsEarlier T.Tape (process_of self.old) (process_of self.new) }
    {
        if !self.voter.process.is_halted() {
            return Err(NotReopened::Runs);
        }
        match self.voter.next_run(rt.alloc(), folder) {
            Ok(next) => {
                self.begin_run(next);
                log.write(&NodeEvent::Reopened);
                Ok(())
            }
            Err(why) => {
                self.timers.postpone_reopening(self.time);
                let NodePlan { folder, own, .. } = &self.parts.peers.plan;
                log.write(&TapeNotReopened {
                    folder: folder.as_str(),
                    tape: FileName::NodeTape(own.node.number()),
                    why,
                });
                Err(why)
            }
        }
    }

    /// Begins the process's next run.
    fn begin_run(&mut self, next: NextRun<T>)
        requires ended { next.process.ended.items ≡
            (process_of self.old).ended.items ++ ((process_of self.old).actor, 0) ∷ [] }
        requires follows { IsNextRun T.Tape (process_of self.old).actor next.process.actor }
        requires digests { AreDigestsOf [] next.digests }
        requires given { next.process.actor.given.items ≡ [] }
        ensures process { process_of self.new ≡ next.process }
        ensures heard { (heard : Option (List ℕ)) →
            IsHeardFirst heard self.old → IsHeardFirst heard self.new }
        ensures greets { GreetsAsNow next.starts self.new }
        ensures suspended { IsSuspended self.old → IsSuspended self.new }
        ensures joins { IsJoiner self.old → IsJoiner self.new }
        ensures membership { membership_of self.new ≡ membership_of self.old }
        ensures earlier { KeepsEarlier T.Tape (process_of self.old) (process_of self.new) }
    {
        let NextRun {
            process,
            digests,
            starts,
        } = next;
        begin_run(&mut self.voter, process);
        self.parts.peers.begin_run(digests, starts, self.time);
        self.timers.note_reopening(self.time);
    }

    /// For how long the next turn may be waited for at most where no socket is ready, in
    /// milliseconds: up to the next tick, for a moment while digests are to be made, not at all if
    /// there is more to do.
    pub fn patience(&self, time: u64) -> u64
        ensures most { result ≤ 100 }
        ensures busy { IsBusy self.now → result ≡ 0 }
    {
        if self.has_work() {
            return 0;
        }
        let history = self.voter.process.node().history();
        let most = if self.parts.peers.wants_digests(history) {
            MOMENT_MILLIS
        } else {
            TICK_MILLIS
        };
        self.timers.rest(time).min(most)
    }

    /// Whether there is more to do: a turn left some, or messages of the node to itself wait.
    fn has_work(&self) -> bool
        ensures { IsBusy self.now → IsTrue result }
    {
        self.is_busy || (self.voter.acts() && self.voter.process.waiting() != 0)
    }

    /// One turn, at this time in milliseconds: does a bounded part of what there is to do, for the
    /// sockets with these tokens and by the clock, and waits for nothing. What has to be in the
    /// node's folder is written there: that it is suspended at once, and each second how far it is.
    /// The tokens are of sockets that may be ready; one that isn't costs a look at it.
    pub fn run_once<R: Net + Files + Clock + Eprint + AllocGlobal, F: NodeFolder<T>>(
        &mut self,
        rt: &R,
        log: &Log<'_, R>,
        folder: &mut F,
        ready: &[usize],
        time: u64,
    )
        // Whatever came, the node has lived by its acts, was given only what receivers returned,
        // and sent only what it returned.
        ensures lived { HasLived T.Tape (process_of self.new) }
        // Each response that any client was sent is the one to exactly what had come of its
        // request, by this process as it then was.
        ensures answered { HasAnswered T.Tape self.new }
        // Each reply that any reader was sent has the maps that this process then had published
        // next.
        ensures replied { HasRepliedEarlier T.Tape self.new }
        // It goes on in the run that it was in, as the node that it was.
        ensures on { StaysInRun T.Tape (process_of self.old) (process_of self.new) }
        ensures earlier { KeepsEarlier T.Tape (process_of self.old) (process_of self.new) }
        // A suspended node stays suspended and as it is: it is given nothing, and emits no message.
        ensures suspended { IsSuspended self.old → StaysSuspended self.old.voter self.new.voter }
        // In a turn in which the history of a peer differs and no majority agrees, it is given no
        // message but those that ask for what is published, so it doesn't vote, and no client is
        // answered.
        ensures outvoted { IsOutvoted self.new → OnlyAnswersAsks self.old self.new }
        // A node whose folder joins is given no message but those that say what is published, so it
        // doesn't vote, and no client is answered.
        ensures joins { IsJoiner self.old → OnlyLearns self.old self.new }
        // What it goes by of replacements stays, whatever it was told.
        ensures membership { membership_of self.new ≡ membership_of self.old }
        // Once what was written is for the next start of the folder, nothing changes: the node is
        // given nothing, and emits no message.
        ensures over { IsOver self.old → process_of self.new ≡ process_of self.old }
        ensures starts { (F.stands folder.new).starts ≡ (F.stands folder.old).starts }
        ensures begun { (F.stands folder.new).begun ≡ (F.stands folder.old).begun }
        // What a message of a peer tells of its round and its promise is in the file `heard` before
        // the node is given it.
        ensures heard { IsHeardFirst (F.stands folder.old).heard self.old →
            IsHeardFirst (F.stands folder.new).heard self.new }
        ensures time { time_of self.old ≤ time_of self.new }
        ensures now { time ≤ time_of self.new }
    {
        let could_wait = !self.has_work();
        let is_over = self.parts.peers.is_over;
        self.time = time.max(self.time);
        self.judge(log);
        self.is_busy = self.act_unless(is_over, rt, log, folder, ready, could_wait);
        self.keep(log, folder);
        self.always_lived();
    }

    /// Decides how the node acts in this turn. Of a suspended one all ports but the operator's are
    /// closed, and where no majority agrees with it, or its folder joins, clients and readers are
    /// sent away.
    fn judge<R: Clock + Eprint>(&mut self, log: &Log<'_, R>)
        ensures process { process_of self.new ≡ process_of self.old }
        ensures kept { kept_of self.new ≡ kept_of self.old }
        ensures suspended { IsSuspended self.old → IsSuspended self.new }
        ensures membership { membership_of self.new ≡ membership_of self.old }
        ensures befores { self.new.clients.before.items ≡ self.old.clients.before.items }
        ensures time { time_of self.new ≡ time_of self.old }
    {
        let gate = self.parts.peers.gate(self.time);
        let is_outvoted = self.parts.peers.judge_histories(log, self.time);
        self.voter.judge(gate, is_outvoted);
        if self.voter.gate == Gate::Suspended {
            self.clients.close();
            self.parts.desk.readers.close();
            self.parts.peers.close_all(self.time);
        } else if is_outvoted || self.voter.membership.joins {
            self.clients.dismiss();
            self.parts.desk.readers.dismiss();
        }
    }

    /// Writes to the folder what has to be there.
    fn keep<R: Clock + Eprint, F: NodeFolder<T>>(&mut self, log: &Log<'_, R>, folder: &mut F)
        ensures voter { self.new.voter ≡ self.old.voter }
        ensures clients { self.new.clients ≡ self.old.clients }
        ensures time { time_of self.new ≡ time_of self.old }
        ensures stands { F.stands folder.new ≡ F.stands folder.old }
    {
        let is_due = self.timers.is_keeping_due(self.time);
        let LoopParts { peers, .. } = &mut self.parts;
        let kept = if let Some(suspension) = peers.unkept_suspension(is_due) {
            let kept = folder.suspend(suspension);
            peers.is_suspension_kept = kept.is_ok();
            kept
        } else if is_due && !self.voter.process.is_halted() {
            keep_reach(&self.voter.process, &mut peers.table, folder)
        } else {
            return;
        };
        match kept {
            Ok(()) => peers.note_written(FileName::Farm),
            Err(why) => peers.note_unwritten(log, self.time, FileName::Farm, why),
        }
    }

    /// Does what is to be done, unless what was written is for the next start of the folder.
    /// Returns whether there is more to do.
    #[tactic(auto, using(wf_voter::proofs::Continuation::still_in))]
    fn act_unless<R: Net + Files + Clock + Eprint + AllocGlobal, F: NodeFolder<T>>(
        &mut self,
        is_over: bool,
        rt: &R,
        log: &Log<'_, R>,
        folder: &mut F,
        ready: &[usize],
        could_wait: bool,
    ) -> bool
        ensures on { ContinuesIn T.Tape (F.stands folder.old) self.old.voter
            (F.stands folder.new) self.new.voter }
        ensures outvoted { IsOutvoted self.old →
            self.new.clients.before.items ≡ self.old.clients.before.items }
        ensures joins { IsJoiner self.old →
            self.new.clients.before.items ≡ self.old.clients.before.items }
        ensures over { is_over ≡ true → process_of self.new ≡ process_of self.old }
        ensures time { time_of self.new ≡ time_of self.old }
    {
        if is_over {
            return false;
        }
        self.act(rt, log, folder, ready, could_wait)
    }

    /// Does what the sockets that are ready ask for, and what the clock does. Returns whether there
    /// is more to do.
    fn act<R: Net + Files + Clock + Eprint + AllocGlobal, F: NodeFolder<T>>(
        &mut self,
        rt: &R,
        log: &Log<'_, R>,
        folder: &mut F,
        ready: &[usize],
        could_wait: bool,
    ) -> bool
        ensures on { ContinuesIn T.Tape (F.stands folder.old) self.old.voter
            (F.stands folder.new) self.new.voter }
        ensures outvoted { IsOutvoted self.old →
            self.new.clients.before.items ≡ self.old.clients.before.items }
        ensures joins { IsJoiner self.old →
            self.new.clients.before.items ≡ self.old.clients.before.items }
        ensures time { time_of self.new ≡ time_of self.old }
    {
        let EventLoop {
            parts,
            clients,
            voter,
            timers,
            time,
            ..
        } = self;
        let LoopParts {
            network,
            peers,
            desk,
            ..
        } = parts;
        let context = Context {
            rt,
            log,
            network,
            time: *time,
        };
        peers.begin_turn(could_wait, ready.len());
        serve_all(&context, voter, folder, peers, desk, clients, ready);
        turn_by_clock(&context, voter, folder, peers, timers, desk, clients);
        answer_operators(&context, voter, peers, desk, clients);
        has_more(voter, peers, clients)
    }
}
