//! One thread that answers its sockets, turn after turn.
ghost use Rattle.std.specs.Prelude.{◌≡◌, ◌≤◌, [], IfErr, IfOk};
ghost use Rattle.wf_replica_command.specs.Fault.{IsReplicaSystemFault};
ghost use Rattle.wf_readers_port.specs.ReadersPort.{exchanges_of};
ghost use Rattle.wf_replica.specs.Follower.{list_of};
ghost use Rattle.wf_replica_command.specs.Heard.{Hears};
ghost use Rattle.wf_replica_command.specs.ReplicaLoop.{HasAnsweredByList, HasBeenTold, HasHeardNothing, HasLearned, HasOnlyGrown, HasRepliedByList, IsOfFarm, IsListOnTape, IsTurn, state_of};
ghost use Rattle.wf_replica_command.specs.Readers.{GoOnReplied};
ghost use Rattle.wf_visitors.specs.Visitors.{responses_of};

use crate::clients::ReplicaClients;
use crate::facts::ReplicaFacts;
use crate::fault::ReplicaFault;
use crate::plan::ReplicaPlan;
use crate::ready::ReadyReplica;
use crate::replica_loop::ReplicaLoop;
use crate::upstream::Upstream;
use std::alloc::AllocError;
use std::net::{Net, SocketAddr};
use std::rt::Files;
use std::time::Clock;
use wf_learner::History;
use wf_operator::{Operator, StartTime};
use wf_ports::{Desk, PortListeners, PortSocket, Ports};
use wf_reader::QuestionRejection;
use wf_readers_port::{PortView, ReadersPort};
use wf_replica::{Follower, what_is_learned_is_served};
use wf_sockets::{Network, NetworkError, SystemNetwork};
use wf_tape::Tape;
use wf_timing::Ticker;
use wf_visitors::{Context, Log, now};

/// The most sockets of a turn.
const MOST_READY: usize = 256;

/// The time between two ticks, in milliseconds.
const TICK_MILLIS: u64 = 100;

/// The most clients at once.
const CLIENTS: usize = 128;

/// How a turn ended.
#[derive(Clone, Copy, Debug, PartialEq, Eq)]
pub enum Turn {
    /// The replica goes on.
    On,
    /// It has to end: all of its sources are of another farm, or have another history.
    Ended(QuestionRejection),
}

impl<T: Tape + Drop> ReplicaLoop<T> {
    /// Binds the addresses of a replica of the system. Err: why it doesn't begin; the replica is
    /// dropped.
    pub(crate) fn new<R: Net + Clock + AllocGlobal>(
        rt: &R,
        ready: ReadyReplica<T>,
    ) -> Result<Self, ReplicaFault>
        ensures begun { IfOk result (λ event_loop. HasHeardNothing T.Tape (state_of event_loop)) }
        ensures fault { IfErr result (IsReplicaSystemFault ready.plan) }
    {
        match SystemNetwork::new(rt) {
            Ok(network) => ReplicaLoop::on(rt, network, ready, now(rt)),
            Err(error) => {
                let fault = fault_of(error, &ready.plan);
                drop(ready);
                Err(fault)
            }
        }
    }

    /// One turn: waits until a socket is ready or something is due, and does a bounded part of what
    /// there is to do.
    pub(crate) fn wait_and_run<R: Net + Files + Clock + Eprint + AllocGlobal>(
        &mut self,
        rt: &R,
        log: &Log<'_, R>,
    ) -> Turn
        // Whatever came, the list is what was heard, message after message, and what the tape has;
        // and what was heard came on connections.
        ensures lived { HasLearned T.Tape (state_of self.new) }
        ensures told { HasBeenTold T.Tape (state_of self.new) }
        ensures recorded { IsListOnTape T.Tape (state_of self.new) }
        ensures of_farm { IsOfFarm T.Tape (state_of self.new) }
        // Each response that any client was sent is the one to exactly what had come of its
        // request, over the list as it then was.
        ensures answered { HasAnsweredByList T.Tape (state_of self.new) }
        // Each reply that any reader was sent has the maps that the list then had next.
        ensures replied { HasRepliedByList T.Tape (state_of self.new) }
        // It never goes back, and goes on by what it hears of its sources.
        ensures stayed { HasOnlyGrown T.Tape (state_of self.new) }
        ensures heard { Hears self.old.upstream self.old.clients.renderer.follower
            self.new.upstream self.new.clients.renderer.follower }
        // It has to end only where all of its sources refuse it.
        ensures ended { IsTurn T.Tape result (state_of self.new) }
    {
        let mut tokens = [0usize; MOST_READY];
        let millis = self.patience(now(rt));
        let count = self.network.wait(millis, &mut tokens);
        self.run_once(rt, log, &tokens[..count], now(rt))
    }
}

impl<T: Tape + Drop, N: Network + Drop> ReplicaLoop<T, N> {
    /// Binds the addresses of a replica on a network, at this time in milliseconds. Err: why it
    /// doesn't begin; the replica is dropped.
    #[tactic(auto, using(crate::proofs::Hearing::nothing_heard))]
    pub(crate) fn on<R: Net + Clock + AllocGlobal>(
        rt: &R,
        network: N,
        ready: ReadyReplica<T>,
        time: u64,
    ) -> Result<Self, ReplicaFault>
        ensures begun { IfOk result (λ event_loop. HasHeardNothing T.Tape (state_of event_loop)) }
        ensures fault { IfErr result (IsReplicaSystemFault ready.plan) }
    {
        let ReadyReplica {
            plan,
            follower,
            tape,
            first,
        } = ready;
        match ports_of(rt, &plan, &network) {
            Ok(ports) => {
                let ReplicaPlan { farm, sources, .. } = plan;
                let is_new = follower.history().published().number() == 0;
                match Upstream::new(rt.alloc(), sources, farm, first, is_new, time) {
                    Ok(upstream) => Ok(assemble(network, ports, upstream, follower, tape, time)),
                    Err(AllocError) => {
                        drop(network);
                        drop(ports);
                        drop(tape);
                        drop(follower);
                        Err(ReplicaFault::Memory)
                    }
                }
            }
            Err(fault) => {
                drop(network);
                drop(plan);
                drop(tape);
                drop(follower);
                Err(fault)
            }
        }
    }

    /// Where clients come.
    pub(crate) fn http(&self) -> Option<SocketAddr> {
        self.clients.visitors.address(&self.network)
    }

    /// What the replica has published.
    pub(crate) fn history(&self) -> &History
        ensures { result.now ≡ self.now.clients.renderer.follower.maps.shelf }
    {
        self.clients.renderer.follower.history()
    }

    /// Whether what it has published is on its tape.
    pub(crate) fn has_tape(&self) -> bool {
        self.clients.renderer.follower.has_tape()
    }

    /// The replica's list is what it has heard and what its tape has, what it has heard came on its
    /// connections, each client that was answered, and each reader that was replied to, was so from
    /// it as it then was, and it never went back, always. The call does nothing.
    #[tactic(auto, using(crate::proofs::Faults::of_farm, crate::proofs::Hearing::been_told))]
    pub(crate) fn always_lived(&self)
        ensures lived { HasLearned T.Tape (state_of self.now) }
        ensures told { HasBeenTold T.Tape (state_of self.now) }
        ensures recorded { IsListOnTape T.Tape (state_of self.now) }
        ensures of_farm { IsOfFarm T.Tape (state_of self.now) }
        ensures answered { HasAnsweredByList T.Tape (state_of self.now) }
        ensures stayed { HasOnlyGrown T.Tape (state_of self.now) }
        ensures replied { HasRepliedByList T.Tape (state_of self.now) }
    {
        what_is_learned_is_served::<T>();
        self.upstream.heard.always_come();
        self.clients.always_served();
    }

    /// For how long the next turn may be waited for at most where no socket is ready, in
    /// milliseconds: until something is due, and not at all if there is more to do.
    pub(crate) fn patience(&self, time: u64) -> u64
        ensures { result ≤ 100 }
    {
        if self.is_busy {
            0
        } else {
            let tick = self.ticks.due.saturating_sub(time).min(TICK_MILLIS);
            tick.min(self.upstream.left(time))
        }
    }

    /// One turn, at this time in milliseconds, for the sockets with these tokens, which may be
    /// ready: does a bounded part of what there is to do, and waits for nothing.
    pub(crate) fn run_once<R: Net + Files + Clock + Eprint + AllocGlobal>(
        &mut self,
        rt: &R,
        log: &Log<'_, R>,
        ready: &[usize],
        time: u64,
    ) -> Turn
        ensures lived { HasLearned T.Tape (state_of self.new) }
        ensures told { HasBeenTold T.Tape (state_of self.new) }
        ensures recorded { IsListOnTape T.Tape (state_of self.new) }
        ensures of_farm { IsOfFarm T.Tape (state_of self.new) }
        ensures answered { HasAnsweredByList T.Tape (state_of self.new) }
        ensures stayed { HasOnlyGrown T.Tape (state_of self.new) }
        ensures replied { HasRepliedByList T.Tape (state_of self.new) }
        ensures heard { Hears self.old.upstream self.old.clients.renderer.follower
            self.new.upstream self.new.clients.renderer.follower }
        ensures ended { IsTurn T.Tape result (state_of self.new) }
    {
        self.time = time.max(self.time);
        self.is_busy = self.act(rt, log, ready);
        self.always_lived();
        match self.upstream.end() {
            Some(why) => Turn::Ended(why),
            None => Turn::On,
        }
    }

    /// Does what the sockets that are ready ask for, and what the clock does. Returns whether there
    /// is more to do.
    #[tactic(auto, using(crate::proofs::Hearing::acted))]
    fn act<'x, R: Net + Files + Clock + Eprint + AllocGlobal>(
        &mut self,
        rt: &'x R,
        log: &'x Log<'x, R>,
        ready: &[usize],
    ) -> bool
        ensures { Hears self.old.upstream self.old.clients.renderer.follower
            self.new.upstream self.new.clients.renderer.follower }
    {
        let ReplicaLoop {
            network,
            desk,
            upstream,
            clients,
            tape,
            ticks,
            time,
            ..
        } = self;
        let context = Context {
            rt,
            log,
            network,
            time: *time,
        };
        clients.ask(&context, upstream);
        act_on_each(&context, upstream, clients, desk, ready);
        let is_busy = clients.serve(&context);
        tick(&context, ticks, clients, desk);
        answer_operators(&context, desk, upstream, clients, tape);
        is_busy || clients.visitors.is_busy()
    }
}

/// Why there is no event loop of a plan where there is no network.
fn fault_of(error: NetworkError, _plan: &ReplicaPlan) -> ReplicaFault
    ensures { IsReplicaSystemFault _plan.now result }
{
    match error {
        NetworkError::Poll => ReplicaFault::Poll,
        NetworkError::Memory => ReplicaFault::Memory,
    }
}

/// The ports of a replica on a network. Err: an address is taken or not permitted, or an allocation
/// fails.
fn ports_of<R: Net + Clock + AllocGlobal, N: Network>(
    rt: &R,
    plan: &ReplicaPlan,
    network: &N,
) -> Result<Ports<N>, ReplicaFault>
    ensures clients { IfOk result (λ ports. responses_of ports.clients ≡ []) }
    ensures readers { IfOk result (λ ports. exchanges_of ports.desk.readers ≡ []) }
    ensures fault { IfErr result (IsReplicaSystemFault plan.now) }
{
    match PortListeners::bind(rt, network, &plan.ports) {
        Ok(listeners) => match listeners.open(rt.alloc(), CLIENTS, StartTime::now(rt)) {
            Ok(ports) => Ok(ports),
            Err(AllocError) => Err(ReplicaFault::Memory),
        },
        Err(taken) => Err(ReplicaFault::Taken(taken.option, taken.address)),
    }
}

/// An event loop of these parts.
fn assemble<T: Tape + Drop, N: Network>(
    network: N,
    ports: Ports<N>,
    upstream: Upstream<N>,
    follower: Follower<T>,
    tape: String,
    time: u64,
) -> ReplicaLoop<T, N>
    requires clients { responses_of ports.clients ≡ [] }
    requires readers { exchanges_of ports.desk.readers ≡ [] }
    ensures upstream { result.upstream ≡ upstream }
    ensures follower { result.clients.renderer.follower ≡ follower }
{
    let Ports { clients, desk } = ports;
    let clients = ReplicaClients::new(clients, follower);
    ReplicaLoop {
        network,
        desk,
        upstream,
        clients,
        tape,
        ticks: Ticker::new(time, TICK_MILLIS),
        time,
        is_busy: false,
    }
}

/// Does what the sockets that are ready ask for.
fn act_on_each<R: Net + Clock + Eprint + AllocGlobal, T: Tape + Drop, N: Network>(
    context: &Context<'_, '_, R, N>,
    upstream: &Upstream<N>,
    clients: &mut ReplicaClients<T, N>,
    desk: &mut Desk<N>,
    ready: &[usize],
)
    ensures renderer { clients.new.renderer ≡ clients.old.renderer }
    ensures replied { GoOnReplied (list_of clients.old.renderer.follower)
        (list_of clients.old.renderer.follower)
        (exchanges_of desk.old.readers) (exchanges_of desk.new.readers) }
{
    for token in ready {
        act_on(context, upstream, clients, desk, *token);
    }
}

/// Does what a ready socket asks for. What came from the source was taken before.
#[tactic(auto, using(crate::proofs::Readers::replied_still))]
fn act_on<R: Net + Clock + Eprint + AllocGlobal, T: Tape + Drop, N: Network>(
    context: &Context<'_, '_, R, N>,
    upstream: &Upstream<N>,
    clients: &mut ReplicaClients<T, N>,
    desk: &mut Desk<N>,
    token: usize,
)
    ensures renderer { clients.new.renderer ≡ clients.old.renderer }
    ensures replied { GoOnReplied (list_of clients.old.renderer.follower)
        (list_of clients.old.renderer.follower)
        (exchanges_of desk.old.readers) (exchanges_of desk.new.readers) }
{
    let Some(socket) = PortSocket::of(token) else {
        return;
    };
    match socket {
        PortSocket::Http => clients.accept(context),
        PortSocket::Client(index) => clients.on_ready(context, index),
        PortSocket::Admin => desk.operators.accept(context),
        PortSocket::Operator(index) => desk.operators.on_ready(context, index),
        PortSocket::Readers => desk.readers.accept(context),
        PortSocket::Reader(index) => {
            let follower = &clients.renderer.follower;
            answer_reader(context, upstream, follower, &mut desk.readers, index);
        }
    }
}

/// Answers a reader, from what the replica has published.
fn answer_reader<R: Net + Clock + Eprint + AllocGlobal, T: Tape + Drop, N: Network>(
    context: &Context<'_, '_, R, N>,
    upstream: &Upstream<N>,
    follower: &Follower<T>,
    readers: &mut ReadersPort<N>,
    index: usize,
)
    ensures { GoOnReplied (list_of follower.now) (list_of follower.now)
        (exchanges_of readers.old) (exchanges_of readers.new) }
{
    let published = PortView {
        own: &upstream.answerer,
        history: follower.history(),
        digests: follower.digests(),
    };
    readers.on_ready(context, &published, index);
}

/// Accepts whoever comes, and ends the phases whose time is over, if a tick is due.
fn tick<R: Net + Clock + Eprint + AllocGlobal, T: Tape + Drop, N: Network>(
    context: &Context<'_, '_, R, N>,
    ticks: &mut Ticker,
    clients: &mut ReplicaClients<T, N>,
    desk: &mut Desk<N>,
)
    ensures renderer { clients.new.renderer ≡ clients.old.renderer }
    ensures exchanges { exchanges_of desk.new.readers ≡ exchanges_of desk.old.readers }
{
    if ticks.tick(context.time) {
        clients.accept(context);
        clients.tick(context.time);
        desk.tick(context);
    }
}

/// Answers requests of operators that are whole, a bounded number of them.
fn answer_operators<R: Files + Clock + Eprint + AllocGlobal, T: Tape + Drop, N: Network>(
    context: &Context<'_, '_, R, N>,
    desk: &mut Desk<N>,
    upstream: &Upstream<N>,
    clients: &ReplicaClients<T, N>,
    tape: &str,
)
    ensures { exchanges_of desk.new.readers ≡ exchanges_of desk.old.readers }
{
    let follower = &clients.renderer.follower;
    let lacks = follower.history().published().number() < upstream.received;
    let is_behind = desk.behind.judge(lacks, context.time);
    let mut operator = Operator::new(ReplicaFacts {
        rt: context.rt,
        started: desk.started,
        history: follower.history(),
        digests: follower.digests(),
        is_connected: upstream.is_connected(),
        distance: upstream.answerer.distance,
        received: upstream.received,
        is_new: upstream.is_new,
        requests: clients.visitors.counts(),
        pictures: clients.renderer.pictures,
        unkept: follower.cache().unkept(),
        tape,
        has_tape: follower.has_tape(),
        reader_differs: desk.readers.differs(context.time),
        is_behind,
        clients: clients.visitors.taken_slots(),
        readers: desk.readers.reader_count(),
    });
    desk.answer_operators(context, &mut operator);
}
