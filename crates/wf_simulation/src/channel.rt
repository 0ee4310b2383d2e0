//! A connection, as the network has it: both of its directions and both of its ends.
#![tactic(auto, using(crate::proofs::Keeps::keeps_same, crate::proofs::Keeps::keeps_twice))]

ghost use Rattle.std.specs.Prelude.{◌≡◌, ◌≢◌, ◌++◌, length};
ghost use Rattle.wf_sockets.specs.Moved.{moved, IsWithin};
ghost use Rattle.wf_simulation.specs.Channel.{incoming, outgoing, KeepsBoth};
ghost use Rattle.wf_simulation.specs.Pipe.{KeepsBytes};

use crate::counts::raise;
use crate::door::{Door, MOST_QUEUED, door_at, index_of};
use crate::endpoint::{Endpoint, Side};
use crate::flow::Flow;
use crate::medium::Medium;
use std::alloc::Global;
use std::net::SocketAddr;
use wf_sockets::Moved;

/// How often an attempt to connect is made that nothing answers.
const MOST_CALLS: u32 = 5;

/// How far the opening of a connection is, and when its next step is due.
#[derive(Clone, Copy)]
pub(crate) enum Stage {
    /// The caller has asked so many times.
    Calling { due: u64, calls: u32 },
    /// The host refuses.
    Refusing { due: u64 },
    /// The host agrees.
    Answering { due: u64 },
    /// The caller's end is open; the listener doesn't know yet.
    Confirming { due: u64 },
    /// It waits at the listener.
    Queued,
    /// It was accepted.
    Open,
    /// It couldn't be opened.
    Failed,
}

/// A connection: its number, where it goes, and from which address.
#[derive(Drop)]
pub(crate) struct Channel {
    pub(crate) number: u64,
    pub(crate) from: SocketAddr,
    pub(crate) to: SocketAddr,
    pub(crate) door: u64,
    pub(crate) stage: Stage,
    pub(crate) caller: Endpoint,
    pub(crate) callee: Endpoint,
    pub(crate) forth: Flow,
    pub(crate) back: Flow,
}

impl Channel {
    /// A connection that a host begins to an address of another.
    pub(crate) fn new(alloc: Global, medium: &mut Medium, number: u64, route: Route) -> Self {
        let least = medium.faults.least_room;
        let most = medium.faults.most_room;
        let forth = medium.chance.within(least, most) as usize;
        let back = medium.chance.within(least, most) as usize;
        let due = medium.soon();
        Channel {
            number,
            from: route.from,
            to: route.to,
            door: 0,
            stage: Stage::Calling { due, calls: 0 },
            caller: Endpoint::new(route.caller),
            callee: Endpoint::new(route.callee),
            forth: Flow::new(alloc, forth),
            back: Flow::new(alloc, back),
        }
    }

    /// Reads at an end.
    pub(crate) fn read(&mut self, side: Side, buf: &mut [u8], medium: &mut Medium) -> Moved
        ensures came { (incoming side self.new).came ≡
            (incoming side self.old).came ++ moved result buf.new }
        ensures sent { (incoming side self.new).sent ≡ (incoming side self.old).sent }
        ensures other { KeepsBytes (outgoing side self.old) (outgoing side self.new) }
        ensures within { IsWithin (length buf.old) result }
        ensures empty { length buf.old ≡ 0 → result ≡ Moved.Blocked }
    {
        match side {
            Side::Caller => read_from(&mut self.back, &mut self.forth, buf, medium),
            Side::Callee => read_from(&mut self.forth, &mut self.back, buf, medium),
        }
    }

    /// Writes at an end. Before the connection is open nothing is taken.
    pub(crate) fn write(&mut self, side: Side, bytes: &[u8], medium: &mut Medium) -> Moved
        ensures sent { (outgoing side self.new).sent ≡
            (outgoing side self.old).sent ++ moved result bytes.now }
        ensures came { (outgoing side self.new).came ≡ (outgoing side self.old).came }
        ensures other { KeepsBytes (incoming side self.old) (incoming side self.new) }
        ensures within { IsWithin (length bytes.now) result }
        ensures empty { length bytes.now ≡ 0 → result ≡ Moved.Blocked }
        ensures open { result ≢ Moved.Closed }
    {
        if self.is_opening() {
            return Moved::Blocked;
        }
        match side {
            Side::Caller => write_to(&mut self.forth, &mut self.caller, bytes, medium),
            Side::Callee => write_to(&mut self.back, &mut self.callee, bytes, medium),
        }
    }

    /// Whether the caller doesn't know yet whether it is open.
    pub(crate) fn is_opening(&self) -> bool {
        matches!(
            self.stage,
            Stage::Calling { .. } | Stage::Refusing { .. } | Stage::Answering { .. }
        )
    }

    /// Ends the writing direction of an end, if it is open.
    pub(crate) fn end_writing(&mut self, side: Side, medium: &mut Medium)
        ensures { KeepsBoth self.old self.new }
    {
        if self.is_opening() {
            return;
        }
        match side {
            Side::Caller => end_flow(&mut self.forth, medium),
            Side::Callee => end_flow(&mut self.back, medium),
        }
    }

    /// Watches an end under a token: an event waits if there is something to read or to write now.
    pub(crate) fn watch(&mut self, side: Side, token: usize)
        ensures { KeepsBoth self.old self.new }
    {
        let is_opening = self.is_opening();
        let Channel {
            caller,
            callee,
            forth,
            back,
            ..
        } = self;
        match side {
            Side::Caller => watch_end(caller, back, forth, token, is_opening),
            Side::Callee => watch_end(callee, forth, back, token, is_opening),
        }
    }

    /// Closes an end: over unread bytes the other end is reset, else it reads to the end of what
    /// was sent. A host that is off tells nobody; once it is on it answers by a reset.
    pub(crate) fn close(&mut self, side: Side, medium: &mut Medium)
        ensures { KeepsBoth self.old self.new }
    {
        let Channel {
            caller,
            callee,
            forth,
            back,
            ..
        } = self;
        match side {
            Side::Caller => close_end(caller, back, forth, medium),
            Side::Callee => close_end(callee, forth, back, medium),
        }
    }

    /// Whether it waits at the listener of this number.
    pub(crate) fn waits_at(&self, door: u64) -> bool {
        matches!(self.stage, Stage::Queued) && self.door == door && !self.callee.is_closed
    }

    /// Resets it, which its host hasn't accepted. A host that is off tells nobody.
    pub(crate) fn reject(&mut self, medium: &mut Medium)
        ensures { KeepsBoth self.old self.new }
    {
        self.callee.is_closed = true;
        if medium.is_on(self.callee.host) {
            self.back.reset(medium);
        } else {
            self.callee.is_forgotten = true;
        }
    }

    /// Takes an event of an end at a host. Returns its token.
    pub(crate) fn take_event(&mut self, host: usize) -> Option<usize>
        ensures { KeepsBoth self.old self.new }
    {
        match self.caller.take_event(host) {
            Some(token) => Some(token),
            None => self.callee.take_event(host),
        }
    }

    /// The token of an end at a host.
    pub(crate) fn token_of(&self, host: usize) -> Option<usize> {
        if self.caller.host == host {
            self.caller.token
        } else if self.callee.host == host {
            self.callee.token
        } else {
            None
        }
    }

    /// Whether nobody has an end of it any more.
    pub(crate) fn is_over(&self) -> bool {
        self.caller.is_closed
            && (self.callee.is_closed || self.is_opening() || matches!(self.stage, Stage::Failed))
    }

    /// When its next step is due.
    pub(crate) fn due(&self) -> Option<u64> {
        match self.stage {
            Stage::Calling { due, .. }
            | Stage::Refusing { due }
            | Stage::Answering { due }
            | Stage::Confirming { due } => Some(due),
            Stage::Queued | Stage::Open => sooner(self.forth.due, self.back.due),
            Stage::Failed => None,
        }
    }

    /// Does the steps that are due.
    pub(crate) fn step(&mut self, medium: &mut Medium, doors: &mut Vec<Door>)
        ensures { KeepsBoth self.old self.new }
    {
        match self.due() {
            Some(due) if due <= medium.time => self.step_now(medium, doors),
            _ => {}
        }
    }

    /// Does the steps that are due, of which one is.
    fn step_now(&mut self, medium: &mut Medium, doors: &mut Vec<Door>)
        ensures { KeepsBoth self.old self.new }
    {
        match self.stage {
            Stage::Calling { calls, .. } => self.call(medium, doors, calls),
            Stage::Refusing { .. } => self.refuse(medium),
            Stage::Answering { .. } => self.answer(medium),
            Stage::Confirming { .. } => self.confirm(medium, doors),
            Stage::Queued | Stage::Open => self.move_bytes(medium),
            Stage::Failed => {}
        }
    }

    /// What is on its way in both directions arrives.
    fn move_bytes(&mut self, medium: &mut Medium)
        ensures { KeepsBoth self.old self.new }
    {
        let Channel {
            caller,
            callee,
            forth,
            back,
            ..
        } = self;
        forth.step(back, caller, callee, medium);
        back.step(forth, callee, caller, medium);
    }

    /// The caller asks. Nothing answers if it doesn't come through, the queue is full, or by
    /// chance; then it asks again, and gives up at last.
    fn call(&mut self, medium: &mut Medium, doors: &mut Vec<Door>, calls: u32)
        ensures { KeepsBoth self.old self.new }
    {
        let door = door_at(doors.as_slice(), self.to);
        let is_full = match door {
            Some(door) => MOST_QUEUED <= door.queued,
            None => false,
        };
        if is_full
            || !medium.reaches(self.caller.host, self.callee.host)
            || medium.chance.happens(medium.faults.silences)
        {
            self.call_again(medium, calls);
            return;
        }
        let due = medium.soon();
        match door {
            Some(door) if !medium.chance.happens(medium.faults.refusals) => {
                self.door = door.number;
                self.stage = Stage::Answering { due };
            }
            _ => self.stage = Stage::Refusing { due },
        }
    }

    /// The caller asks again later, or gives up.
    fn call_again(&mut self, medium: &mut Medium, calls: u32)
        ensures { KeepsBoth self.old self.new }
    {
        raise(&mut medium.counts.unanswered);
        if calls < MOST_CALLS {
            self.stage = Stage::Calling {
                due: medium.later(),
                calls: calls.saturating_add(1),
            };
        } else {
            self.fail();
        }
    }

    /// The caller comes to know that it is refused.
    fn refuse(&mut self, medium: &mut Medium)
        ensures { KeepsBoth self.old self.new }
    {
        if medium.reaches(self.callee.host, self.caller.host) {
            raise(&mut medium.counts.refused);
            self.fail();
        } else {
            self.stage = Stage::Refusing {
                due: medium.later(),
            };
        }
    }

    /// The caller comes to know that it can't be opened.
    fn fail(&mut self)
        ensures { KeepsBoth self.old self.new }
    {
        self.stage = Stage::Failed;
        self.forth.pipe.fail_writer();
        self.back.pipe.fail_reader(false);
        self.caller.notify();
    }

    /// The caller comes to know that it is open.
    fn answer(&mut self, medium: &mut Medium)
        ensures { KeepsBoth self.old self.new }
    {
        if medium.reaches(self.callee.host, self.caller.host) {
            raise(&mut medium.counts.opened);
            self.stage = Stage::Confirming { due: medium.soon() };
            self.caller.notify();
        } else {
            self.stage = Stage::Answering {
                due: medium.later(),
            };
        }
    }

    /// The listener comes to know of it: it waits there. Where there is no listener any more, a
    /// reset comes back.
    fn confirm(&mut self, medium: &mut Medium, doors: &mut Vec<Door>)
        ensures { KeepsBoth self.old self.new }
    {
        if !medium.reaches(self.caller.host, self.callee.host) {
            self.stage = Stage::Confirming {
                due: medium.later(),
            };
            return;
        }
        self.stage = Stage::Queued;
        if !queue_at(doors, self.door) {
            self.reject(medium);
        }
        self.forth.begin(medium);
    }
}

/// Where a connection goes: the hosts, the address from which it comes, and the one to which it
/// goes.
#[derive(Clone, Copy)]
pub(crate) struct Route {
    pub(crate) caller: usize,
    pub(crate) callee: usize,
    pub(crate) from: SocketAddr,
    pub(crate) to: SocketAddr,
}

/// One connection more waits at the listener of this number. Returns whether there is one.
fn queue_at(doors: &mut Vec<Door>, number: u64) -> bool {
    let Some(index) = index_of(doors.as_slice(), number) else {
        return false;
    };
    match doors.get_mut(index) {
        Some(door) => {
            door.queued = door.queued.saturating_add(1);
            door.is_ready = true;
            true
        }
        None => false,
    }
}

/// The sooner of two moments.
pub(crate) fn sooner(one: Option<u64>, other: Option<u64>) -> Option<u64> {
    match (one, other) {
        (Some(one), Some(other)) => Some(one.min(other)),
        (Some(one), None) => Some(one),
        (None, other) => other,
    }
}

/// Reads in a direction: the other one takes to the writer that there is room.
fn read_from(flow: &mut Flow, back: &mut Flow, buf: &mut [u8], medium: &mut Medium) -> Moved
    ensures came { flow.new.pipe.came ≡ flow.old.pipe.came ++ moved result buf.new }
    ensures sent { flow.new.pipe.sent ≡ flow.old.pipe.sent }
    ensures other { KeepsBytes back.old.pipe back.new.pipe }
    ensures within { IsWithin (length buf.old) result }
    ensures empty { length buf.old ≡ 0 → result ≡ Moved.Blocked }
{
    let moved = flow.pipe.read(buf);
    if flow.pipe.has_unconfirmed() {
        back.begin(medium);
    }
    moved
}

/// Writes in a direction: what was taken is on its way. Where it was short, an event is due once
/// there is room.
fn write_to(flow: &mut Flow, end: &mut Endpoint, bytes: &[u8], medium: &mut Medium) -> Moved
    ensures sent { flow.new.pipe.sent ≡ flow.old.pipe.sent ++ moved result bytes.now }
    ensures came { flow.new.pipe.came ≡ flow.old.pipe.came }
    ensures within { IsWithin (length bytes.now) result }
    ensures empty { length bytes.now ≡ 0 → result ≡ Moved.Blocked }
    ensures open { result ≢ Moved.Closed }
{
    let moved = flow.pipe.write(bytes);
    match moved {
        Moved::Bytes(count) => {
            end.wants_room = end.wants_room || count < bytes.len();
            flow.begin(medium);
        }
        Moved::Blocked => end.wants_room = true,
        Moved::Closed | Moved::Failed => {}
    }
    moved
}

/// Ends a direction, unless it has ended.
fn end_flow(flow: &mut Flow, medium: &mut Medium)
    ensures bytes { KeepsBytes flow.old.pipe flow.new.pipe }
    ensures lost { flow.new.is_lost ≡ flow.old.is_lost }
{
    if flow.pipe.is_open() {
        flow.pipe.end();
        flow.begin(medium);
    }
}

/// Watches an end under a token. An event waits if there is something to read or to write now.
fn watch_end(end: &mut Endpoint, incoming: &Flow, outgoing: &Flow, token: usize, is_opening: bool) {
    end.token = Some(token);
    end.is_ready = !is_opening && (incoming.pipe.is_readable() || outgoing.pipe.is_writable());
}

/// Closes an end: by a reset over unread bytes, in silence where its host is off, else after what
/// was sent.
fn close_end(end: &mut Endpoint, incoming: &mut Flow, outgoing: &mut Flow, medium: &mut Medium)
    ensures incoming { KeepsBytes incoming.old.pipe incoming.new.pipe }
    ensures outgoing { KeepsBytes outgoing.old.pipe outgoing.new.pipe }
    ensures lost { outgoing.new.is_lost ≡ outgoing.old.is_lost }
{
    if let (true, Some(token)) = (end.is_ready, end.token) {
        medium.note_stale(end.host, token);
    }
    end.is_closed = true;
    end.is_ready = false;
    end.token = None;
    if !medium.is_on(end.host) {
        end.is_forgotten = true;
    } else if incoming.pipe.has_unread() {
        outgoing.reset(medium);
    } else {
        end_flow(outgoing, medium);
    }
}
