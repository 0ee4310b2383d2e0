//! The network, as its driver sees it.
ghost use Rattle.std.specs.Prelude.{◌≡◌, ◌≢◌, length};
ghost use Rattle.wf_sockets.specs.Moved.{IsWithin};

use crate::channel::{Channel, Route, Stage, sooner};
use crate::counts::{Counts, raise};
use crate::door::{Door, door_at, index_of};
use crate::endpoint::Side;
use crate::faults::Faults;
use crate::medium::Medium;
use std::alloc::{AllocError, Global};
use std::net::{Ipv4Addr, SocketAddr, SocketAddrV4};
use wf_sockets::{Moved, NotAccepted};

/// The end of a connection that a program has: the slot of the connection, its number, and which
/// end it is.
#[derive(Clone, Copy)]
pub(crate) struct Handle {
    slot: usize,
    number: u64,
    side: Side,
}

/// A network in plain data: its hosts, what listens, its connections, the time, and chance.
pub struct World {
    alloc: Global,
    medium: Medium,
    doors: Vec<Door>,
    channels: Vec<Option<Channel>>,
    // the number of the next connection or listener
    next: u64,
}

impl Drop for World {
    fn drop(self) {
        let World {
            alloc: _,
            medium,
            doors,
            channels,
            next: _,
        } = self;
        drop(medium);
        drop(doors);
        drop(channels);
    }
}

/// So many slots, none of which is taken.
fn free_slots(alloc: Global, count: usize) -> Result<Vec<Option<Channel>>, AllocError> {
    let mut slots = Vec::new(alloc);
    for _ in 0..count {
        slots.push(None)?;
    }
    Ok(slots)
}

impl World {
    /// A network of so many hosts, all of which are on, on which at most so many connections are
    /// open at once. Its time is 0. The same seed, faults and calls give the same network. The only
    /// error is allocation failure.
    pub fn new(
        alloc: Global,
        seed: u64,
        faults: Faults,
        hosts: usize,
        connections: usize,
    ) -> Result<World, AllocError> {
        let medium = Medium::new(alloc, seed, faults, hosts)?;
        let channels = free_slots(alloc, connections)?;
        Ok(World {
            alloc,
            medium,
            doors: Vec::new(alloc),
            channels,
            next: 1,
        })
    }

    /// The time, in milliseconds.
    pub fn time(&self) -> u64 {
        self.medium.time
    }

    /// How often what happened.
    pub fn counts(&self) -> Counts {
        self.medium.counts
    }

    /// What goes wrong from now on.
    pub fn set_faults(&mut self, faults: Faults) {
        self.medium.faults = faults;
    }

    /// Nothing goes from a host to another until then. What was sent stays on its way; nobody is
    /// told.
    pub fn block(&mut self, from: usize, to: usize, until: u64) {
        self.medium.block(from, to, until);
    }

    /// Turns a host off: nothing reaches it any more, and what is closed there is closed in
    /// silence. Its programs have to be ended by the caller.
    pub fn turn_off(&mut self, host: usize) {
        self.set_host(host, false);
    }

    /// Turns a host on. It knows of no connection from before, and answers what comes for one by a
    /// reset.
    pub fn turn_on(&mut self, host: usize) {
        self.set_host(host, true);
    }

    /// Sets whether a host is on.
    fn set_host(&mut self, host: usize, is_on: bool) {
        if let Some(host) = self.medium.hosts.get_mut(host) {
            host.is_on = is_on;
        }
    }

    /// How many connections are there, also those of which one end alone is.
    pub fn count(&self) -> usize {
        self.channels.iter().filter(|slot| slot.is_some()).count()
    }

    /// When something is due next. None: nothing is on its way.
    pub fn due(&self) -> Option<u64> {
        let mut due = None;
        for slot in &self.channels {
            if let Some(channel) = slot {
                due = sooner(due, channel.due());
            }
        }
        due
    }

    /// Goes on to a moment, in milliseconds, unless it is past: what is due by then arrives, each
    /// at most one step. A caller that goes from one moment of [`due`](World::due) to the next
    /// misses none.
    pub fn advance(&mut self, time: u64) {
        self.medium.time = self.medium.time.max(time);
        let World {
            medium,
            doors,
            channels,
            ..
        } = self;
        for slot in channels.iter_mut() {
            if let Some(channel) = slot {
                channel.step(medium, doors);
            }
            free_if_over(slot);
        }
    }

    /// The token of a socket of a host that may be ready, as it was watched or listened under.
    /// None: no socket has anything new. By chance one is told of a socket that isn't ready, or of
    /// one that was closed.
    pub fn take_ready(&mut self, host: usize) -> Option<usize> {
        if self.medium.chance.happens(self.medium.faults.false_events) {
            return self.false_token(host);
        }
        match self.take_channel_event(host) {
            Some(token) => Some(token),
            None => take_door_event(&mut self.doors, host),
        }
    }

    /// The token of an event of a connection of a host, which is taken: of those after one by
    /// chance first.
    fn take_channel_event(&mut self, host: usize) -> Option<usize> {
        let count = self.channels.len();
        let first = self.medium.chance.up_to(u32::try_from(count).unwrap_or(1)) as usize;
        for offset in 0..count {
            let index = first.saturating_add(offset).checked_rem(count).unwrap_or(0);
            if let Some(Some(channel)) = self.channels.get_mut(index) {
                if let Some(token) = channel.take_event(host) {
                    return Some(token);
                }
            }
        }
        None
    }

    /// A token of a host by which it may be told falsely.
    fn false_token(&mut self, host: usize) -> Option<usize> {
        let stale = match self.medium.hosts.get_mut(host) {
            Some(host) => host.stale.take(),
            None => None,
        };
        match stale {
            Some(token) => Some(token),
            None => self.first_token(host),
        }
    }

    /// The token of the first connection of a host that is watched.
    fn first_token(&self, host: usize) -> Option<usize> {
        for slot in &self.channels {
            if let Some(channel) = slot {
                if let Some(token) = channel.token_of(host) {
                    return Some(token);
                }
            }
        }
        None
    }

    /// A listener of a host at an address, under a token; port 0 is a free one.
    pub(crate) fn listen(&mut self, host: usize, address: SocketAddr, token: usize) -> Option<u64> {
        if address.ip() != address_of(host, 0).ip() || !self.medium.is_on(host) {
            return None;
        }
        let port = match address.port() {
            0 => self.medium.port(host),
            port => port,
        };
        let address = address_of(host, port);
        if door_at(self.doors.as_slice(), address).is_some() {
            return None;
        }
        let number = self.take_number();
        let door = Door {
            number,
            host,
            address,
            token,
            is_ready: false,
            queued: 0,
        };
        match self.doors.push(door) {
            Ok(()) => Some(number),
            Err(_) => None,
        }
    }

    /// The next number.
    fn take_number(&mut self) -> u64 {
        let number = self.next;
        self.next = number.saturating_add(1);
        number
    }

    /// Where a listener listens.
    pub(crate) fn address(&self, number: u64) -> Option<SocketAddr> {
        let index = index_of(self.doors.as_slice(), number)?;
        self.doors.get(index).map(|door| door.address)
    }

    /// Closes a listener: the connections that wait there are reset.
    pub(crate) fn close_door(&mut self, number: u64) {
        if let Some(index) = index_of(self.doors.as_slice(), number) {
            if index < self.doors.len() {
                let _ = self.doors.swap_remove(index);
            }
        }
        for slot in self.channels.iter_mut() {
            if let Some(channel) = slot {
                if channel.waits_at(number) {
                    channel.reject(&mut self.medium);
                }
            }
            free_if_over(slot);
        }
    }

    /// The slot of a connection that waits at a listener.
    fn waiting_at(&self, number: u64) -> Option<usize> {
        for (slot, channel) in self.channels.iter().enumerate() {
            if let Some(channel) = channel {
                if channel.waits_at(number) {
                    return Some(slot);
                }
            }
        }
        None
    }

    /// The first free slot.
    fn free_slot(&self) -> Option<usize> {
        for (slot, channel) in self.channels.iter().enumerate() {
            if channel.is_none() {
                return Some(slot);
            }
        }
        None
    }

    /// The next connection that waits at a listener. By chance one that is reset there.
    pub(crate) fn accept(&mut self, number: u64) -> Result<(Handle, SocketAddr), NotAccepted> {
        let Some(slot) = self.waiting_at(number) else {
            return Err(NotAccepted::Blocked);
        };
        let World {
            medium,
            doors,
            channels,
            ..
        } = self;
        leave_queue(doors, number);
        let Some(Some(channel)) = channels.get_mut(slot) else {
            return Err(NotAccepted::Failed);
        };
        channel.stage = Stage::Open;
        if medium.chance.happens(medium.faults.resets) {
            raise(&mut medium.counts.resets);
            channel.reject(medium);
            return Err(NotAccepted::Failed);
        }
        Ok((
            Handle {
                slot,
                number: channel.number,
                side: Side::Callee,
            },
            channel.from,
        ))
    }

    /// Begins a connection of a host to an address. None: no slot is free, or an allocation failed.
    pub(crate) fn connect(&mut self, host: usize, address: SocketAddr) -> Option<Handle> {
        let slot = self.free_slot()?;
        let number = self.take_number();
        let route = Route {
            caller: host,
            callee: host_of(address),
            from: address_of(host, self.medium.port(host)),
            to: address,
        };
        let channel = Channel::new(self.alloc, &mut self.medium, number, route);
        if let Some(free) = self.channels.get_mut(slot) {
            *free = Some(channel);
        }
        Some(Handle {
            slot,
            number,
            side: Side::Caller,
        })
    }

    /// Reads at an end.
    pub(crate) fn read(&mut self, handle: Handle, buf: &mut [u8]) -> Moved
        ensures within { IsWithin (length buf.old) result }
        ensures empty { length buf.old ≡ 0 → result ≡ Moved.Blocked }
    {
        let World {
            medium,
            channels,
            ..
        } = self;
        match channel_of(channels, handle) {
            Some(channel) => channel.read(handle.side, buf, medium),
            None => if buf.is_empty() {
                Moved::Blocked
            } else {
                Moved::Failed
            },
        }
    }

    /// Writes at an end.
    pub(crate) fn write(&mut self, handle: Handle, bytes: &[u8]) -> Moved
        ensures within { IsWithin (length bytes.now) result }
        ensures empty { length bytes.now ≡ 0 → result ≡ Moved.Blocked }
        ensures open { result ≢ Moved.Closed }
    {
        let World {
            medium,
            channels,
            ..
        } = self;
        match channel_of(channels, handle) {
            Some(channel) => channel.write(handle.side, bytes, medium),
            None => if bytes.is_empty() {
                Moved::Blocked
            } else {
                Moved::Failed
            },
        }
    }

    /// Ends the writing direction of an end.
    pub(crate) fn end_writing(&mut self, handle: Handle) {
        let World {
            medium,
            channels,
            ..
        } = self;
        if let Some(channel) = channel_of(channels, handle) {
            channel.end_writing(handle.side, medium);
        }
    }

    /// Watches an end under a token. Returns whether it is there.
    pub(crate) fn watch(&mut self, handle: Handle, token: usize) -> bool {
        match channel_of(&mut self.channels, handle) {
            Some(channel) => {
                channel.watch(handle.side, token);
                true
            }
            None => false,
        }
    }

    /// Closes an end.
    pub(crate) fn close(&mut self, handle: Handle) {
        let World {
            medium,
            channels,
            ..
        } = self;
        if let Some(channel) = channel_of(channels, handle) {
            channel.close(handle.side, medium);
        }
        if let Some(slot) = channels.get_mut(handle.slot) {
            free_if_over(slot);
        }
    }
}

/// The token of an event of a listener of a host, which is taken.
fn take_door_event(doors: &mut Vec<Door>, host: usize) -> Option<usize> {
    for door in doors.iter_mut() {
        if let Some(token) = door.take_event(host) {
            return Some(token);
        }
    }
    None
}

/// One connection fewer waits at a listener.
fn leave_queue(doors: &mut Vec<Door>, number: u64) {
    if let Some(index) = index_of(doors.as_slice(), number) {
        if let Some(door) = doors.get_mut(index) {
            door.queued = door.queued.saturating_sub(1);
        }
    }
}

/// The address of a host, with a port. Hosts are numbered from 0.
pub fn address_of(host: usize, port: u16) -> SocketAddr {
    let [high, low] = u16::try_from(host).unwrap_or(u16::MAX).to_be_bytes();
    SocketAddr::V4(SocketAddrV4::new(Ipv4Addr::new(10, 0, high, low), port))
}

/// The host of an address; one that isn't there if it is of no host.
fn host_of(address: SocketAddr) -> usize {
    match address {
        SocketAddr::V4(address) => match address.ip().octets() {
            [10, 0, high, low] => u16::from_be_bytes([high, low]) as usize,
            _ => usize::MAX,
        },
        SocketAddr::V6(_) => usize::MAX,
    }
}

/// The connection of an end, if it is there.
fn channel_of(channels: &mut Vec<Option<Channel>>, handle: Handle) -> Option<&mut Channel> {
    match channels.get_mut(handle.slot) {
        Some(Some(channel)) if channel.number == handle.number => Some(channel),
        _ => None,
    }
}

/// Frees a slot whose connection is over.
fn free_if_over(slot: &mut Option<Channel>) {
    let is_over = match slot {
        Some(channel) => channel.is_over(),
        None => false,
    };
    if is_over {
        *slot = None;
    }
}
