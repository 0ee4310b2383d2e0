//! A host's view of the network: the traits of sockets over it.
ghost use Rattle.std.specs.Prelude.{◌≡◌, ◌≢◌, [], length};
ghost use Rattle.wf_sockets.specs.Moved.{IsWithin};

use crate::world::{Handle, World};
use std::cell::RefCell;
use std::net::{Net, SocketAddr};
use wf_sockets::{Connection, Moved, Network, NotAccepted, Trail};

/// The network as a host sees it.
#[derive(Clone, Copy)]
pub struct SimulatedNetwork<'a> {
    world: &'a RefCell<World>,
    host: usize,
}

impl<'a> SimulatedNetwork<'a> {
    /// The network as the host of this number sees it.
    pub fn new(world: &'a RefCell<World>, host: usize) -> Self {
        SimulatedNetwork { world, host }
    }
}

/// A listener of a host.
pub struct SimulatedListener<'a> {
    world: &'a RefCell<World>,
    number: u64,
}

impl<'a> Drop for SimulatedListener<'a> {
    fn drop(self) {
        let SimulatedListener { world, number } = self;
        if let Ok(mut world) = world.try_borrow_mut() {
            world.close_door(number);
        }
    }
}

/// An end of a connection.
pub struct SimulatedConnection<'a> {
    world: &'a RefCell<World>,
    handle: Handle,
    came: Trail,
    sent: Trail,
}

impl<'a> SimulatedConnection<'a> {
    /// An end on which nothing came or was sent.
    fn new(world: &'a RefCell<World>, handle: Handle) -> Self
        ensures came { result.came.bytes ≡ [] }
        ensures sent { result.sent.bytes ≡ [] }
    {
        SimulatedConnection {
            world,
            handle,
            came: Trail::new(),
            sent: Trail::new(),
        }
    }
}

impl<'a> Drop for SimulatedConnection<'a> {
    fn drop(self) {
        let SimulatedConnection {
            world,
            handle,
            came,
            sent,
        } = self;
        drop(came);
        drop(sent);
        if let Ok(mut world) = world.try_borrow_mut() {
            world.close(handle);
        }
    }
}

impl<'a> Connection for SimulatedConnection<'a> {
    ghost came = { λ connection. connection.came.bytes };

    ghost sent = { λ connection. connection.sent.bytes };

    fn read(&mut self, buf: &mut [u8]) -> Moved {
        let moved = read_of(self.world, self.handle, buf);
        if let Moved::Bytes(count) = moved {
            self.came.add(buf.split_at(count).0);
        }
        moved
    }

    fn write(&mut self, bytes: &[u8]) -> Moved {
        let moved = write_of(self.world, self.handle, bytes);
        if let Moved::Bytes(count) = moved {
            self.sent.add(bytes.split_at(count).0);
        }
        moved
    }

    fn send_at_once(&mut self) {}

    fn end_writing(&mut self) {
        if let Ok(mut world) = self.world.try_borrow_mut() {
            world.end_writing(self.handle);
        }
    }
}

/// Reads at an end.
fn read_of(world: &RefCell<World>, handle: Handle, buf: &mut [u8]) -> Moved
    ensures within { IsWithin (length buf.old) result }
    ensures empty { length buf.old ≡ 0 → result ≡ Moved.Blocked }
{
    match world.try_borrow_mut() {
        Ok(mut world) => world.read(handle, buf),
        Err(_) => Moved::Blocked,
    }
}

/// Writes at an end.
fn write_of(world: &RefCell<World>, handle: Handle, bytes: &[u8]) -> Moved
    ensures within { IsWithin (length bytes.now) result }
    ensures empty { length bytes.now ≡ 0 → result ≡ Moved.Blocked }
    ensures open { result ≢ Moved.Closed }
{
    match world.try_borrow_mut() {
        Ok(mut world) => world.write(handle, bytes),
        Err(_) => Moved::Blocked,
    }
}

impl<'a> Network for SimulatedNetwork<'a> {
    type Connection = SimulatedConnection<'a>;

    type Listener = SimulatedListener<'a>;

    fn listen<R: Net>(
        &self,
        _rt: &R,
        address: SocketAddr,
        token: usize,
    ) -> Option<SimulatedListener<'a>> {
        let number = self
            .world
            .try_borrow_mut()
            .ok()?
            .listen(self.host, address, token)?;
        Some(SimulatedListener {
            world: self.world,
            number,
        })
    }

    fn address(&self, listener: &SimulatedListener<'a>) -> Option<SocketAddr> {
        self.world.try_borrow().ok()?.address(listener.number)
    }

    fn accept(
        &self,
        listener: &mut SimulatedListener<'a>,
    ) -> Result<(SimulatedConnection<'a>, SocketAddr), NotAccepted> {
        let accepted = match self.world.try_borrow_mut() {
            Ok(mut world) => world.accept(listener.number),
            Err(_) => Err(NotAccepted::Blocked),
        };
        match accepted {
            Ok((handle, address)) => Ok((SimulatedConnection::new(self.world, handle), address)),
            Err(why) => Err(why),
        }
    }

    fn connect<R: Net>(&self, _rt: &R, address: SocketAddr) -> Option<SimulatedConnection<'a>> {
        let handle = self
            .world
            .try_borrow_mut()
            .ok()?
            .connect(self.host, address)?;
        Some(SimulatedConnection::new(self.world, handle))
    }

    fn watch(&self, connection: &mut SimulatedConnection<'a>, token: usize) -> bool {
        match self.world.try_borrow_mut() {
            Ok(mut world) => world.watch(connection.handle, token),
            Err(_) => false,
        }
    }
}
