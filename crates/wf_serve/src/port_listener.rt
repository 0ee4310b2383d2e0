//! Opens the nodes, lets them catch up, prints their port, and serves the connections.
ghost use Rattle.std.specs.Prelude.{◌≡◌, ◌∷◌, Err, IfOk, OnErr, OnOk};
ghost use Rattle.wf_farm.specs.Nodes.{AllRun, nodes_in};
ghost use Rattle.wf_serve.specs.Agreement.{HaveGoneOn};
ghost use Rattle.wf_serve.specs.CacheSet.{AreCached, HaveRoom};
ghost use Rattle.wf_serve.specs.Connections.{IsServing};
ghost use Rattle.wf_serve.specs.StartFault.{CountsWrites};
ghost use Rattle.wf_serve.specs.PortLine.{IsPortLineEnded, IsPrinted, PrintsPort};
ghost use Rattle.wf_serve.specs.Served.{HasServed, HaveServed, Served};
ghost use Rattle.wf_serve.specs.Start.{HasNotServed, IsFarmStarted};
ghost use Rattle.wf_service.specs.Service.{IsService};
ghost use Rattle.wf_store.specs.Call.{locked};

use crate::cache_set::caches_for;
use crate::connection_effect::{agree_still, catch_up};
use crate::connections::serve_connections;
use crate::event::{Cause, ServeEvent, StartFault};
use crate::fault::ServeFault;
use crate::node_start::open_folder;
use crate::port::{listen, print_port};
use crate::watch::write_caught_up;
use std::fs::File;
use std::net::{Net, TcpListener, TcpStream};
use std::rt::Files;
use std::time::Clock;
use wf_farm::Farm;
use wf_service::Service;
use wf_store::{Store, SystemStore};
use wf_stream::Sink;
use wf_tape::{FileTape, MemoryTape, Tape};
use wf_visitors::Log;
use wf_wms::Cache;

/// Serves nodes at a port of 127.0.0.1, to the service's number of connections, one after the
/// other: connection c, counted from 0, by node c mod N. The port is bound first: if that fails, no
/// tape is opened. Then the nodes are opened from their tapes in the service's folder, or new ones
/// in memory if there is no folder, and it goes on as [`serve_nodes`].
///
/// Each tape in the folder is shortened once its node is open. The folder is locked first, and as
/// long as the nodes are served: if another program has locked it, nothing in it changes; nor if it
/// isn't this farm's, a tape is bad or two tapes differ. If the service asks for a log, each event
/// is written to it.
///
/// Err: `Start` if the port can't be bound, the folder can't be locked or isn't this farm's, a tape
/// doesn't open or an allocation fails; the writer isn't called then. `Write` if the line can't be
/// written; a prefix of it may be, and the failed write is the last call. The port is the
/// service's, or one chosen by the system if that is 0.
#[tactic(auto, using(crate::proofs::Serves::served_in_files))]
pub fn serve<
    'a,
    R: Files<File = File>
        + Eprint
        + Clock
        + Net<Listener = TcpListener, Stream = TcpStream>
        + AllocGlobal,
    K: Sink,
>(rt: &'a R, service: Service<'_>, sink: &mut K) -> Result<(), ServeFault>
    requires { IsService service }
    ensures reported { IsPrinted service.entry.port (K.written sink.old)
        (K.written sink.new) result }
    ensures writes { CountsWrites result (K.failures sink.old) (K.failures sink.new) }
    ensures last { IsPortLineEnded K.Sink service.entry.port sink.old sink.new result }
    ensures served { OnOk result (HasServed ⟦<MemoryTape as Tape>⟧ ⟦<FileTape<&'a R> as Tape>⟧
        service.entry) }
{
    let log = Log::new(rt, service.log);
    let Ok(listener) = listen(rt, service.port) else {
        return fault(&log, Cause::Port(service.port), None);
    };
    write_port(&log, &listener);
    match service.state {
        None => match Farm::new(rt.alloc(), service.nodes) {
            Ok(mut farm) => serve_nodes(rt, &log, &listener, service, &mut farm, sink),
            Err(_) => fault(&log, Cause::Memory, None),
        },
        Some(folder) => {
            let mut store = SystemStore::new(rt, folder);
            let outcome = serve_folder(rt, &log, &listener, &mut store, service, folder, sink);
            drop(store);
            outcome
        }
    }
}

/// Serves the nodes on their tapes in a folder at a listener: they are opened by [`open_folder`],
/// and it goes on as [`serve_nodes`]. The folder's path is for the log alone; events are written to
/// it.
///
/// Err: `Start` if the folder can't be locked or isn't this farm's, a tape doesn't open, or for the
/// causes of [`serve_nodes`]; the writer isn't called then. `Write` as there.
pub fn serve_folder<R: Clock + Eprint + AllocGlobal, S: Store, K: Sink>(
    rt: &R,
    log: &Log<'_, R>,
    listener: &TcpListener,
    store: &mut S,
    service: Service<'_>,
    folder: &str,
    sink: &mut K,
) -> Result<(), ServeFault>
    requires service { IsService service }
    requires outside { S.Tape.Tape.durable → ⊥ }
    ensures reported { IsPrinted service.entry.port (K.written sink.old)
        (K.written sink.new) result }
    ensures writes { CountsWrites result (K.failures sink.old) (K.failures sink.new) }
    ensures last { IsPortLineEnded K.Sink service.entry.port sink.old sink.new result }
    ensures served { OnOk result (Served S.Tape.Tape service.entry) }
    ensures started { OnOk result
        (IsFarmStarted service.entry.nodes (locked ∷ S.calls store.old) (S.calls store.new)) }
    ensures left { OnErr result
        (HasNotServed service.entry.nodes (S.calls store.old) (S.calls store.new)) }
{
    match open_folder(rt.alloc(), log, store, service.nodes, folder) {
        Ok(mut farm) => {
            let outcome = serve_nodes(rt, log, listener, service, &mut farm, sink);
            close(farm);
            outcome
        }
        Err(cause) => fault(log, cause, Some(folder)),
    }
}

/// Closes the nodes' tapes.
fn close<T: Tape + Drop>(farm: Farm<T>) {
    drop(farm);
}

/// Writes to the log why nodes don't start, and returns that they don't.
fn fault<R: Clock + Eprint>(
    log: &Log<'_, R>,
    cause: Cause,
    folder: Option<&str>,
) -> Result<(), ServeFault>
    ensures { result ≡ Err ServeFault.Start }
{
    log.write(&ServeEvent::Fault(StartFault { cause, folder }));
    Err(ServeFault::Start)
}

/// Writes the listener's port to the log.
fn write_port<R: Clock + Eprint>(log: &Log<'_, R>, listener: &TcpListener) {
    if let Ok(address) = listener.local_addr() {
        log.write(&ServeEvent::Port {
            port: address.port(),
        });
    }
}

/// Serves a farm that a caller holds at a listener: each node requests the definitions that it
/// missed, and the messages are delivered; the line `listening P` with the listener's port is
/// written; and then connections are served as by [`serve_connections`]. The service gives the
/// number of pictures cached for each node; its number of nodes is ignored. Events are written to
/// the log.
///
/// Err: `Start` if the listener's port isn't the service's, unless that is 0, or an allocation
/// fails; the writer isn't called then. `Write` if the line can't be written; a prefix of it may
/// be, and the failed write is the last call. In both cases no connection is served.
pub fn serve_nodes<R: Clock + Eprint + AllocGlobal, K: Sink, T: Tape>(
    rt: &R,
    log: &Log<'_, R>,
    listener: &TcpListener,
    service: Service<'_>,
    farm: &mut Farm<T>,
    sink: &mut K,
) -> Result<(), ServeFault>
    requires service { IsService service }
    requires running { AllRun farm.old.hosts }
    ensures reported { IsPrinted service.entry.port (K.written sink.old)
        (K.written sink.new) result }
    ensures writes { CountsWrites result (K.failures sink.old) (K.failures sink.new) }
    ensures last { IsPortLineEnded K.Sink service.entry.port sink.old sink.new result }
    ensures serving { IsServing T.Tape service.entry.requests
        (nodes_in farm.old) result (nodes_in farm.new) }
    ensures served { OnOk result (HaveServed T.Tape service.entry.requests service.entry.cache
        (nodes_in farm.old) (nodes_in farm.new)) }
    ensures headline { HaveGoneOn T.Tape (nodes_in farm.old) (nodes_in farm.new) }
{
    farm.nodes_agree();
    catch_up(rt.alloc(), farm);
    write_caught_up(log, farm);
    match prepare(rt, log, listener, service, farm, sink) {
        Ok(mut caches) => {
            serve_connections(
                rt,
                log,
                listener,
                farm,
                caches.as_mut_slice(),
                service.requests,
            );
            drop(caches);
            log.write(&ServeEvent::Ended {
                connections: service.requests,
            });
            agree_still(farm);
            Ok(())
        }
        Err(fault) => {
            agree_still(farm);
            Err(fault)
        }
    }
}

/// Makes the nodes' caches, all empty, and writes the line with the port.
fn prepare<R: Clock + Eprint + AllocGlobal, K: Sink, T: Tape>(
    rt: &R,
    log: &Log<'_, R>,
    listener: &TcpListener,
    service: Service<'_>,
    farm: &Farm<T>,
    sink: &mut K,
) -> Result<Vec<Cache>, ServeFault>
    requires { IsService service }
    ensures reports { PrintsPort K.Sink service.entry.port sink.old sink.new result }
    ensures cached { IfOk result (λ caches. AreCached (nodes_in farm.now) caches.items) }
    ensures room { IfOk result (λ caches. HaveRoom service.entry.cache caches.items) }
{
    let Ok(caches) = caches_for(rt.alloc(), farm, service.cache) else {
        log.write(&ServeEvent::Fault(StartFault {
            cause: Cause::Memory,
            folder: service.state,
        }));
        return Err(ServeFault::Start);
    };
    match print_port(rt.alloc(), listener, service.port, sink) {
        Ok(()) => Ok(caches),
        Err(fault) => {
            drop(caches);
            Err(fault)
        }
    }
}
