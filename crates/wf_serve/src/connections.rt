//! Connections accepted at a listener, each served by the node whose turn it is.
ghost use Rattle.std.specs.Prelude.{◌≡◌, ◌<◌, ◌%◌};
ghost use Rattle.wf_farm.specs.Farm.{size};
ghost use Rattle.wf_delivery.specs.Reachability.{AreReachableFrom};
ghost use Rattle.wf_farm.specs.Nodes.{AllRun, nodes_in};
ghost use Rattle.wf_serve.specs.Agreement.{HaveGoneOn};
ghost use Rattle.wf_serve.specs.CacheSet.{AreCached, KeepRoom};
ghost use Rattle.wf_serve.specs.Connections.{HaveCome, MayBeAnswered};

use crate::connection_effect::{agree_still, serve_connection};
use crate::parting::part;
use crate::timed_reader::TimedReader;
use crate::timed_writer::TimedWriter;
use crate::watch::Watch;
use std::net::TcpListener;
use std::time::{Clock, Duration};
use wf_farm::Farm;
use wf_tape::Tape;
use wf_visitors::Log;
use wf_wms::Cache;

/// The time limit for a client to send its request, and then to receive the response, in seconds.
const PEER_SECONDS: u64 = 10;

/// Serves `requests` connections accepted at a listener, one after the other: connection c, counted
/// from 0, is served by node c mod n, with its cache, as by [`serve_connection`]. A connection that
/// can't be accepted counts as one without a request, and changes nothing.
///
/// What becomes of requests to publish and of the nodes' tapes is written to the log.
///
/// A client has ten seconds to send its request: what it has sent by then is answered. Then it has
/// ten seconds to receive the response; then the connection is closed. What it sends after its
/// request is read and dropped, so that it can receive the response, for at most a second and a
/// megabyte.
pub fn serve_connections<R: Clock + Eprint + AllocGlobal, T: Tape>(
    rt: &R,
    log: &Log<'_, R>,
    listener: &TcpListener,
    farm: &mut Farm<T>,
    caches: &mut [Cache],
    requests: u32,
)
    requires running { AllRun farm.old.hosts }
    requires cached { AreCached (nodes_in farm.old) caches.old }
    ensures come { HaveCome T.Tape (size farm.old) requests
        (nodes_in farm.old) (nodes_in farm.new) }
    ensures headline { HaveGoneOn T.Tape (nodes_in farm.old) (nodes_in farm.new) }
    ensures running { AllRun farm.new.hosts }
    ensures cached { AreCached (nodes_in farm.new) caches.new }
    ensures room { KeepRoom caches.old caches.new }
{
    let count = farm.size();
    let mut watch = Watch::new(rt.alloc(), log, farm);
    for connection in 0..requests {
        serve_next(
            rt,
            &mut watch,
            listener,
            farm,
            caches,
            turn_of(connection, count),
        );
    }
    drop(watch);
    agree_still(farm);
}

/// The index of the node that serves a connection.
fn turn_of(connection: u32, count: usize) -> usize
    requires { 0 < count }
    ensures turn { result ≡ connection % count }
    ensures within { result < count }
{
    connection as usize % count
}

/// Serves the next connection by the node at an index, and closes it. If none can be accepted,
/// nothing happens.
fn serve_next<R: Clock + Eprint + AllocGlobal, T: Tape>(
    rt: &R,
    watch: &mut Watch<'_, '_, R>,
    listener: &TcpListener,
    farm: &mut Farm<T>,
    caches: &mut [Cache],
    node_index: usize,
)
    requires within { node_index < size farm.old }
    requires running { AllRun farm.old.hosts }
    requires cached { AreCached (nodes_in farm.old) caches.old }
    ensures answered { MayBeAnswered T.Tape node_index (nodes_in farm.old) (nodes_in farm.new) }
    ensures reachable { AreReachableFrom T.Tape (nodes_in farm.old) (nodes_in farm.new) }
    ensures running { AllRun farm.new.hosts }
    ensures cached { AreCached (nodes_in farm.new) caches.new }
    ensures room { KeepRoom caches.old caches.new }
{
    let Ok((stream, _)) = listener.accept() else {
        return;
    };
    let time = Duration::from_secs(PEER_SECONDS);
    let mut source = TimedReader::new(rt, &stream, time);
    let mut sink = TimedWriter::new(rt, &stream, time);
    let outcome = serve_connection(rt.alloc(), &mut source, &mut sink, farm, caches, node_index);
    watch.receive(node_index, outcome.request, source.first(), sink.first());
    watch.look(farm);
    part(rt, &stream, outcome.request);
    drop(stream);
}
