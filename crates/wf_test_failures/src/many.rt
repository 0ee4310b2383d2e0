//! More than three connections.
ghost use Rattle.std.specs.Prelude.{◌≡◌, ◌≤◌, []};
ghost use Rattle.wf_delivery.specs.Reachability.{AreFresh};
ghost use Rattle.wf_farm.specs.Farm.{size};
ghost use Rattle.wf_farm.specs.Nodes.{AllRun, nodes_in};
ghost use Rattle.wf_service.specs.Service.{IsService};
ghost use Rattle.wf_wms.specs.CachedPictures.{most_cached, AllCached};

use crate::crowd::{Crowd, gather, receive};
use crate::machine::TestMachine;
use crate::tape::new_folder;
use crate::values::STATUS;
use std::alloc::Global;
use std::fs;
use std::fs::File;
use std::net::{Net, TcpListener, TcpStream};
use std::rt::Files;
use std::time::Clock;
use wf_farm::Farm;
use wf_serve::{Log, Service, serve, serve_connections};
use wf_stream::Output;
use wf_tape::MemoryTape;
use wf_test_table::{Answered, CaseInput, CaseWords, Transcript, Unanswered};
use wf_wms::Cache;

/// The folder of the nodes.
const FOLDER: &str = "forty";

/// The head of a response with the status.
const STATUS_HEAD: &[u8] =
    b"HTTP/1.1 200 OK\r\nContent-Type: text/plain\r\nContent-Length: 33\r\nConnection: close\r\n\r\n";

/// The head of a response with a tile, and its length with the tile.
const TILE: &[u8] =
    b"HTTP/1.1 200 OK\r\nContent-Type: image/x-portable-pixmap\r\nContent-Length: 196623\r\nConnection: close\r\n\r\nP6\n256 256\n255\n";

const TILE_BYTES: usize = 196_724;

/// The request to publish a map of one layer.
const MAP_OF_A_LAYER: &[u8] =
    b"POST /publish HTTP/1.1\r\nContent-Length: 83\r\n\r\nMAP EXTENT 0 0 16 16 PROJECTION \"init=epsg:3857\" END LAYER NAME a TYPE LINE END END";

/// Requests for a tile of it, on white and on black.
const ON_WHITE: &[u8] =
    b"GET /wms?VERSION=1.3.0&REQUEST=GetMap&LAYERS=a&STYLES=&CRS=EPSG:3857&BBOX=0,0,4,4&WIDTH=256&HEIGHT=256&FORMAT=image/x-portable-pixmap HTTP/1.1\r\n\r\n";

const ON_BLACK: &[u8] =
    b"GET /wms?VERSION=1.3.0&REQUEST=GetMap&LAYERS=a&STYLES=&CRS=EPSG:3857&BBOX=0,0,4,4&WIDTH=256&HEIGHT=256&BGCOLOR=0x000000&FORMAT=image/x-portable-pixmap HTTP/1.1\r\n\r\n";

/// This many nodes in the folder, for forty connections.
fn service(nodes: u8) -> Service<'static>
    requires some { 1 ≤ nodes }
    requires most { nodes ≤ 64 }
    ensures { IsService result }
{
    Service {
        nodes,
        port: 0,
        requests: 40,
        cache: 1,
        state: Some(FOLDER),
        log: false,
    }
}

/// Serves nodes at a listener. Appends how that ends.
fn write_served<
    R: Files<File = File>
        + Net<Listener = TcpListener, Stream = TcpStream>
        + Clock
        + Eprint
        + AllocGlobal,
>(rt: &R, listener: TcpListener, service: Service<'_>, answer: &mut Transcript)
    requires { IsService service }
{
    let machine = TestMachine::new(rt, rt.alloc(), listener, "", CaseWords::new(""));
    let mut sink = Output::new(rt.alloc(), 64);
    let is_served = serve(&machine, service, &mut sink).is_ok();
    drop(sink);
    drop(machine);
    answer.line(if is_served { "served" } else { "not served" });
}

/// Appends the status that a client gets; or all that it gets, and that it gets nothing.
fn write_status(alloc: Global, client: TcpStream, answer: &mut Transcript) -> Answered {
    let mut response = Transcript::new(alloc);
    let _ = receive(client, &mut response);
    let written = match response.finished_text() {
        Ok(bytes) => {
            answer.bytes(bytes.strip_prefix(STATUS_HEAD).unwrap_or(bytes));
            if bytes.is_empty() {
                answer.line("nothing");
            }
            Ok(())
        }
        Err(_) => Err(Unanswered::Memory),
    };
    drop(response);
    written
}

/// Serves so many nodes on tapes in the folder to forty-one clients. Appends what each gets.
fn serve_forty<
    R: Files<File = File>
        + Net<Listener = TcpListener, Stream = TcpStream>
        + Clock
        + Eprint
        + AllocGlobal,
>(rt: &R, nodes: u8, crowd: Crowd, answer: &mut Transcript) -> Answered
    requires some { 1 ≤ nodes }
    requires most { nodes ≤ 64 }
{
    let Crowd { listener, clients } = crowd;
    write_served(rt, listener, service(nodes), answer);
    let mut written = Ok(());
    for client in clients {
        if let Err(error) = write_status(rt.alloc(), client, answer) {
            written = Err(error);
        }
    }
    written
}

/// `forty`: the nodes answer forty connections in turn, and not one more; the last node has a tape.
pub(crate) fn forty<
    R: Files<File = File>
        + Net<Listener = TcpListener, Stream = TcpStream>
        + Clock
        + Eprint
        + AllocGlobal,
>(rt: &R, asked: CaseInput<'_>, answer: &mut Transcript) -> Answered {
    let (nodes, last_tape) = match asked.text()? {
        "4" => (4, "forty/node-3.tape"),
        "5" => (5, "forty/node-4.tape"),
        _ => return Err(Unanswered::BadWords),
    };
    new_folder(rt, FOLDER)?;
    let crowd = gather(rt, asked.alloc, STATUS, &[STATUS], 40)?;
    let written = serve_forty(rt, nodes, crowd, answer);
    answer.line(if fs::metadata(rt, last_tape).is_ok() {
        "the last node has a tape"
    } else {
        "the last node has no tape"
    });
    written
}

/// Whether a client gets a tile.
fn is_tile(alloc: Global, client: TcpStream) -> bool {
    let mut response = Transcript::new(alloc);
    let is_whole = receive(client, &mut response);
    let is_tile = match response.finished_text() {
        Ok(bytes) => bytes.starts_with(TILE) && bytes.len() == TILE_BYTES,
        Err(_) => false,
    };
    drop(response);
    is_whole && is_tile
}

/// How many pictures a cache drew to be kept, and how many tiles it cut out of those.
type Counts = (u64, u64);

/// The counts of the cache of the only node of a farm, once it has answered seventeen connections.
#[tactic(auto, using(crate::proofs::Alone::cached_alone))]
fn counts_after<R: Clock + Eprint + AllocGlobal>(
    rt: &R,
    listener: &TcpListener,
    farm: &mut Farm<MemoryTape>,
    cache: Cache,
) -> Counts
    requires alone { size farm.old ≡ 1 }
    requires running { AllRun farm.old.hosts }
    requires fresh { AreFresh (nodes_in farm.old) }
    requires cached { AllCached [] cache }
{
    let mut caches = [cache];
    serve_connections(rt, &Log::new(rt, false), listener, farm, &mut caches, 17);
    let counts = (caches[0].drawings(), caches[0].cached_tiles());
    drop(caches);
    counts
}

/// The counts of a new cache for this many pictures, likewise. None if an allocation fails.
fn counts_with<R: Clock + Eprint + AllocGlobal>(
    rt: &R,
    listener: &TcpListener,
    farm: &mut Farm<MemoryTape>,
    pictures: usize,
) -> Option<Counts>
    requires some { 1 ≤ pictures }
    requires most { pictures ≤ most_cached }
    requires alone { size farm.old ≡ 1 }
    requires running { AllRun farm.old.hosts }
    requires fresh { AreFresh (nodes_in farm.old) }
{
    match Cache::new(rt.alloc(), pictures) {
        Ok(cache) => Some(counts_after(rt, listener, farm, cache)),
        Err(_) => None,
    }
}

/// The counts of such a cache of the node of a new farm. None if an allocation fails.
fn counts_of<R: Clock + Eprint + AllocGlobal>(
    rt: &R,
    listener: TcpListener,
    pictures: usize,
) -> Option<Counts>
    requires some { 1 ≤ pictures }
    requires most { pictures ≤ most_cached }
{
    let counts = match Farm::new(rt.alloc(), 1) {
        Ok(mut farm) => {
            let counts = counts_with(rt, &listener, &mut farm, pictures);
            drop(farm);
            counts
        }
        Err(_) => None,
    };
    drop(listener);
    counts
}

/// One node with a cache for this many pictures answers the clients. Appends the counts then, and
/// how many clients get tiles.
fn write_counts<R: Clock + Eprint + AllocGlobal>(
    rt: &R,
    pictures: usize,
    crowd: Crowd,
    answer: &mut Transcript,
) -> Answered
    requires some { 1 ≤ pictures }
    requires most { pictures ≤ most_cached }
{
    let Crowd { listener, clients } = crowd;
    let counts = counts_of(rt, listener, pictures);
    let mut tiles = 0usize;
    for client in clients {
        tiles = tiles.saturating_add(is_tile(rt.alloc(), client) as usize);
    }
    let Some((drawn, cached)) = counts else {
        return Err(Unanswered::Memory);
    };
    answer.value(drawn);
    answer.text(" drawn, ");
    answer.value(cached);
    answer.text(" cut out, ");
    answer.count(tiles);
    answer.line(" tiles");
    Ok(())
}

/// `tiles`: a client publishes a map, and sixteen ask for a tile on white and on black in turn.
pub(crate) fn tiles<
    R: Net<Listener = TcpListener, Stream = TcpStream> + Clock + Eprint + AllocGlobal,
>(rt: &R, asked: CaseInput<'_>, answer: &mut Transcript) -> Answered {
    let requests = [ON_WHITE, ON_BLACK];
    match asked.text()? {
        "1" => {
            let crowd = gather(rt, asked.alloc, MAP_OF_A_LAYER, &requests, 8)?;
            write_counts(rt, 1, crowd, answer)
        }
        "2" => {
            let crowd = gather(rt, asked.alloc, MAP_OF_A_LAYER, &requests, 8)?;
            write_counts(rt, 2, crowd, answer)
        }
        _ => Err(Unanswered::BadWords),
    }
}
