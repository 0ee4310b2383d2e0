//! A server that tells what it is asked to serve, and the files that it has.
ghost use Rattle.std.specs.Prelude.{◌≡◌, ◌<◌, [], None, IfOk, IfSome, IsErrOf, length};
ghost use Rattle.wf_commands.specs.FailureCount.{FailsLast};
ghost use Rattle.wf_listing.specs.TapeBytes.{most_tape_bytes};
ghost use Rattle.wf_serve.specs.StartFault.{CountsWrites};
ghost use Rattle.wf_test_commands.specs.Files.{content_at, files_of, is_file};

use std::alloc::Global;
use wf_commands::{NodeServer, ServeFault, Tapes};
use wf_line::Service;
use wf_listing::TapeReadFault;
use wf_store::{FileName, MemoryFolder, MemoryStore, Store};
use wf_stream::{Sink, write_all};
use wf_test_table::{Answered, Unanswered};

/// The port that this server never gets.
const TAKEN_PORT: u16 = 1;

/// The path of the one file that can be read.
const TAPE_PATH: &str = "node-0.tape";

/// The path of the one folder.
const FOLDER_PATH: &str = "farm";

/// A file `farm` of three nodes.
const FILE_OF_THREE: &[u8] =
    b"wfarm folder 1\nkind serve\nbegan empty\nnodes 03\nmark 00000000000000000000000000000000\n";

/// Writes a line with the service in place of serving nodes. Port 1 is taken. The only file is
/// `node-0.tape`, and the only folder `farm`.
#[derive(Drop)]
pub(crate) struct Recorder<'a> {
    pub(crate) alloc: Global,
    pub(crate) tape: &'a [u8],
    pub(crate) folder: &'a MemoryFolder,
}

impl<'a, 'p> Tapes<'p> for Recorder<'a> {
    type Folder = MemoryStore<'a>;

    ghost content = { λ recorder. files_of recorder.tape.now };

    fn read(&self, alloc: Global, path: &str) -> Result<Vec<u8>, TapeReadFault>
        ensures whole { IfOk result
            (λ bytes. IfSome (content_at self.now.tape.now path.now) (λ known. bytes.items ≡ known)) }
        ensures failed { IsErrOf result TapeReadFault.Failed →
            IfSome (content_at self.now.tape.now path.now) (λ known. most_tape_bytes < length known) }
        ensures read { IsErrOf result TapeReadFault.NoMap → ⊥ }
    {
        if !is_file(path) {
            return Err(TapeReadFault::Failed);
        }
        match self.tape.to_vec(alloc) {
            Ok(bytes) => Ok(bytes),
            Err(_) => Err(TapeReadFault::Memory),
        }
    }

    fn folder(&self, path: &'p str) -> Option<MemoryStore<'a>>
        ensures file { IfSome (content_at self.now.tape.now path.now) (λ _. result ≡ None) }
        ensures new { IfSome result (λ folder. folder.calls ≡ []) }
    {
        if path == FOLDER_PATH && !is_file(path) {
            Some(MemoryStore::new(self.folder))
        } else {
            None
        }
    }
}

/// Whether the file is at a path.
#[tactic(auto, unfolding(crate::specs::Files::is_file))]
fn is_file(path: &str) -> bool
    ensures { result ≡ is_file path.now }
{
    path == TAPE_PATH
}

/// A folder with two tapes, each with these bytes; if they are none, that of a farm of three nodes.
pub(crate) fn folder_with(alloc: Global, tape: &[u8]) -> Result<MemoryFolder, Unanswered> {
    let folder = MemoryFolder::new(alloc, 2)?;
    let mut store = MemoryStore::new(&folder);
    let filled = fill(alloc, &mut store, tape);
    drop(store);
    match filled {
        Ok(()) => Ok(folder),
        Err(unanswered) => {
            drop(folder);
            Err(unanswered)
        }
    }
}

/// Puts the tapes into it, and the file `farm`.
fn fill(alloc: Global, store: &mut MemoryStore<'_>, tape: &[u8]) -> Answered {
    put(alloc, store, FileName::NodeTape(0), tape)?;
    put(alloc, store, FileName::NodeTape(1), tape)?;
    if tape.is_empty() {
        put(alloc, store, FileName::Farm, FILE_OF_THREE)
    } else {
        Ok(())
    }
}

/// Puts a file into it.
fn put(alloc: Global, store: &mut MemoryStore<'_>, file: FileName, bytes: &[u8]) -> Answered {
    let bytes = bytes.to_vec(alloc)?;
    match store.replace(file, bytes) {
        Ok(()) => Ok(()),
        Err(_) => Err(Unanswered::Memory),
    }
}

impl<'a> NodeServer for Recorder<'a> {
    ghost serves = { λ _ _ _ _ _. Unit {0} };

    #[tactic(auto, unfolding(wf_commands::specs::FailureCount::FailsLast))]
    fn serve<K: Sink>(&self, service: Service<'_>, sink: &mut K) -> Result<(), ServeFault> {
        if service.port == TAKEN_PORT {
            return Err(ServeFault::Start);
        }
        write_service(self.alloc, service, sink)
    }
}

// Writes `nodes N port P requests K cache C state DIR`, where DIR is in brackets if there is one.
#[tactic(auto, unfolding(wf_commands::specs::FailureCount::FailsLast))]
fn write_service<K: Sink>(
    alloc: Global,
    service: Service<'_>,
    sink: &mut K,
) -> Result<(), ServeFault>
    ensures writes { CountsWrites result (K.failures sink.old) (K.failures sink.new) }
    ensures last { FailsLast K.Sink sink.old sink.new }
{
    let (open, folder, close) = match service.state {
        Some(folder) => ("[", folder, "]"),
        None => ("", "none", ""),
    };
    let (nodes, port) = (service.nodes, service.port);
    let (requests, cache) = (service.requests, service.cache);
    let log = if service.log { " log" } else { "" };
    let Ok(line) = format!(in alloc;
        "nodes {nodes} port {port} requests {requests} cache {cache} state {open}{folder}{close}{log}\n"
    ) else {
        return Err(ServeFault::Start);
    };
    let written = write_all(sink, line.as_bytes());
    drop(line);
    match written {
        Ok(()) => Ok(()),
        Err(_) => Err(ServeFault::Write),
    }
}
