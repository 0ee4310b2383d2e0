//! Where the tapes of a `tape` line are read from, and the command that lists them.
ghost use Rattle.std.specs.Prelude.{◌≡◌, ◌≤◌, ◌<◌, [], None, Some, IfErr, IfOk, IfSome, IsErrOf, length};
ghost use Rattle.wf_commands.specs.FailureCount.{CountsWrites, FailsLast};
ghost use Rattle.wf_commands.specs.Contents.{Contents, nothing_known};
ghost use Rattle.wf_commands.specs.Folder.{IsTapeDone, unread_fault};
ghost use Rattle.wf_commands.specs.Run.{IsListed, IsMapWritten};
ghost use Rattle.wf_listing.specs.TapeBytes.{most_tape_bytes};

use crate::fault::RunFault;
use crate::folder::run_folder;
use crate::server::Host;
use std::alloc::Global;
use std::fs::File;
use std::io::ErrorKind;
use std::rt::Files;
use wf_listing::{MOST_TAPE_BYTES, TapeReadFault, list, text_of_map};
use wf_serve::inspect;
use wf_store::{Store, SystemStore, is_folder, read_file};
use wf_stream::{Sink, write_all};

/// What has tapes: the machine, or in a test what stands for it. A path lives for `'p`.
pub trait Tapes<'p> {
    /// A folder.
    type Folder: Store + Drop;

    /// The files, as far as they are known.
    ghost content: { Self → Contents };

    /// Reads the file at a path to its end, and changes nothing. Returns `Failed` if it can't be
    /// read or is longer than the longest tape, `Memory` if an allocation fails.
    fn read(&self, alloc: Global, path: &str) -> Result<Vec<u8>, TapeReadFault>
        ensures whole { IfOk result
            (λ bytes. IfSome ((content self.now).file path.now) (λ known. bytes.items ≡ known)) }
        ensures failed { IsErrOf result TapeReadFault.Failed →
            IfSome ((content self.now).file path.now) (λ known. most_tape_bytes < length known) }
        ensures read { IsErrOf result TapeReadFault.NoMap → ⊥ };

    /// The folder at a path, before any call of it. None if there is none.
    fn folder(&self, path: &'p str) -> Option<Self::Folder>
        ensures file { IfSome ((content self.now).file path.now) (λ _. result ≡ None) }
        ensures new { IfSome result (λ folder. Self.Folder.calls folder ≡ []) };
}

/// Has the machine's files, whose content is in no contract.
impl<'a, 'p, R: Files<File = File> + AllocGlobal> Tapes<'p> for Host<'a, R> {
    type Folder = SystemStore<'a, 'p, R>;

    ghost content = { λ _. nothing_known };

    fn read(&self, _alloc: Global, path: &str) -> Result<Vec<u8>, TapeReadFault>
        ensures whole { IfOk result
            (λ bytes. IfSome (nothing_known.file path.now) (λ known. bytes.items ≡ known)) }
        ensures failed { IsErrOf result TapeReadFault.Failed →
            IfSome (nothing_known.file path.now) (λ known. most_tape_bytes < length known) }
        ensures read { IsErrOf result TapeReadFault.NoMap → ⊥ }
    {
        match read_file(self.0, path, MOST_TAPE_BYTES + 1) {
            Ok(bytes) => whole_tape(bytes),
            Err(error) => Err(unread(error.kind())),
        }
    }

    fn folder(&self, path: &'p str) -> Option<SystemStore<'a, 'p, R>>
        ensures file { IfSome (nothing_known.file path.now) (λ _. result ≡ None) }
        ensures new { IfSome result (λ folder. folder.calls ≡ []) }
    {
        if is_folder(self.0, path) {
            Some(SystemStore::new(self.0, path))
        } else {
            None
        }
    }
}

/// The bytes of a tape. Err: `Failed`, if there are more than the longest tape has.
pub(crate) fn whole_tape(bytes: Vec<u8>) -> Result<Vec<u8>, TapeReadFault>
    ensures whole { IfOk result
        (λ tape. (tape.items ≡ bytes.items) × (length tape.items ≤ most_tape_bytes)) }
    ensures long { IfErr result
        (λ fault. (fault ≡ TapeReadFault.Failed) × (most_tape_bytes < length bytes.items)) }
{
    if bytes.len() <= MOST_TAPE_BYTES {
        Ok(bytes)
    } else {
        drop(bytes);
        Err(TapeReadFault::Failed)
    }
}

/// Why a file isn't read, by the system's error.
fn unread(error: ErrorKind) -> TapeReadFault
    ensures { result ≡ unread_fault error }
{
    match error {
        ErrorKind::OutOfMemory => TapeReadFault::Memory,
        _ => TapeReadFault::Failed,
    }
}

/// Writes the listing of the tape in the file at a path, or of the tapes in the folder at it; or
/// the text of the map that the tape in the file has as published under a sequence. Nothing is
/// written if a file can't be read, an allocation fails or there is no such map.
pub fn run_tape<'p, K: Sink, V: Tapes<'p>>(
    alloc: Global,
    path: &'p str,
    map: Option<u16>,
    sink: &mut K,
    tapes: &V,
) -> Result<(), RunFault>
    ensures done { IsTapeDone (V.content tapes.now) path.now map (K.written sink.old)
        (K.written sink.new) result }
    ensures writes { CountsWrites result (K.failures sink.old) (K.failures sink.new) }
    ensures last { FailsLast K.Sink sink.old sink.new }
{
    match map {
        Some(sequence) => run_map(alloc, path, sequence, sink, tapes),
        None => run_listing(alloc, path, sink, tapes),
    }
}

/// Writes the listing of the tape in the file at a path, or of the tapes in the folder at it.
#[tactic(auto, using(crate::proofs::Listed::file_done, crate::proofs::Listed::no_content))]
fn run_listing<'p, K: Sink, V: Tapes<'p>>(
    alloc: Global,
    path: &'p str,
    sink: &mut K,
    tapes: &V,
) -> Result<(), RunFault>
    ensures done { IsTapeDone (V.content tapes.now) path.now None (K.written sink.old)
        (K.written sink.new) result }
    ensures writes { CountsWrites result (K.failures sink.old) (K.failures sink.new) }
    ensures last { FailsLast K.Sink sink.old sink.new }
{
    match tapes.folder(path) {
        Some(mut folder) => {
            let outcome = run_opened(alloc, path, &mut folder, sink, tapes);
            drop(folder);
            outcome
        }
        None => run_file(alloc, path, sink, tapes),
    }
}

/// Writes the listing of the tapes in the folder at a path, if it can be seen what is in it; else
/// that of the tape in the file there.
#[tactic(auto, using(crate::proofs::Listed::file_done))]
fn run_opened<'p, K: Sink, V: Tapes<'p>>(
    alloc: Global,
    path: &'p str,
    folder: &mut V::Folder,
    sink: &mut K,
    tapes: &V,
) -> Result<(), RunFault>
    requires no_file { (V.content tapes.now).file path.now ≡ None }
    requires new { V.Folder.calls folder.old ≡ [] }
    ensures done { IsTapeDone (V.content tapes.now) path.now None (K.written sink.old)
        (K.written sink.new) result }
    ensures writes { CountsWrites result (K.failures sink.old) (K.failures sink.new) }
    ensures last { FailsLast K.Sink sink.old sink.new }
{
    match inspect(folder) {
        Ok(survey) => run_folder(alloc, path, &survey, folder, sink),
        Err(_) => run_file(alloc, path, sink, tapes),
    }
}

/// Writes the listing of the tape in the file at a path.
#[tactic(auto, using(crate::proofs::Listed::known_listed, crate::proofs::Listed::unlisted, crate::proofs::Last::none_failed))]
fn run_file<'p, K: Sink, V: Tapes<'p>>(
    alloc: Global,
    path: &str,
    sink: &mut K,
    tapes: &V,
) -> Result<(), RunFault>
    ensures listed { IsListed ((V.content tapes.now).file path.now) (K.written sink.old)
        (K.written sink.new) result }
    ensures writes { CountsWrites result (K.failures sink.old) (K.failures sink.new) }
    ensures last { FailsLast K.Sink sink.old sink.new }
{
    match tapes.read(alloc, path) {
        Ok(bytes) => {
            let outcome = write_listing(alloc, &bytes, sink);
            drop(bytes);
            outcome
        }
        Err(fault) => Err(RunFault::Tape(fault)),
    }
}

// Writes the listing of a tape's bytes.
#[tactic(auto, using(crate::proofs::Listed::listed_whole, crate::proofs::Listed::listed_in_part, crate::proofs::Listed::unlisted_for_memory, crate::proofs::Last::none_failed, crate::proofs::Last::one_failed))]
fn write_listing<K: Sink>(alloc: Global, bytes: &[u8], sink: &mut K) -> Result<(), RunFault>
    ensures listed { IsListed (Some bytes.now) (K.written sink.old) (K.written sink.new) result }
    ensures writes { CountsWrites result (K.failures sink.old) (K.failures sink.new) }
    ensures last { FailsLast K.Sink sink.old sink.new }
{
    let Ok(text) = list(alloc, bytes) else {
        return Err(RunFault::Tape(TapeReadFault::Memory));
    };
    let written = write_all(sink, text.as_bytes());
    drop(text);
    match written {
        Ok(()) => Ok(()),
        Err(_) => Err(RunFault::Write),
    }
}

/// Writes the text of the map that the tape in the file at a path has as published under a
/// sequence.
#[tactic(auto, using(crate::proofs::Listed::known_written, crate::proofs::Listed::map_unread, crate::proofs::Last::none_failed))]
fn run_map<'p, K: Sink, V: Tapes<'p>>(
    alloc: Global,
    path: &str,
    sequence: u16,
    sink: &mut K,
    tapes: &V,
) -> Result<(), RunFault>
    ensures written { IsMapWritten ((V.content tapes.now).file path.now) sequence
        (K.written sink.old) (K.written sink.new) result }
    ensures writes { CountsWrites result (K.failures sink.old) (K.failures sink.new) }
    ensures last { FailsLast K.Sink sink.old sink.new }
{
    match tapes.read(alloc, path) {
        Ok(bytes) => {
            let outcome = write_map(alloc, &bytes, sequence, sink);
            drop(bytes);
            outcome
        }
        Err(fault) => Err(RunFault::Tape(fault)),
    }
}

// Writes the text of a map on a tape with these bytes.
#[tactic(auto, using(crate::proofs::Listed::map_whole, crate::proofs::Listed::map_in_part, crate::proofs::Listed::no_map, crate::proofs::Listed::map_unwritten_for_memory, crate::proofs::Last::none_failed, crate::proofs::Last::one_failed))]
fn write_map<K: Sink>(
    alloc: Global,
    bytes: &[u8],
    sequence: u16,
    sink: &mut K,
) -> Result<(), RunFault>
    ensures written { IsMapWritten (Some bytes.now) sequence (K.written sink.old)
        (K.written sink.new) result }
    ensures writes { CountsWrites result (K.failures sink.old) (K.failures sink.new) }
    ensures last { FailsLast K.Sink sink.old sink.new }
{
    let text = match text_of_map(alloc, bytes, sequence) {
        Ok(Some(text)) => text,
        Ok(None) => return Err(RunFault::Tape(TapeReadFault::NoMap)),
        Err(_) => return Err(RunFault::Tape(TapeReadFault::Memory)),
    };
    let written = write_all(sink, &text);
    drop(text);
    match written {
        Ok(()) => Ok(()),
        Err(_) => Err(RunFault::Write),
    }
}
