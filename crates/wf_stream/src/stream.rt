//! Readers and writers that count their failures.
ghost use Rattle.std.specs.Prelude.{◌≡◌, ◌≢◌, ◌<◌, ◌≤◌, ◌++◌, ℕ, List, None, Option, IfErr, IfOk, IfSome, OnErr, OnOk, length, take};
ghost use Rattle.std.specs.Io.{ReadsAtMost, WritesAtMost};
ghost use Rattle.std.specs.Io.KnownBytes.{Appends, Consumes, IsAtEnd, Keeps, ReadConsumes, WriteAppends};
ghost use Rattle.std.specs.IoError.{error_kind};
ghost use Rattle.wf_stream.specs.Effects.{Counts, EndsByFailing, GivesUpTo, Interrupts, IsMemoryAlone, IsOneMore, IsReadError, ReadsPiece, Rises, TakesUpTo};

use std::alloc::Global;
use std::io;
use std::io::{ErrorKind, Read, Write};

/// A reader.
pub trait Source {
    /// The bytes still to be read, if known.
    ghost left: { Self → Option (List ℕ) } = { λ _. None };

    /// The most bytes that a call returns, if known.
    ghost piece: { Self → Option ℕ } = { λ _. None };

    /// The number of failed calls.
    ghost failures: { Self → ℕ };

    /// Reads some bytes to the front of a buffer and returns their number: 0 only at the end, or if
    /// the buffer is empty.
    fn read(&mut self, buf: &mut [u8]) -> io::Result<usize>
        ensures bound { ReadsAtMost result buf.new }
        ensures bytes { ReadConsumes (left self.old) (left self.new) result buf.new }
        ensures most { GivesUpTo (piece self.old) (piece self.new) result }
        ensures cause { Counts result (failures self.old) (failures self.new) };
}

/// A writer. It has no flush, since no contract could tell it from a no-op: a buffering writer is
/// flushed by its creator.
pub trait Sink {
    /// The bytes written, if known.
    ghost written: { Self → Option (List ℕ) } = { λ _. None };

    /// The number of failed calls.
    ghost failures: { Self → ℕ };

    /// The effect of one failed call, if known: of the writer before it and after it.
    ghost fails: { Self → Self → Type 0 } = { λ _ _. Unit {0} };

    /// Writes some bytes from the front of a buffer and returns their number: at least one, unless
    /// the buffer is empty.
    fn write(&mut self, buf: &[u8]) -> io::Result<usize>
        ensures bound { WritesAtMost result buf.now }
        ensures some { IfOk result (λ count. 0 < length buf.now → 0 < count) }
        ensures bytes { WriteAppends (written self.old) (written self.new) result buf.now }
        ensures cause { Counts result (failures self.old) (failures self.new) }
        ensures failed { OnErr result (fails self.old self.new) };

    /// Writes some bytes from the front of two buffers, one after the other, and returns their
    /// number: at least one, unless both are empty. A writer that can write both in one call of the
    /// system does so.
    #[tactic(auto, using(crate::specs::KnownTheorems::writes_first, crate::specs::KnownTheorems::writes_second, crate::specs::KnownTheorems::most_first, crate::specs::KnownTheorems::most_second))]
    fn write_pair(&mut self, one: &[u8], two: &[u8]) -> io::Result<usize>
        ensures bound { WritesAtMost result (one.now ++ two.now) }
        ensures some { IfOk result (λ count. 0 < length (one.now ++ two.now) → 0 < count) }
        ensures bytes { WriteAppends
            (written self.old) (written self.new) result (one.now ++ two.now) }
        ensures cause { Counts result (failures self.old) (failures self.new) }
        ensures failed { OnErr result (fails self.old self.new) }
    {
        if one.is_empty() {
            self.write(two)
        } else {
            self.write(one)
        }
    }
}

/// The most calls of one stream that signals may interrupt. It is above the 139,265 reads that the
/// other limits of a request allow.
const MOST_INTERRUPTIONS: u32 = 200_000;

/// Any reader or writer of std, with a count of its failed calls. A call that a signal interrupts
/// is made again. Once 200,000 calls of the stream were interrupted, each further one fails at
/// once, by `TimedOut`.
#[derive(Drop)]
pub struct Stream<S> {
    inner: S,
    interruptions: u32,
    failures: u64,
}

impl<S> Stream<S> {
    ghost use Rattle.wf_stream.specs.Stream.{inner_of, failures_of};

    /// A stream without failed calls.
    pub fn new(inner: S) -> Self
        ensures inner { inner_of result ≡ inner }
        ensures failures { failures_of result ≡ 0 }
    {
        Stream {
            inner,
            interruptions: 0,
            failures: 0,
        }
    }

    /// The reader or writer.
    pub fn inner(&self) -> &S
        ensures { result.now ≡ inner_of self.now }
    {
        &self.inner
    }
}

/// Reads once; repeats the read if a signal interrupted it, and after no other error. `TimedOut`
/// without a further read once the most calls were interrupted.
#[tactic(auto, using(crate::specs::KnownTheorems::keeps_same, crate::specs::KnownTheorems::keeps_twice, crate::specs::KnownTheorems::reads_after))]
fn read_again<R: Read>(reader: &mut R, interruptions: &mut u32, buf: &mut [u8]) -> io::Result<usize>
    ensures bound { ReadsAtMost result buf.new }
    ensures bytes { ReadConsumes (R.remaining reader.old) (R.remaining reader.new) result buf.new }
    ensures retried { IfErr result (λ error. error_kind error ≢ ErrorKind.Interrupted) }
    ensures counted { Interrupts interruptions.old interruptions.new }
{
    while *interruptions < MOST_INTERRUPTIONS {
        match reader.read(buf) {
            Err(error) if error.kind() == ErrorKind::Interrupted => *interruptions += 1,
            outcome => return outcome,
        }
    }
    Err(io::Error::from(ErrorKind::TimedOut))
}

impl<R: Read> Source for Stream<R> {
    ghost left = { λ stream. R.remaining stream.inner };

    ghost failures = { λ stream. stream.failures };

    fn read(&mut self, buf: &mut [u8]) -> io::Result<usize> {
        match read_again(&mut self.inner, &mut self.interruptions, buf) {
            Ok(count) => Ok(count),
            Err(error) => {
                self.failures = self.failures.saturating_add(1);
                Err(error)
            }
        }
    }
}

/// Writes once; repeats the write if a signal interrupted it. A writer that takes no byte has
/// failed. `TimedOut` without a further write once the most calls were interrupted.
#[tactic(auto, using(crate::specs::KnownTheorems::keeps_same, crate::specs::KnownTheorems::keeps_twice, crate::specs::KnownTheorems::writes_after))]
fn write_again<W: Write>(writer: &mut W, interruptions: &mut u32, buf: &[u8]) -> io::Result<usize>
    ensures bound { WritesAtMost result buf.now }
    ensures some { IfOk result (λ count. 0 < length buf.now → 0 < count) }
    ensures bytes { WriteAppends (W.contents writer.old) (W.contents writer.new) result buf.now }
    ensures retried { IfErr result (λ error. error_kind error ≢ ErrorKind.Interrupted) }
    ensures counted { Interrupts interruptions.old interruptions.new }
{
    while *interruptions < MOST_INTERRUPTIONS {
        match writer.write(buf) {
            Ok(0) if !buf.is_empty() => return Err(io::Error::from(ErrorKind::WriteZero)),
            Err(error) if error.kind() == ErrorKind::Interrupted => *interruptions += 1,
            outcome => return outcome,
        }
    }
    Err(io::Error::from(ErrorKind::TimedOut))
}

impl<W: Write> Sink for Stream<W> {
    ghost written = { λ stream. W.contents stream.inner };

    ghost failures = { λ stream. stream.failures };

    // one more failed call, and no byte written
    ghost fails = { λ before after. IsOneMore before.failures after.failures × Keeps (W.contents before.inner) (W.contents after.inner) };

    fn write(&mut self, buf: &[u8]) -> io::Result<usize> {
        match write_again(&mut self.inner, &mut self.interruptions, buf) {
            Ok(count) => Ok(count),
            Err(error) => {
                self.failures = self.failures.saturating_add(1);
                Err(error)
            }
        }
    }
}

/// The most bytes read at once.
const PIECE_BYTES: usize = 8_192;

/// The error of a failed read. A reader's own `OutOfMemory` isn't an allocation failure here, and
/// is replaced.
fn failed_read(error: io::Error) -> io::Error
    ensures { error_kind result ≢ ErrorKind.OutOfMemory }
{
    if error.kind() == ErrorKind::OutOfMemory {
        io::Error::from(ErrorKind::Other)
    } else {
        error
    }
}

/// Reads once, at most `room` bytes, appends them, and returns their number: 0 only at the end.
/// Err: the error of a failed read, or `OutOfMemory` if the buffer can't be grown.
pub fn read_piece<S: Source>(source: &mut S, bytes: &mut Vec<u8>, room: usize) -> io::Result<usize>
    requires { 0 < room }
    ensures read { IfOk result (λ count.
        ReadsPiece count (S.left source.old) (S.left source.new) bytes.old.items bytes.new.items) }
    ensures most { TakesUpTo room (S.left source.old) (S.left source.new) }
    ensures within { IfOk result (λ count. count ≤ room) }
    ensures end { IfOk result (λ count. count ≡ 0 → IsAtEnd (S.left source.new)) }
    ensures calm { OnOk result (S.failures source.new ≡ S.failures source.old) }
    ensures cause { IfErr result (IsReadError (S.failures source.old) (S.failures source.new)) }
    ensures memory { IfErr result (IsMemoryAlone (S.failures source.old) (S.failures source.new)) }
{
    let mut buf = [0u8; PIECE_BYTES];
    let room = room.min(PIECE_BYTES);
    let count = match source.read(&mut buf[..room]) {
        Ok(count) => count,
        Err(error) => return Err(failed_read(error)),
    };
    bytes.extend_from_slice(&buf[..count])?;
    Ok(count)
}

/// Reads to the end, or `limit` bytes, appends them, and returns their number: fewer than the limit
/// only at the end. Err: the error of a failed read, or `OutOfMemory` if the buffer can't be grown;
/// what was read before is appended.
#[tactic(auto, using(crate::specs::KnownTheorems::nothing_read, crate::specs::KnownTheorems::reads_more, crate::specs::KnownTheorems::takes_read))]
pub fn read_onto<S: Source>(source: &mut S, bytes: &mut Vec<u8>, limit: usize) -> io::Result<usize>
    ensures read { IfOk result (λ count.
        ReadsPiece count (S.left source.old) (S.left source.new) bytes.old.items bytes.new.items) }
    ensures within { IfOk result (λ count. count ≤ limit) }
    ensures most { TakesUpTo limit (S.left source.old) (S.left source.new) }
    ensures end { IfOk result (λ count. count < limit → IsAtEnd (S.left source.new)) }
    ensures calm { OnOk result (S.failures source.new ≡ S.failures source.old) }
    ensures cause { IfErr result (IsReadError (S.failures source.old) (S.failures source.new)) }
    ensures memory { IfErr result (IsMemoryAlone (S.failures source.old) (S.failures source.new)) }
{
    let mut count = 0;
    while count < limit {
        let room = limit - count;
        match read_piece(source, bytes, room) {
            Ok(0) => return Ok(count),
            Ok(more) => count += more,
            Err(error) => return Err(error),
        }
    }
    Ok(count)
}

/// Reads to the end, or `limit` bytes. Err: the error of a failed read, or `OutOfMemory` if the
/// buffer can't be grown.
#[tactic(auto, using(crate::specs::KnownTheorems::first_read, crate::specs::KnownTheorems::all_read))]
pub fn read_up_to<S: Source>(alloc: Global, source: &mut S, limit: usize) -> io::Result<Vec<u8>>
    // If the bytes are known, the result is their prefix.
    ensures first { IfOk result (λ bytes.
        IfSome (S.left source.old) (λ known. bytes.items ≡ take limit known)) }
    // The bytes are taken from the front; fewer than the limit only if these are all.
    ensures taken { IfOk result (λ bytes.
        Consumes (S.left source.old) (S.left source.new) bytes.items) }
    ensures end { IfOk result (λ bytes. length bytes.items < limit → IsAtEnd (S.left source.new)) }
    ensures most { TakesUpTo limit (S.left source.old) (S.left source.new) }
    ensures calm { OnOk result (S.failures source.new ≡ S.failures source.old) }
    ensures cause { IfErr result (IsReadError (S.failures source.old) (S.failures source.new)) }
    ensures memory { IfErr result (IsMemoryAlone (S.failures source.old) (S.failures source.new)) }
{
    let mut bytes = Vec::new(alloc);
    match read_onto(source, &mut bytes, limit) {
        Ok(_) => Ok(bytes),
        Err(error) => Err(error),
    }
}

/// Writes all the bytes. Err: the number of bytes written before a call failed.
pub fn write_all<S: Sink>(sink: &mut S, bytes: &[u8]) -> Result<(), usize>
    ensures whole { OnOk result (Appends (S.written sink.old) (S.written sink.new) bytes.now) }
    ensures part { IfErr result (λ count. (count ≤ length bytes.now) ×
        Appends (S.written sink.old) (S.written sink.new) (take count bytes.now)) }
    ensures calm { OnOk result (S.failures sink.new ≡ S.failures sink.old) }
    ensures cause { OnErr result (Rises (S.failures sink.old) (S.failures sink.new)) }
    // The first call that fails is the last one: nothing is written once more.
    ensures last { IfErr result (λ count.
        EndsByFailing S.written S.failures S.fails (take count bytes.now) sink.old sink.new) }
{
    let mut rest = bytes;
    while !rest.is_empty() {
        match sink.write(rest) {
            Ok(count) => rest = rest.split_at(count).1,
            Err(_) => return Err(bytes.len() - rest.len()),
        }
    }
    Ok(())
}
