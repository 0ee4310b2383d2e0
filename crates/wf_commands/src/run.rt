//! The commands about standard input, over any reader and writer.
ghost use Rattle.std.specs.Prelude.{◌≡◌, ◌+◌, ◌≤◌, IfOk, IfErr, IfSome, OnOk, take};
ghost use Rattle.std.specs.Io.KnownBytes.{IsAtEnd};
ghost use Rattle.wf_def.specs.Limits.{IsWithinLimits};
ghost use Rattle.wf_mapfile.specs.Meaning.{Means, longest_mapfile};
ghost use Rattle.wf_spelling.specs.Canon.{canon, IsCauseOf};
ghost use Rattle.wf_wms.specs.Answer.{description};
ghost use Rattle.wf_ballot.specs.Sequence.{last_sequence};
ghost use Rattle.wf_line.specs.Line.{IsInRange, IsOfInput};
ghost use Rattle.wf_stream.specs.Effects.{TakesUpTo};
ghost use Rattle.wf_script.specs.Lines.{most_script_bytes};
ghost use Rattle.wf_commands.specs.Run.{most_checked_bytes, most_input_bytes, most_read, IsInputFault, IsMapFault, IsReadingFault, IsOutputWriting, IsWritingOf, IsDefinitionOutcome, IsOutcomeOf, IsCanonical, IsDescription, IsPreview, IsPlayed, OfInput};
ghost use Rattle.wf_commands.specs.FailureCount.{CountsReads, CountsWrites, FailsLast};

use crate::fault::RunFault;
use crate::map_check::{MOST_CHECKED_BYTES, run_check};
use std::alloc::Global;
use std::io::ErrorKind;
use wf_ballot::SEQUENCES;
use wf_canon::Canon;
use wf_def::MapDef;
use wf_farm::{Carrier, Copies};
use wf_line::Line;
use wf_mapfile::{MOST_MAPFILE_BYTES, MapFault};
use wf_play::PlayFault;
use wf_stream::{Sink, Source, read_up_to, write_all};
use wf_wms::{describe, preview};

/// The most bytes read of an input: the longest mapfile's length plus one.
pub const MOST_INPUT_BYTES: usize = MOST_MAPFILE_BYTES + 1;

/// The code's limits are those of the definitions. A theorem: the call does nothing.
pub fn limits_are_as_defined()
    ensures input { MOST_INPUT_BYTES ≡ most_input_bytes }
    ensures one_more { most_input_bytes ≡ longest_mapfile + 1 }
    ensures checked { MOST_CHECKED_BYTES ≡ most_checked_bytes }
    ensures sequence { SEQUENCES ≡ last_sequence }
{}

// Reads the input to its end, or its first `most` bytes.
pub(crate) fn input<S: Source>(
    alloc: Global,
    source: &mut S,
    most: usize,
) -> Result<Vec<u8>, RunFault>
    ensures first { IfOk result
        (λ bytes. IfSome (S.left source.old) (λ known. bytes.items ≡ take most known)) }
    ensures err { IfErr result IsInputFault }
    ensures most { TakesUpTo most (S.left source.old) (S.left source.new) }
    ensures reads { CountsReads result (S.failures source.old) (S.failures source.new) }
{
    match read_up_to(alloc, source, most) {
        Ok(bytes) => Ok(bytes),
        Err(error) if error.kind() == ErrorKind::OutOfMemory => Err(RunFault::Map(
            MapFault::Memory,
        )),
        Err(_) => Err(RunFault::Read),
    }
}

// The map that bytes mean.
fn map_of(alloc: Global, bytes: &[u8]) -> Result<MapDef, RunFault>
    ensures ok { IfOk result (λ map. Means bytes.now map × IsWithinLimits map) }
    ensures err { IfErr result (IsMapFault bytes.now) }
{
    match wf_mapfile::read(alloc, bytes) {
        Ok(map) => {
            let _ = map.name();
            Ok(map)
        }
        Err(fault) => Err(RunFault::Map(fault)),
    }
}

// The map that the input means.
fn map<S: Source>(alloc: Global, source: &mut S) -> Result<MapDef, RunFault>
    ensures ok { IfOk result
        (λ map. OfInput (λ text. Means text map) (S.left source.old) × IsWithinLimits map) }
    ensures err { IfErr result (IsReadingFault (S.left source.old)) }
    ensures most { TakesUpTo most_input_bytes (S.left source.old) (S.left source.new) }
    ensures reads { CountsReads result (S.failures source.old) (S.failures source.new) }
{
    let bytes = input(alloc, source, MOST_INPUT_BYTES)?;
    let map = map_of(alloc, &bytes);
    drop(bytes);
    match map {
        Ok(map) => Ok(map),
        Err(fault) => Err(fault),
    }
}

#[tactic(auto, using(crate::proofs::Last::none_failed, crate::proofs::Last::one_failed))]
pub(crate) fn write<K: Sink>(sink: &mut K, bytes: &[u8]) -> Result<(), RunFault>
    ensures written { IsOutputWriting bytes.now (λ _. ⊥) (K.written sink.old) (K.written sink.new)
        result }
    ensures writes { CountsWrites result (K.failures sink.old) (K.failures sink.new) }
    ensures last { FailsLast K.Sink sink.old sink.new }
{
    match write_all(sink, bytes) {
        Ok(()) => Ok(()),
        Err(_) => Err(RunFault::Write),
    }
}

// Writes the answer about a map.
#[tactic(auto, using(crate::proofs::Last::none_failed))]
fn write_answer<K: Sink>(
    alloc: Global,
    map: &MapDef,
    sink: &mut K,
    seq: u16,
    query: &[u8],
) -> Result<(), RunFault>
    requires { seq ≤ last_sequence }
    ensures written { IsOutputWriting (description seq map.now query.now).bytes (λ _. ⊥)
        (K.written sink.old) (K.written sink.new) result }
    ensures writes { CountsWrites result (K.failures sink.old) (K.failures sink.new) }
    ensures last { FailsLast K.Sink sink.old sink.new }
{
    match describe(alloc, seq, map, query) {
        Ok(answer) => write(sink, &answer.bytes),
        Err(_) => Err(RunFault::Map(MapFault::Memory)),
    }
}

// Writes the answer of a server that has published only this map.
#[tactic(auto, using(crate::proofs::Outcome::one_written, crate::proofs::Last::none_failed))]
fn write_preview<K: Sink>(
    alloc: Global,
    map: &MapDef,
    sink: &mut K,
    query: &[u8],
) -> Result<(), RunFault>
    ensures written { IsWritingOf (IsPreview query.now map.now) (K.written sink.old)
        (K.written sink.new) result }
    ensures writes { CountsWrites result (K.failures sink.old) (K.failures sink.new) }
    ensures last { FailsLast K.Sink sink.old sink.new }
{
    match preview(alloc, map, query) {
        Ok(drawn) => write(sink, &drawn.bytes),
        Err(_) => Err(RunFault::Map(MapFault::Memory)),
    }
}

// Writes the canonical text of a map.
#[tactic(auto, using(crate::proofs::Last::none_failed))]
fn write_canonical<K: Sink>(alloc: Global, map: &MapDef, sink: &mut K) -> Result<(), RunFault>
    ensures written { IsOutputWriting (canon map.now) (λ fault. IsCauseOf fault map.now)
        (K.written sink.old) (K.written sink.new) result }
    ensures writes { CountsWrites result (K.failures sink.old) (K.failures sink.new) }
    ensures last { FailsLast K.Sink sink.old sink.new }
{
    match Canon::of(alloc, map) {
        Ok(canon) => {
            let outcome = write(sink, canon.text());
            drop(canon);
            outcome
        }
        Err(fault) => Err(RunFault::Canon(fault)),
    }
}

/// Reads a mapfile to its end, or to the byte that makes it too long, and writes the answer to a
/// query about its map at update sequence `seq`.
#[tactic(auto, using(crate::proofs::Outcome::written_outcome, crate::proofs::Outcome::fault_outcome, crate::proofs::Outcome::no_more_reads, crate::proofs::Outcome::no_writes_yet, crate::proofs::Last::none_failed))]
pub fn run_caps<S: Source, K: Sink>(
    alloc: Global,
    source: &mut S,
    sink: &mut K,
    seq: u16,
    query: &[u8],
) -> Result<(), RunFault>
    requires { seq ≤ last_sequence }
    ensures outcome { IsDefinitionOutcome (IsDescription seq query.now) (λ _ _. ⊥)
        (S.left source.old) (K.written sink.old) (K.written sink.new) result }
    ensures most { TakesUpTo most_input_bytes (S.left source.old) (S.left source.new) }
    ensures reads { CountsReads result (S.failures source.old) (S.failures source.new) }
    ensures writes { CountsWrites result (K.failures sink.old) (K.failures sink.new) }
    ensures last { FailsLast K.Sink sink.old sink.new }
{
    match map(alloc, source) {
        Ok(map) => {
            let outcome = write_answer(alloc, &map, sink, seq, query);
            drop(map);
            outcome
        }
        Err(fault) => Err(fault),
    }
}

/// Reads a mapfile to its end, or to the byte that makes it too long, and writes the answer to a
/// query of a server that has published only its map, at update sequence 1: a preview.
#[tactic(auto, using(crate::proofs::Outcome::one_written_outcome, crate::proofs::Outcome::fault_outcome, crate::proofs::Outcome::no_more_reads_of_one, crate::proofs::Outcome::no_writes_yet, crate::proofs::Last::none_failed))]
pub fn run_draw<S: Source, K: Sink>(
    alloc: Global,
    source: &mut S,
    sink: &mut K,
    query: &[u8],
) -> Result<(), RunFault>
    ensures outcome { IsDefinitionOutcome (IsPreview query.now) (λ _ _. ⊥)
        (S.left source.old) (K.written sink.old) (K.written sink.new) result }
    ensures most { TakesUpTo most_input_bytes (S.left source.old) (S.left source.new) }
    ensures reads { CountsReads result (S.failures source.old) (S.failures source.new) }
    ensures writes { CountsWrites result (K.failures sink.old) (K.failures sink.new) }
    ensures last { FailsLast K.Sink sink.old sink.new }
{
    match map(alloc, source) {
        Ok(map) => {
            let outcome = write_preview(alloc, &map, sink, query);
            drop(map);
            outcome
        }
        Err(fault) => Err(fault),
    }
}

/// Reads a mapfile to its end, or to the byte that makes it too long, and writes its canonical
/// text.
#[tactic(auto, using(crate::proofs::Outcome::written_outcome, crate::proofs::Outcome::fault_outcome, crate::proofs::Outcome::no_more_reads, crate::proofs::Outcome::no_writes_yet, crate::proofs::Last::none_failed))]
pub fn run_canon<S: Source, K: Sink>(
    alloc: Global,
    source: &mut S,
    sink: &mut K,
) -> Result<(), RunFault>
    ensures outcome { IsDefinitionOutcome IsCanonical IsCauseOf
        (S.left source.old) (K.written sink.old) (K.written sink.new) result }
    ensures most { TakesUpTo most_input_bytes (S.left source.old) (S.left source.new) }
    ensures reads { CountsReads result (S.failures source.old) (S.failures source.new) }
    ensures writes { CountsWrites result (K.failures sink.old) (K.failures sink.new) }
    ensures last { FailsLast K.Sink sink.old sink.new }
{
    match map(alloc, source) {
        Ok(map) => {
            let outcome = write_canonical(alloc, &map, sink);
            drop(map);
            outcome
        }
        Err(fault) => Err(fault),
    }
}

/// Reads a script to its end, or to the byte that makes it too long, and plays it on a farm in
/// memory. The contracts of `wf_play` define what its orders do and write. No message is lost on
/// its way: each is copied to its node.
pub fn run_script<S: Source, K: Sink>(
    alloc: Global,
    source: &mut S,
    sink: &mut K,
) -> Result<(), RunFault>
    ensures outcome { IsPlayed ⊥ (S.left source.old) (K.written sink.old) (K.written sink.new)
        result }
    // After Ok the whole input is read.
    ensures end { OnOk result (IsAtEnd (S.left source.new)) }
    ensures most { TakesUpTo (most_script_bytes + 1) (S.left source.old) (S.left source.new) }
    ensures reads { CountsReads result (S.failures source.old) (S.failures source.new) }
    ensures writes { CountsWrites result (K.failures sink.old) (K.failures sink.new) }
    ensures last { FailsLast K.Sink sink.old sink.new }
{
    let mut copies = Copies;
    play_script(alloc, &mut copies, source, sink)
}

/// Plays a script whose messages the carrier brings to their nodes: what the script does and writes
/// is what [`run_script`] does and writes. Err: also `Wire` where the carrier failed, or brought
/// another message; then what the orders before write is written.
pub fn wire_script<S: Source, K: Sink, C: Carrier>(
    alloc: Global,
    carrier: &mut C,
    source: &mut S,
    sink: &mut K,
) -> Result<(), RunFault>
    ensures outcome { IsPlayed (Unit {0}) (S.left source.old) (K.written sink.old)
        (K.written sink.new) result }
    ensures end { OnOk result (IsAtEnd (S.left source.new)) }
    ensures most { TakesUpTo (most_script_bytes + 1) (S.left source.old) (S.left source.new) }
    ensures reads { CountsReads result (S.failures source.old) (S.failures source.new) }
    ensures writes { CountsWrites result (K.failures sink.old) (K.failures sink.new) }
    ensures last { FailsLast K.Sink sink.old sink.new }
{
    play_script(alloc, carrier, source, sink)
}

// Plays the script that the input is. Of a faithful carrier no message is lost.
#[tactic(auto, using(crate::proofs::Last::play_fails_last))]
fn play_script<S: Source, K: Sink, C: Carrier>(
    alloc: Global,
    carrier: &mut C,
    source: &mut S,
    sink: &mut K,
) -> Result<(), RunFault>
    ensures outcome { IsPlayed (Unit {0}) (S.left source.old) (K.written sink.old)
        (K.written sink.new) result }
    ensures faithful { C.faithful →
        IsPlayed ⊥ (S.left source.old) (K.written sink.old) (K.written sink.new) result }
    ensures end { OnOk result (IsAtEnd (S.left source.new)) }
    ensures most { TakesUpTo (most_script_bytes + 1) (S.left source.old) (S.left source.new) }
    ensures reads { CountsReads result (S.failures source.old) (S.failures source.new) }
    ensures writes { CountsWrites result (K.failures sink.old) (K.failures sink.new) }
    ensures last { FailsLast K.Sink sink.old sink.new }
{
    match wf_play::run_script(alloc, carrier, source, sink) {
        Ok(()) => Ok(()),
        Err(PlayFault::Script(fault)) => Err(RunFault::Script(fault)),
        Err(PlayFault::Read) => Err(RunFault::Read),
        Err(PlayFault::Write) => Err(RunFault::Write),
        Err(PlayFault::Wire) => Err(RunFault::Wire),
    }
}

/// Runs a command about standard input; the messages of `wire` come by the carrier.
/// [`crate::program::run_words`] runs any.
pub fn run_line<S: Source, K: Sink, C: Carrier>(
    alloc: Global,
    line: Line<'_>,
    source: &mut S,
    sink: &mut K,
    carrier: &mut C,
) -> Result<(), RunFault>
    requires range { IsInRange line }
    requires input { IsOfInput line }
    // For a mapfile: exactly the command's output for the definition that the input means is
    // written.
    ensures outcome { IsOutcomeOf line.entry (S.left source.old) (K.written sink.old)
        (K.written sink.new) result }
    ensures most { TakesUpTo (most_read line.entry) (S.left source.old) (S.left source.new) }
    ensures reads { CountsReads result (S.failures source.old) (S.failures source.new) }
    ensures writes { CountsWrites result (K.failures sink.old) (K.failures sink.new) }
    ensures last { FailsLast K.Sink sink.old sink.new }
{
    match line {
        Line::Caps { seq, query } => run_caps(alloc, source, sink, seq, query.as_bytes()),
        Line::Draw { query } => run_draw(alloc, source, sink, query.as_bytes()),
        Line::Canon => run_canon(alloc, source, sink),
        Line::Check { format } => run_check(alloc, format, source, sink),
        Line::Run => run_script(alloc, source, sink),
        Line::Wire => wire_script(alloc, carrier, source, sink),
        Line::Tape { .. } | Line::Serve(_) => unreachable!(),
    }
}
