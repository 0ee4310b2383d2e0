//! The check of a mapfile on standard input.
ghost use Rattle.std.specs.Prelude.{◌≡◌, IfOk};
ghost use Rattle.std.specs.String.{string_bytes};
ghost use Rattle.wf_stream.specs.Effects.{TakesUpTo};
ghost use Rattle.wf_commands.specs.FailureCount.{CountsReads, CountsWrites, FailsLast};
ghost use Rattle.wf_commands.specs.Run.{IsChecked, IsCheckOf, IsFindingWritten, IsReportIn, fault_of, most_checked_bytes};

use crate::fault::RunFault;
use crate::run::{input, write};
use std::alloc::{AllocError, Global};
use wf_canon::CanonFault;
use wf_check::{CheckFault, Finding, MOST_COUNTED_BYTES, check, report, report_as_json};
use wf_line::Format;
use wf_mapfile::MapFault;
use wf_stream::{Sink, Source};

/// The most bytes read of an input that is checked: as many as are counted, plus one.
pub const MOST_CHECKED_BYTES: usize = MOST_COUNTED_BYTES + 1;

/// Reads a mapfile to its end, or [`MOST_CHECKED_BYTES`], and writes a report of its first error in
/// a format; nothing if a farm publishes its map. Err: also the error that the report is of.
#[tactic(auto, using(crate::proofs::Checked::check_known, crate::proofs::Checked::check_reads, crate::proofs::Checked::unread, crate::proofs::Checked::unread_writes, crate::proofs::Last::none_failed))]
pub fn run_check<S: Source, K: Sink>(
    alloc: Global,
    format: Format,
    source: &mut S,
    sink: &mut K,
) -> Result<(), RunFault>
    ensures outcome { IsChecked format (S.left source.old) (K.written sink.old) (K.written sink.new)
        result }
    ensures most { TakesUpTo most_checked_bytes (S.left source.old) (S.left source.new) }
    ensures reads { CountsReads result (S.failures source.old) (S.failures source.new) }
    ensures writes { CountsWrites result (K.failures sink.old) (K.failures sink.new) }
    ensures last { FailsLast K.Sink sink.old sink.new }
{
    match input(alloc, source, MOST_CHECKED_BYTES) {
        Ok(bytes) => {
            let outcome = write_check(alloc, format, &bytes, sink);
            drop(bytes);
            outcome
        }
        Err(fault) => Err(fault),
    }
}

// Writes a report of the first error of the bytes, if they have one.
#[tactic(auto, using(crate::proofs::Checked::fine_checked, crate::proofs::Checked::found_checked, crate::proofs::Checked::unchecked, crate::proofs::Last::none_failed))]
fn write_check<K: Sink>(
    alloc: Global,
    format: Format,
    bytes: &[u8],
    sink: &mut K,
) -> Result<(), RunFault>
    ensures checked { IsCheckOf format bytes.now (K.written sink.old) (K.written sink.new) result }
    ensures writes { CountsWrites result (K.failures sink.old) (K.failures sink.new) }
    ensures last { FailsLast K.Sink sink.old sink.new }
{
    match check(alloc, bytes) {
        Ok(None) => Ok(()),
        Ok(Some(finding)) => write_report(alloc, format, &finding, sink),
        Err(AllocError) => Err(RunFault::Map(MapFault::Memory)),
    }
}

// Writes the report of a finding, and returns its error.
#[tactic(auto, using(crate::proofs::Checked::written_whole, crate::proofs::Checked::written_in_part, crate::proofs::Checked::unwritten, crate::proofs::Checked::found_writes, crate::proofs::Last::none_failed))]
fn write_report<K: Sink>(
    alloc: Global,
    format: Format,
    finding: &Finding<'_>,
    sink: &mut K,
) -> Result<(), RunFault>
    ensures written { IsFindingWritten format finding.now (K.written sink.old) (K.written sink.new)
        result }
    ensures writes { CountsWrites result (K.failures sink.old) (K.failures sink.new) }
    ensures last { FailsLast K.Sink sink.old sink.new }
{
    match report_in(alloc, format, finding) {
        Ok(text) => {
            let written = write(sink, text.as_bytes());
            drop(text);
            match written {
                Ok(()) => Err(fault_of(finding.fault)),
                Err(fault) => Err(fault),
            }
        }
        Err(AllocError) => Err(RunFault::Map(MapFault::Memory)),
    }
}

// The report of a finding in a format.
#[tactic(auto, unfolding(crate::specs::Run::IsReportIn))]
fn report_in(alloc: Global, format: Format, finding: &Finding<'_>) -> Result<String, AllocError>
    ensures { IfOk result (λ text. IsReportIn format finding.now (string_bytes text)) }
{
    match format {
        Format::Text => report(alloc, finding),
        Format::Json => report_as_json(alloc, finding),
    }
}

// The error of the run for that of a finding.
fn fault_of(fault: CheckFault) -> RunFault
    ensures { result ≡ fault_of fault }
{
    match fault {
        CheckFault::Map(fault) => RunFault::Map(fault),
        CheckFault::TooBig => RunFault::Canon(CanonFault::TooBig),
    }
}
