//! Reading and playing a script, over any reader and writer.

ghost use Rattle.std.specs.Prelude.{◌≡◌, ◌+◌, ◌<◌, IfErr, IfOk, IfSome, Ok, OnOk, length};
ghost use Rattle.std.specs.Io.KnownBytes.{IsAtEnd};
ghost use Rattle.wf_stream.specs.Effects.{TakesUpTo};
ghost use Rattle.wf_script.specs.Lines.{examined, most_script_bytes};
ghost use Rattle.wf_play.specs.PlayEnd.{IsPlayEnded, MayBeBegun, WritesBeginning};
ghost use Rattle.wf_play.specs.Fault.{CountsReads, CountsWrites, EndsWriting, IsPlayInputFault, IsPlayingFault, KeepsQuiet, LosesNone};
ghost use Rattle.wf_play.specs.ScriptRun.{HavePlayed, IsStepRejectionOf, IsScriptText, PlaysInput, ReadsWhole, WritesPlay};
ghost use Rattle.wf_script.specs.Text.{script_of};

use crate::fault::PlayFault;
use crate::session::Session;
use std::alloc::Global;
use std::io::ErrorKind;
use wf_farm::Carrier;
use wf_script::{MOST_SCRIPT_BYTES, Script, ScriptFault, a_beginning_is_examined_alike};
use wf_stream::{Sink, Source, read_up_to, write_all};

/// Reads a script to its end, or to the byte that makes it too long, and plays it on a new farm,
/// whose messages come by the carrier. The output of each order is written once the order is
/// performed. Where the script has an error, nothing is written. Where S1 comes at an order, it is
/// at that order's line, and exactly the output of the orders before it is written. Where the
/// carrier fails, or brings another message than it was given, the error is `Wire`, and exactly the
/// output of the orders before is written too; of a faithful carrier that never comes. Where a
/// write fails, exactly the output of the orders before and a beginning of the output of one order
/// is, and the failed write is the last call of the writer.
#[tactic(auto, using(crate::proofs::Faults::no_writes_yet, crate::proofs::Faults::none_lost_yet, crate::proofs::WholeInput::ends_whole, crate::proofs::WholeInput::no_script_ends))]
pub fn run_script<S: Source, K: Sink, C: Carrier>(
    alloc: Global,
    carrier: &mut C,
    source: &mut S,
    sink: &mut K,
) -> Result<(), PlayFault>
    ensures whole { ReadsWhole (S.left source.old) (S.left source.new) result }
    ensures plays { OnOk result
        (PlaysInput (S.left source.old) (K.written sink.old) (K.written sink.new)) }
    ensures quiet { IfErr result (KeepsQuiet (K.written sink.old) (K.written sink.new)) }
    ensures begun { IfErr result
        (WritesBeginning (S.left source.old) (K.written sink.old) (K.written sink.new)) }
    ensures faithful { C.faithful → IfErr result LosesNone }
    ensures most { TakesUpTo (most_script_bytes + 1) (S.left source.old) (S.left source.new) }
    ensures reads { CountsReads result (S.failures source.old) (S.failures source.new) }
    ensures writes { CountsWrites result (K.failures sink.old) (K.failures sink.new) }
    ensures last { IfErr result (EndsWriting K.Sink sink.old sink.new) }
{
    match script(alloc, source) {
        Ok(script) => {
            let played = play(alloc, carrier, &script, sink);
            drop(script);
            played
        }
        Err(fault) => Err(fault),
    }
}

/// The input to its end, or its first bytes.
fn input<S: Source>(alloc: Global, source: &mut S) -> Result<Vec<u8>, PlayFault>
    ensures first { IfOk result
        (λ bytes. IfSome (S.left source.old) (λ known. bytes.items ≡ examined known)) }
    ensures end { IfOk result
        (λ bytes. length bytes.items < most_script_bytes + 1 → IsAtEnd (S.left source.new)) }
    ensures err { IfErr result IsPlayInputFault }
    ensures most { TakesUpTo (most_script_bytes + 1) (S.left source.old) (S.left source.new) }
    ensures reads { CountsReads result (S.failures source.old) (S.failures source.new) }
{
    match read_up_to(alloc, source, MOST_SCRIPT_BYTES + 1) {
        Ok(bytes) => Ok(bytes),
        Err(error) if error.kind() == ErrorKind::OutOfMemory => {
            Err(PlayFault::Script(ScriptFault::Memory(1)))
        }
        Err(_) => Err(PlayFault::Read),
    }
}

/// The script that the input is.
#[tactic(auto, using(crate::proofs::WholeInput::no_input))]
fn script<S: Source>(alloc: Global, source: &mut S) -> Result<Script, PlayFault>
    ensures whole { OnOk result (IfSome (S.left source.old) IsScriptText) }
    ensures means { IfOk result
        (λ script. IfSome (S.left source.old) (λ text. script_of text ≡ Ok script)) }
    ensures end { OnOk result (IsAtEnd (S.left source.new)) }
    ensures err { IfErr result (IsStepRejectionOf (S.left source.old)) }
    ensures most { TakesUpTo (most_script_bytes + 1) (S.left source.old) (S.left source.new) }
    ensures reads { CountsReads result (S.failures source.old) (S.failures source.new) }
{
    a_beginning_is_examined_alike();
    let bytes = input(alloc, source)?;
    let script = Script::read(alloc, &bytes);
    drop(bytes);
    match script {
        Ok(script) => Ok(script),
        Err(fault) => Err(PlayFault::Script(fault)),
    }
}

/// Plays a script on a new farm.
fn play<K: Sink, C: Carrier>(
    alloc: Global,
    carrier: &mut C,
    script: &Script,
    sink: &mut K,
) -> Result<(), PlayFault>
    ensures plays { OnOk result (WritesPlay script.now (K.written sink.old) (K.written sink.new)) }
    ensures begun { IfErr result (MayBeBegun script.now (K.written sink.old) (K.written sink.new)) }
    ensures err { IfErr result IsPlayingFault }
    ensures faithful { C.faithful → IfErr result LosesNone }
    ensures writes { CountsWrites result (K.failures sink.old) (K.failures sink.new) }
    ensures last { IfErr result (EndsWriting K.Sink sink.old sink.new) }
{
    match Session::new(alloc, script) {
        Ok(mut session) => {
            let played = perform_all(alloc, carrier, &mut session, script.len(), sink);
            drop(session);
            played
        }
        Err(fault) => Err(PlayFault::Script(fault)),
    }
}

/// Performs the first orders, as many as `count` says, and writes the output of each.
#[tactic(auto, using(crate::proofs::Faults::order_fault_ends, crate::proofs::Faults::order_writes_none))]
fn perform_all<K: Sink, C: Carrier>(
    alloc: Global,
    carrier: &mut C,
    session: &mut Session<'_>,
    count: usize,
    sink: &mut K,
) -> Result<(), PlayFault>
    ensures plays { OnOk result
        (HavePlayed count session.old.script session.old.farm session.new.farm
        (K.written sink.old) (K.written sink.new)) }
    ensures ended { IfErr result
        (IsPlayEnded session.old.script session.old.farm (K.written sink.old) (K.written sink.new)) }
    ensures err { IfErr result IsPlayingFault }
    ensures faithful { C.faithful → IfErr result LosesNone }
    ensures writes { CountsWrites result (K.failures sink.old) (K.failures sink.new) }
    ensures last { IfErr result (EndsWriting K.Sink sink.old sink.new) }
{
    let mut out = String::new(alloc);
    for number in 0..count {
        if let Err(fault) = session.perform(alloc, carrier, number, &mut out) {
            return Err(fault);
        }
        match write_all(sink, out.as_bytes()) {
            Ok(()) => out.clear(),
            Err(_) => return Err(PlayFault::Write),
        }
    }
    Ok(())
}
