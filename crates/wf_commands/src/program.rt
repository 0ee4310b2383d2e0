//! The program: from the command line to the exit status.
ghost use Rattle.std.specs.Prelude.{◌≡◌, ◌≤◌, Bool, true, IfErr, IfOk, OnErr, map};
ghost use Rattle.std.specs.IoError.{error_kind};
ghost use Rattle.clap.specs.Values.{kind_of};
ghost use Rattle.std.specs.Process.{exit_status};
ghost use Rattle.wf_line.specs.Rejection.{IsLineRejection, IsWhyLineRejected};
ghost use Rattle.wf_line.specs.Line.{IsInRange};
ghost use Rattle.wf_commands.specs.FailureCount.{CountsWrites, FailsLast};
ghost use Rattle.wf_commands.specs.Contents.{nothing_known};
ghost use Rattle.wf_commands.specs.ProgramEnd.{is_found, is_written, left_to_report, run_status, reported, rejection_status, unreadable_status};
ghost use Rattle.wf_commands.specs.Program.{IsFarmProcess, IsProcess, IsRunOfWords};
ghost use Rattle.wf_line.specs.ProcessCommandLine.{names_process_command};
ghost use Rattle.wf_node_command.specs.Done.{command_status};
ghost use Rattle.wf_replica_command.specs.Done.{replica_status};
ghost use Rattle.wf_commands.specs.ServeRun.{IsLineServed, IsMachineServing, IsOfService, run_outcome};

use crate::fault::RunFault;
use crate::run::run_line;
use crate::server::{Host, NodeServer};
use crate::tapes::{Tapes, run_tape};
use clap::Error;
use clap::error::ErrorKind;
use std::alloc::Global;
use std::convert::AsStr;
use std::fs::File;
use std::net::{Net, TcpListener, TcpStream};
use std::process::ExitCode;
use std::rt::{Env, Files};
use std::time::Clock;
use std::{env, io};
use wf_farm::Carrier;
use wf_line::{Line, NodeCommand, ProcessCommand, line, names_process_command, process_command};
use wf_link::Connection;
use wf_mapfile::MapFault;
use wf_node_command::CommandFault;
use wf_replica_command::ReplicaFault;
use wf_serve::ServeFault;
use wf_store::SystemStore;
use wf_stream::{Sink, Source, Stream};
use wf_tape::{FileTape, MemoryTape, Tape};

/// How a run ended, after all of its output.
#[derive(Clone, Copy)]
pub struct Ending {
    /// The error whose text is the one line on standard error. None after a success, after a failed
    /// write, and after a report of `check`.
    pub reported: Option<RunFault>,
    /// The exit status: 0 for success, 1 for an error, also for a failed write.
    pub status: u8,
}

/// The exit status of an error, also of a failed write.
const FAULT: u8 = 1;

/// The exit status of a bad command line.
const BAD_COMMAND_LINE: u8 = 2;

// The result of a run of `serve`, by the server's.
fn serve_result(outcome: Result<(), ServeFault>) -> Result<(), RunFault>
    ensures { result ≡ run_outcome outcome }
{
    match outcome {
        Ok(()) => Ok(()),
        Err(ServeFault::Start) => Err(RunFault::Serve),
        Err(ServeFault::Write) => Err(RunFault::Write),
    }
}

/// Runs a `serve` line: the server serves the nodes of its service, and writes the line with their
/// port. [`run_words`] runs any line.
#[tactic(auto, using(crate::proofs::Ended::line_served, crate::proofs::Ended::outcome_counts))]
pub fn run_serve<K: Sink, V: NodeServer>(
    server: &V,
    line: Line<'_>,
    sink: &mut K,
) -> Result<(), RunFault>
    requires range { IsInRange line }
    requires service { IsOfService line }
    ensures served { IsLineServed (V.serves server.now) line.entry (K.written sink.old)
        (K.written sink.new) result }
    ensures writes { CountsWrites result (K.failures sink.old) (K.failures sink.new) }
    ensures last { FailsLast K.Sink sink.old sink.new }
{
    match line {
        Line::Serve(service) => serve_result(server.serve(service, sink)),
        _ => unreachable!(),
    }
}

// How a run with this result ends: the text of a failed write isn't printed, since what failed may
// be the terminal.
fn ending_of(outcome: Result<(), RunFault>) -> Ending
    ensures reported_as { result.reported ≡ reported outcome }
    ensures status { result.status ≡ run_status outcome }
    ensures low { result.status ≤ 1 }
{
    match outcome {
        Ok(()) => Ending {
            reported: None,
            status: 0,
        },
        Err(RunFault::Write) => Ending {
            reported: None,
            status: FAULT,
        },
        Err(fault) => Ending {
            reported: Some(fault),
            status: FAULT,
        },
    }
}

// Whether a check ends with this error after a report of it.
fn is_found(fault: RunFault) -> bool
    ensures { result ≡ is_found fault }
{
    match fault {
        RunFault::Map(MapFault::Memory) => false,
        RunFault::Map(_) | RunFault::Canon(_) => true,
        _ => false,
    }
}

// Whether the command of a line has written a report of the error.
fn is_written(line: Line<'_>, fault: RunFault) -> bool
    ensures { result ≡ is_written line.entry fault }
{
    match line {
        Line::Check { format: _ } => is_found(fault),
        _ => false,
    }
}

// The ending without an error that the command has written a report of.
fn report_once(line: Line<'_>, ending: Ending) -> Ending
    ensures reported_as { result.reported ≡ left_to_report line.entry ending.reported }
    ensures status { result.status ≡ ending.status }
{
    match ending.reported {
        Some(fault) if is_written(line, fault) => Ending {
            reported: None,
            status: ending.status,
        },
        _ => ending,
    }
}

// How a run of a line with this result ends.
fn end(line: Line<'_>, outcome: Result<(), RunFault>) -> Ending
    ensures reported_as { result.reported ≡ left_to_report line.entry (reported outcome) }
    ensures status { result.status ≡ run_status outcome }
    ensures low { result.status ≤ 1 }
{
    report_once(line, ending_of(outcome))
}

/// Runs the words of a command line, without the program's name: the command of the line that they
/// ask for. A command about standard input goes between the reader and the writer, with the
/// messages of `wire` by the carrier; `tape` reads the files that the server has, and `serve` is
/// the server's, whose line goes to the writer. Returns the error whose text is the line on
/// standard error, and the exit status.
///
/// Err: no command was run, and nothing was read or written. The error's text is for the user: it
/// is help or the version, if the words ask for these.
#[tactic(auto, using(crate::proofs::Last::none_failed, crate::proofs::Ended::run_ended, crate::proofs::Ended::listing_ended))]
pub fn run_words<'a, S: AsStr, I: Source, K: Sink, V: NodeServer + Tapes<'a>, C: Carrier>(
    alloc: Global,
    words: &'a [S],
    source: &mut I,
    sink: &mut K,
    server: &V,
    carrier: &mut C,
) -> Result<Ending, Error>
    ensures run { IfOk result (IsRunOfWords (V.serves server.now) (V.content server.now)
        (map S.text words.entry.now)
        (I.left source.old) (I.left source.new) (K.written sink.old) (K.written sink.new)
        (I.failures source.old) (I.failures source.new)
        (K.failures sink.old) (K.failures sink.new)) }
    ensures last { FailsLast K.Sink sink.old sink.new }
    ensures low { IfOk result (λ ending. ending.status ≤ 1) }
    // Words that ask for a line are rejected only if an allocation fails.
    ensures rejected { IfErr result
        (λ error. IsWhyLineRejected (map S.text words.entry.now) (kind_of error)) }
    // The error's kind is the parser's; by it the program's exit status is known.
    ensures kind { IfErr result
        (λ error. IsLineRejection (map S.text words.entry.now) (kind_of error)) }
    ensures unread { OnErr result (source.new ≡ source.old) }
    ensures unwritten { OnErr result (sink.new ≡ sink.old) }
    ensures unused { OnErr result (carrier.new ≡ carrier.old) }
{
    match line(alloc, words) {
        Ok(line) => match line {
            Line::Serve(_) => Ok(end(line, run_serve(server, line, sink))),
            Line::Tape { file, map } => Ok(end(line, run_tape(alloc, file, map, sink, server))),
            Line::Caps { .. }
            | Line::Draw { .. }
            | Line::Canon
            | Line::Check { format: _ }
            | Line::Run
            | Line::Wire => Ok(end(line, run_line(alloc, line, source, sink, carrier))),
        },
        Err(error) => Err(error),
    }
}

// Prints the line of a run's error, if there is one, and returns the exit status.
fn report<R: Eprint>(rt: &R, ending: Ending) -> ExitCode
    ensures { exit_status result ≡ ending.status }
{
    if let Some(fault) = ending.reported {
        let _ = eprintln!(rt; "{fault}");
    }
    ExitCode::from(ending.status)
}

// The exit status if the command line can't be read: arguments that aren't UTF-8 are a bad command
// line.
fn unreadable<R: Eprint>(rt: &R, error: &io::Error) -> ExitCode
    ensures { exit_status result ≡ unreadable_status (error_kind error.now) }
{
    if error.kind() != io::ErrorKind::InvalidData {
        return report(rt, ending_of(Err(RunFault::Map(MapFault::Memory))));
    }
    let _ = eprintln!(rt; "error: invalid UTF-8 was detected in one or more arguments");
    ExitCode::from(BAD_COMMAND_LINE)
}

/// The exit status if no command was run, by the kind of error and whether its text was printed: 0
/// for help and the version, 1 for an allocation failure, or if the text couldn't be printed, 2 for
/// a bad command line.
pub fn rejection_status(kind: ErrorKind, printed: bool) -> u8
    ensures { result ≡ rejection_status kind printed }
{
    match kind {
        ErrorKind::OutOfMemory => FAULT,
        ErrorKind::DisplayHelp | ErrorKind::DisplayVersion => { if printed { 0 } else { FAULT } }
        _ => BAD_COMMAND_LINE,
    }
}

// Prints clap's text for a rejected command line, or help or the version, and returns the exit
// status.
fn rejection<R: Print + Eprint>(rt: &R, error: &clap::Error) -> ExitCode
    ensures { (printed : Bool) ×
        (exit_status result ≡ rejection_status (kind_of error.now) printed) }
{
    if error.kind() == ErrorKind::OutOfMemory {
        return report(rt, ending_of(Err(RunFault::Map(MapFault::Memory))));
    }
    let printed = error.print(rt).is_ok();
    ExitCode::from(rejection_status(error.kind(), printed))
}

// The arguments of the command line, without the program's name.
fn words<R: Env + AllocGlobal>(rt: &R) -> io::Result<Vec<String>> {
    Ok(env::args(rt)?.skip(1).collect(rt.alloc())?)
}

// Prints the line of an error of a command about a node, if there is one, and returns the exit
// status.
fn report_node<R: Eprint>(rt: &R, outcome: Result<(), CommandFault>) -> ExitCode
    ensures status { exit_status result ≡ command_status outcome }
    ensures low { exit_status result ≤ 2 }
{
    match outcome {
        Ok(()) => ExitCode::from(0),
        Err(fault) => {
            let _ = eprintln!(rt; "{fault}");
            ExitCode::from(fault.status())
        }
    }
}

// Prints the line of an error of a replica, if there is one, and returns the exit status.
fn report_replica<R: Eprint>(rt: &R, outcome: Result<(), ReplicaFault>) -> ExitCode
    ensures status { exit_status result ≡ replica_status outcome }
    ensures low { exit_status result ≤ 2 }
{
    match outcome {
        Ok(()) => ExitCode::from(0),
        Err(why) => {
            let _ = eprintln!(rt; "{why}");
            ExitCode::from(why.status())
        }
    }
}

// The folder of a command about a node.
fn folder_of<'a>(command: &NodeCommand<'a>) -> &'a str {
    match command {
        NodeCommand::Init(line) => line.state,
        NodeCommand::Node(line) => line.state,
        NodeCommand::Clear(line) => line.state,
    }
}

// Runs a command line about a process of a farm, which serves as long as the process lives.
#[tactic(auto, using(crate::proofs::Ended::node_run, crate::proofs::Ended::replica_run, crate::proofs::Ended::farm_rejected))]
fn run_farm<'a, S: AsStr, R: Files<File = File> + Clock + Print + Eprint + Net + AllocGlobal>(
    rt: &'a R,
    words: &[S],
) -> ExitCode
    requires { names_process_command (map S.text words.now) ≡ true }
    ensures low { exit_status result ≤ 2 }
    ensures ended { IsFarmProcess ⟦<FileTape<&'a R> as Tape>⟧ (exit_status result) }
{
    match process_command(rt.alloc(), words) {
        Ok(ProcessCommand::Node(command)) => {
            let store = SystemStore::new(rt, folder_of(&command));
            let (ended, store) = wf_node_command::run(rt, store, &command, u64::MAX);
            drop(store);
            report_node(rt, ended)
        }
        Ok(ProcessCommand::Replica(line)) => {
            let mut store = SystemStore::new(rt, line.state);
            let ended = wf_replica_command::run(rt, &mut store, &line, u64::MAX);
            drop(store);
            report_replica(rt, ended)
        }
        Err(error) => {
            let code = rejection(rt, &error);
            drop(error);
            code
        }
    }
}

/// Runs the command line, as by [`run_words`] with the words of the process, its standard input and
/// output, the machine as server, and a connection of the machine to itself as carrier; or a
/// command about a process of a farm, as by [`wf_node_command::run`] or [`wf_replica_command::run`]
/// with as many turns as there can be. Returns the exit status: 0 for success; 1 for an error, with
/// one line on standard error, except for a failed write; 2 for a bad command line, with a line or
/// the parser's text there.
#[tactic(auto, using(crate::proofs::Ended::process_run, crate::proofs::Ended::process_rejected, crate::proofs::Ended::process_unreadable, crate::proofs::Ended::process_of_farm))]
pub fn run_process<
    'a,
    R: Env
        + Input
        + Print
        + Eprint
        + Files<File = File>
        + Clock
        + Net<Listener = TcpListener, Stream = TcpStream>
        + AllocGlobal,
>(rt: &'a R) -> ExitCode
    ensures low { exit_status result ≤ 2 }
    // What the process did: of `serve` what was served, by nodes on tapes in memory or in files; of
    // `node` how its node lived; of `replica` what it heard, and whom it answered what.
    ensures ended { IsProcess (λ service old new outcome. IsMachineServing ⟦<MemoryTape as Tape>⟧
        ⟦<FileTape<&'a R> as Tape>⟧ service old new outcome) nothing_known
        ⟦<FileTape<&'a R> as Tape>⟧ (exit_status result) }
{
    let words = match words(rt) {
        Ok(words) => words,
        Err(error) => {
            let code = unreadable(rt, &error);
            drop(error);
            return code;
        }
    };
    if names_process_command(&words) {
        let code = run_farm(rt, &words);
        drop(words);
        return code;
    }
    let outcome = run_words(
        rt.alloc(),
        &words,
        &mut Stream::new(rt.reader()),
        &mut Stream::new(io::writer(rt)),
        &Host(rt),
        &mut Connection::new(rt),
    );
    drop(words);
    match outcome {
        Ok(ending) => report(rt, ending),
        Err(error) => {
            let code = rejection(rt, &error);
            drop(error);
            code
        }
    }
}
