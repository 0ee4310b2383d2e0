//! Parses the command lines about processes of a farm.
ghost use Rattle.std.specs.Prelude.{◌≡◌, [], IfErr, IfNone, IfOk, IfSome, map};
ghost use Rattle.clap.specs.Simple.{subcommand_of, subcommand_rows_of};
ghost use Rattle.clap.specs.Values.{kind_of};
ghost use Rattle.wf_line.specs.CommandLine.{rows_in};
ghost use Rattle.wf_line.specs.ProcessCommandLine.{AsksProcess, IsClearOf, IsInitOf, IsNodeOf, IsReplicaOf, begins_with_process_command, is_process_command, names_process_command};
ghost use Rattle.wf_line.specs.Program.{program};
ghost use Rattle.wf_line.specs.Rejection.{IsLineRejection, IsWhyProcessRejected};
ghost use Rattle.wf_line.specs.ProcessLine.{IsProcessInRange};
ghost use Rattle.wf_line.specs.declared.process_line.ProcessCommand.{ProcessCommand};

use crate::node_arguments::{clear_line, init_line, node_line};
use crate::node_line::NodeCommand;
use crate::process_line::ProcessCommand;
use crate::program::{program, rejection};
use crate::replica_arguments::replica_line;
use clap::{ArgMatches, Error};
use std::alloc::Global;
use std::convert::AsStr;

// The `init` command of the parsed arguments.
fn init<'a>(found: &ArgMatches<'a>) -> Option<ProcessCommand<'a>>
    ensures some { IfSome result (IsInitOf (rows_in found.now)) }
    ensures none { IfNone result
        ((command : ProcessCommand) → ¬ (IsInitOf (rows_in found.now) command)) }
{
    let line = init_line(found)?;
    Some(ProcessCommand::Node(NodeCommand::Init(line)))
}

// The `node` command of the parsed arguments.
fn node<'a>(found: &ArgMatches<'a>) -> Option<ProcessCommand<'a>>
    ensures some { IfSome result (IsNodeOf (rows_in found.now)) }
    ensures none { IfNone result
        ((command : ProcessCommand) → ¬ (IsNodeOf (rows_in found.now) command)) }
{
    let line = node_line(found)?;
    Some(ProcessCommand::Node(NodeCommand::Node(line)))
}

// The `clear` command of the parsed arguments.
fn clear<'a>(found: &ArgMatches<'a>) -> Option<ProcessCommand<'a>>
    ensures some { IfSome result (IsClearOf (rows_in found.now)) }
    ensures none { IfNone result
        ((command : ProcessCommand) → ¬ (IsClearOf (rows_in found.now) command)) }
{
    let line = clear_line(found)?;
    Some(ProcessCommand::Node(NodeCommand::Clear(line)))
}

// The `replica` command of the parsed arguments.
fn replica<'a>(found: &ArgMatches<'a>) -> Option<ProcessCommand<'a>>
    ensures some { IfSome result (IsReplicaOf (rows_in found.now)) }
    ensures none { IfNone result
        ((command : ProcessCommand) → ¬ (IsReplicaOf (rows_in found.now) command)) }
{
    let line = replica_line(found)?;
    Some(ProcessCommand::Replica(line))
}

// The command that the parsed arguments ask for.
fn command_of<'a>(matches: &ArgMatches<'a>) -> Option<ProcessCommand<'a>>
    ensures some { IfSome result (AsksProcess (subcommand_rows_of matches.now)) }
    ensures none { IfNone result
        ((command : ProcessCommand) → ¬ (AsksProcess (subcommand_rows_of matches.now) command)) }
{
    match matches.subcommand() {
        Some(("init", found)) => init(found),
        Some(("node", found)) => node(found),
        Some(("clear", found)) => clear(found),
        Some(("replica", found)) => replica(found),
        _ => None,
    }
}

/// Whether these are arguments, without the program's name, of `init`, `node`, `clear` or
/// `replica`, or ask for the help of one: then [`process_command`] parses them, else
/// [`crate::arguments::line`].
pub fn names_process_command<S: AsStr>(words: &[S]) -> bool
    ensures { result ≡ names_process_command (map S.text words.now) }
{
    match words {
        [first, rest @ ..] => {
            if first.as_str() == "help" {
                begins_with_process_command(rest)
            } else {
                is_process_command(first.as_str())
            }
        }
        [] => false,
    }
}

// Whether the first of the words names one of these commands.
fn begins_with_process_command<S: AsStr>(words: &[S]) -> bool
    ensures { result ≡ begins_with_process_command (map S.text words.now) }
{
    match words {
        [first, ..] => is_process_command(first.as_str()),
        [] => false,
    }
}

// Whether the word names one of these commands.
fn is_process_command(word: &str) -> bool
    ensures { result ≡ is_process_command word.now }
{
    if word == "init" {
        true
    } else if word == "node" {
        true
    } else if word == "clear" {
        true
    } else {
        word == "replica"
    }
}

/// Parses the arguments of `init`, `node`, `clear` or `replica`, without the program's name. An
/// error's text is for the user.
#[tactic(auto, using(crate::proofs::ProcessNamed::command_in_range))]
pub fn process_command<'a, S: AsStr>(
    alloc: Global,
    words: &'a [S],
) -> Result<ProcessCommand<'a>, Error>
    ensures range { IfOk result IsProcessInRange }
    ensures asked { IfOk result
        (AsksProcess (subcommand_of program (map S.text words.entry.now))) }
    // Arguments that ask for a command are rejected only if an allocation fails.
    ensures rejected { IfErr result
        (λ error. IsWhyProcessRejected (map S.text words.entry.now) (kind_of error)) }
    // The error's kind is the parser's.
    ensures kind { IfErr result
        (λ error. IsLineRejection (map S.text words.entry.now) (kind_of error)) }
{
    let matches = program(alloc)?.try_get_matches_from(words)?;
    let asked = command_of(&matches);
    drop(matches);
    // The parser has checked that there is a command, but clap's contract doesn't cover a
    // subcommand's values.
    match asked {
        Some(command) => Ok(command),
        None => Err(rejection(alloc)?),
    }
}
