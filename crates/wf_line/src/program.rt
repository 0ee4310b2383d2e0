//! The program's command, of which the parser takes one of twelve commands.
ghost use Rattle.std.specs.Prelude.{◌≡◌, ◌∷◌, [], IfOk};
ghost use Rattle.clap.specs.Simple.{app_of};
ghost use Rattle.clap.specs.Values.{kind_of};
ghost use Rattle.wf_line.specs.CommandLine.{canon_shape, caps_shape, check_shape, draw_shape, run_shape, serve_shape, tape_shape, wire_shape};
ghost use Rattle.wf_line.specs.NodeCommandLine.{clear_shape, init_shape, node_shape};
ghost use Rattle.wf_line.specs.Program.{HasSubcommands, bare_program, named_program, program};

use crate::arguments::{
    canon_command, caps_command, check_command, draw_command, run_command, serve_command,
    tape_command, wire_command,
};
use crate::node_arguments::{clear_command, init_command, node_arguments};
use crate::replica_arguments::replica_arguments;
use clap::error::ErrorKind;
use clap::{Command, Error};
use std::alloc::{AllocError, Global};
use wf_version::BUILD;

static NO_WORDS: [&str; 0] = [];

// One function for each part, called one after another: only clap drops what is built.

// The program with its name and its version only.
fn named_program<'a>(alloc: Global) -> Command<'a>
    ensures { app_of result ≡ named_program }
{
    Command::new(alloc, "wfarm").version(BUILD)
}

// The program without commands.
fn bare_program<'a>(alloc: Global) -> Command<'a>
    ensures { app_of result ≡ bare_program }
{
    named_program(alloc)
        .about("Runs a farm of Web Map Service servers that publish one history of maps")
        .no_binary_name(true)
        .subcommand_required(true)
}

// The program with its first command only.
fn first_command<'a>(alloc: Global) -> Result<Command<'a>, AllocError>
    ensures { IfOk result (HasSubcommands (caps_shape ∷ [])) }
{
    let caps = caps_command(alloc)?;
    bare_program(alloc).subcommand(caps)
}

// The commands that answer a request about a mapfile.
fn drawing_commands<'a>(alloc: Global) -> Result<Command<'a>, AllocError>
    ensures { IfOk result (HasSubcommands (caps_shape ∷ draw_shape ∷ [])) }
{
    let draw = draw_command(alloc)?;
    first_command(alloc)?.subcommand(draw)
}

// The commands about a mapfile.
fn mapfile_commands<'a>(alloc: Global) -> Result<Command<'a>, AllocError>
    ensures { IfOk result (HasSubcommands
        (caps_shape ∷ draw_shape ∷ canon_shape ∷ check_shape ∷ [])) }
{
    let check = check_command(alloc)?;
    drawing_commands(alloc)?
        .subcommand(canon_command(alloc))?
        .subcommand(check)
}

// The commands about an input.
fn input_commands<'a>(alloc: Global) -> Result<Command<'a>, AllocError>
    ensures { IfOk result (HasSubcommands
        (caps_shape ∷ draw_shape ∷ canon_shape ∷ check_shape ∷ run_shape ∷ wire_shape ∷ [])) }
{
    mapfile_commands(alloc)?
        .subcommand(run_command(alloc))?
        .subcommand(wire_command(alloc))
}

// The commands about an input or a file.
fn reading_commands<'a>(alloc: Global) -> Result<Command<'a>, AllocError>
    ensures { IfOk result (HasSubcommands
        (caps_shape ∷ draw_shape ∷ canon_shape ∷ check_shape ∷ run_shape ∷ wire_shape ∷
        tape_shape ∷ [])) }
{
    let tape = tape_command(alloc)?;
    input_commands(alloc)?.subcommand(tape)
}

// Those, and the one that serves a farm in one process.
fn farm_commands<'a>(alloc: Global) -> Result<Command<'a>, AllocError>
    ensures { IfOk result (HasSubcommands
        (caps_shape ∷ draw_shape ∷ canon_shape ∷ check_shape ∷ run_shape ∷ wire_shape ∷
        tape_shape ∷ serve_shape ∷ [])) }
{
    let serve = serve_command(alloc)?;
    reading_commands(alloc)?.subcommand(serve)
}

// Those, and the one that makes the folder of a node.
fn first_process_command<'a>(alloc: Global) -> Result<Command<'a>, AllocError>
    ensures { IfOk result (HasSubcommands
        (caps_shape ∷ draw_shape ∷ canon_shape ∷ check_shape ∷ run_shape ∷ wire_shape ∷
        tape_shape ∷ serve_shape ∷ init_shape ∷ [])) }
{
    let init = init_command(alloc)?;
    farm_commands(alloc)?.subcommand(init)
}

// Those, and the one that serves a node.
fn serving_commands<'a>(alloc: Global) -> Result<Command<'a>, AllocError>
    ensures { IfOk result (HasSubcommands
        (caps_shape ∷ draw_shape ∷ canon_shape ∷ check_shape ∷ run_shape ∷ wire_shape ∷
        tape_shape ∷ serve_shape ∷ init_shape ∷ node_shape ∷ [])) }
{
    let node = node_arguments(alloc)?;
    first_process_command(alloc)?.subcommand(node)
}

// All commands but the last one.
fn node_commands<'a>(alloc: Global) -> Result<Command<'a>, AllocError>
    ensures { IfOk result (HasSubcommands
        (caps_shape ∷ draw_shape ∷ canon_shape ∷ check_shape ∷ run_shape ∷ wire_shape ∷
        tape_shape ∷ serve_shape ∷ init_shape ∷ node_shape ∷ clear_shape ∷ [])) }
{
    let clear = clear_command(alloc)?;
    serving_commands(alloc)?.subcommand(clear)
}

/// The program's command.
pub(crate) fn program<'a>(alloc: Global) -> Result<Command<'a>, AllocError>
    ensures { IfOk result (λ command. app_of command ≡ program) }
{
    let replica = replica_arguments(alloc)?;
    node_commands(alloc)?.subcommand(replica)?.bin_name("wfarm")
}

/// The error for a missing command or a value out of range, with the usage.
pub(crate) fn rejection(alloc: Global) -> Result<Error, AllocError>
    ensures { IfOk result (λ error. kind_of error ≡ ErrorKind.ValueValidation) }
{
    let mut command = program(alloc)?;
    let rejection = command.error(
        ErrorKind::ValueValidation,
        "a command is missing, or a value is out of range",
    );
    // Parsing no arguments drops the command. A drop here would need a proof for all of its parts
    // again.
    let _ = command.try_get_matches_from(NO_WORDS.as_slice());
    rejection
}
