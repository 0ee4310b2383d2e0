//! The arguments of the command `replica`.
ghost use Rattle.std.specs.Prelude.{IfNone, IfOk, IfSome};
ghost use Rattle.wf_line.specs.CommandLine.{IsOfShape, rows_in};
ghost use Rattle.wf_line.specs.ReplicaCommandLine.{IsReplicaLineOf, replica_shape, replica_shape_addresses, replica_shape_start, replica_shape_wanted};
ghost use Rattle.wf_line.specs.declared.replica_line.ReplicaLine.{ReplicaLine};

use crate::arguments::{cache_argument, is_set, log_argument, word_of};
use crate::node_arguments::{DEFAULT_CACHE, folder_command, number_or, option, readers_argument};
use crate::replica_line::ReplicaLine;
use clap::{ArgMatches, Command};
use std::alloc::{AllocError, Global};

const REPLICA_HELP: &str =
    "A replica asks the nodes at the addresses of --peers, one at a time, for what the farm publishes, keeps it on a tape of its
own in DIR, and answers GET /wms?QUERY as a node does. It has no vote: POST /publish is 404. GET /status reports its last sequence.
DIR must exist, and is empty at first. Other replicas may ask this one: it is at most four replicas away from a node.
A kept picture takes 3 MB. With --log a line on standard error tells each event: TIME LEVEL EVENT KEY=VALUE ..

Errors: status 2 for a bad command line, else 1, with a line that names the cause";

// `replica`, with its folder and the farm's name.
fn replica_start<'a>(alloc: Global) -> Result<Command<'a>, AllocError>
    ensures { IfOk result (IsOfShape replica_shape_start) }
{
    folder_command(
        alloc,
        "replica",
        "Serves what a farm publishes, without a vote",
        REPLICA_HELP,
        "The replica's folder",
    )?
    .arg(option(alloc, "farm", "NAME", true, "The farm's name"))
}

// `replica`, with all arguments that it wants.
fn replica_wanted<'a>(alloc: Global) -> Result<Command<'a>, AllocError>
    ensures { IfOk result (IsOfShape replica_shape_wanted) }
{
    replica_start(alloc)?
        .arg(option(
            alloc,
            "peers",
            "R0:P,R1:P,..",
            true,
            "The addresses of the readers' ports to ask",
        ))?
        .arg(option(alloc, "http", "ADDR:PORT", true, "Where clients come"))
}

// `replica`, with all its addresses.
fn replica_addresses<'a>(alloc: Global) -> Result<Command<'a>, AllocError>
    ensures { IfOk result (IsOfShape replica_shape_addresses) }
{
    replica_wanted(alloc)?
        .arg(readers_argument(alloc))?
        .arg(option(
            alloc,
            "admin",
            "ADDR:PORT",
            false,
            "Where the operator comes",
        ))
}

// `replica`.
pub(crate) fn replica_arguments<'a>(alloc: Global) -> Result<Command<'a>, AllocError>
    ensures { IfOk result (IsOfShape replica_shape) }
{
    replica_addresses(alloc)?
        .arg(cache_argument(alloc))?
        .arg(log_argument(alloc))
}

// The arguments parsed for `replica`.
pub(crate) fn replica_line<'a>(found: &ArgMatches<'a>) -> Option<ReplicaLine<'a>>
    ensures some { IfSome result (IsReplicaLineOf (rows_in found.now)) }
    ensures none { IfNone result
        ((line : ReplicaLine) → ¬ (IsReplicaLineOf (rows_in found.now) line)) }
{
    let state = word_of(found, "state")?;
    let farm = word_of(found, "farm")?;
    let peers = word_of(found, "peers")?;
    let http = word_of(found, "http")?;
    let cache = number_or(found, "cache", 64, DEFAULT_CACHE)?;
    Some(ReplicaLine {
        state,
        farm,
        peers,
        http,
        readers: word_of(found, "readers"),
        admin: word_of(found, "admin"),
        cache: cache as u8,
        log: is_set(found, "log"),
    })
}
