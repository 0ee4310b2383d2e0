//! The arguments of the commands `init`, `node` and `clear`.
ghost use Rattle.std.specs.Prelude.{◌≡◌, ℕ, IfNone, IfOk, IfSome, codes, false, option_map};
ghost use Rattle.clap.specs.Walk.{rule_of};
ghost use Rattle.wf_line.specs.CommandLine.{IsOfShape, rows_in};
ghost use Rattle.wf_line.specs.NodeCommandLine.{IsClearLineOf, IsInitLineOf, IsNodeLineOf, IsNumberBy, IsNumberOr, clear_shape, clients_rule, flag_rule, folder_shape, id_rule, init_shape, init_shape_start, init_shape_wanted, long_rule, node_shape, node_shape_addresses, node_shape_numbers, node_shape_ports, node_shape_start, nodes_rule, text_rule};
ghost use Rattle.wf_line.specs.declared.node_line.ClearLine.{ClearLine};
ghost use Rattle.wf_line.specs.declared.node_line.InitLine.{InitLine};
ghost use Rattle.wf_line.specs.declared.node_line.NodeLine.{NodeLine};

use crate::arguments::{
    bare_command, cache_argument, is_set, log_argument, number, number_argument, number_of, word_of,
};
use crate::node_line::{ClearLine, InitLine, NodeLine};
use clap::{Arg, ArgAction, ArgMatches, Command};
use std::alloc::{AllocError, Global};

/// The number of pictures that a process keeps by default.
pub(crate) const DEFAULT_CACHE: u32 = 16;

/// The number of clients at once by default.
const DEFAULT_CLIENTS: u32 = 128;

/// The most clients that a node may have at once.
const MOST_CLIENTS: i64 = 1_024;

const INIT_HELP: &str =
    "DIR must be empty; it is made if its parent is there. It gets the file farm and the node's tape.
With --from the tape begins as a copy of TAPE, the tape of the same node of a folder that isn't used any more: one of wfarm serve
or of wfarm node, of as many nodes. Without a file farm beside TAPE it is taken with a warning.
With --replace the folder joins in the place of a lost one of this node: it doesn't vote before wfarmctl replace was run and it has
the maps that it lacks.

Errors: status 2 for a bad command line, else 1, with a line that names the cause";

const NODE_HELP: &str =
    "The list of --peers is the same on every machine, in the order of the nodes' numbers, with the address of each node for
its peers. GET /wms?QUERY answers a WMS request, POST /publish proposes the mapfile in its body, GET /status reports the node.
A kept picture takes 3 MB. With --log a line on standard error tells each event: TIME LEVEL EVENT KEY=VALUE ..
With --replace-allowed the operator's port takes what wfarmctl replace asks, once a node's folder is lost.

Errors: status 2 for a bad command line, else 1, with a line that names the cause";

const CLEAR_HELP: &str =
    "A peer that remembers more of a node than the node has suspends it; only this command ends that, once the node is stopped.
It is right on each stopped node's folder where the accuser is left over from an older farm of this name. Where a node was put
back to an older copy it breaks what the farm promises: two maps may be published under one number.

Errors: status 2 for a bad command line, else 1, with a line that names the cause";

// `--NAME`. Of a chain of calls each field of the rule is a term of all of them, so chains are
// short.
fn long_argument<'a>(alloc: Global, name: &'a str) -> Arg<'a>
    ensures rule { rule_of result ≡ long_rule name.now }
    ensures local { result.global ≡ false }
{
    Arg::new(alloc, name).long(name)
}

// `--NAME VALUE`, which may be absent.
fn named_argument<'a>(alloc: Global, name: &'a str, value: &'a str, help: &'a str) -> Arg<'a>
    ensures rule { rule_of result ≡ text_rule name.now false }
    ensures local { result.global ≡ false }
{
    long_argument(alloc, name).value_name(value).help(help)
}

// `--NAME VALUE`.
pub(crate) fn option<'a>(
    alloc: Global,
    name: &'a str,
    value: &'a str,
    is_required: bool,
    help: &'a str,
) -> Arg<'a>
    ensures rule { rule_of result ≡ text_rule name.now is_required }
    ensures local { result.global ≡ false }
{
    named_argument(alloc, name, value, help).required(is_required)
}

// `--NAME`, a flag.
pub(crate) fn flag<'a>(alloc: Global, name: &'a str, help: &'a str) -> Arg<'a>
    ensures rule { rule_of result ≡ flag_rule name.now }
    ensures local { result.global ≡ false }
{
    long_argument(alloc, name)
        .action(ArgAction::SetTrue)
        .help(help)
}

// `--id I`.
fn id_argument<'a>(alloc: Global) -> Arg<'a>
    ensures rule { rule_of result ≡ id_rule }
    ensures local { result.global ≡ false }
{
    number_argument(alloc, "id", "I", 0, 63, true, "The node's number, 0 to 63")
}

// `--nodes N`.
fn nodes_argument<'a>(alloc: Global) -> Arg<'a>
    ensures rule { rule_of result ≡ nodes_rule }
    ensures local { result.global ≡ false }
{
    number_argument(
        alloc,
        "nodes",
        "N",
        1,
        64,
        true,
        "The number of nodes of the farm, 1 to 64",
    )
}

// `--clients K`.
fn clients_argument<'a>(alloc: Global) -> Arg<'a>
    ensures rule { rule_of result ≡ clients_rule }
    ensures local { result.global ≡ false }
{
    number_argument(
        alloc,
        "clients",
        "K",
        1,
        MOST_CLIENTS,
        false,
        "The number of clients at once, 1 to 1024; 128 where it is absent",
    )
}

// `--readers ADDR:PORT`.
pub(crate) fn readers_argument<'a>(alloc: Global) -> Arg<'a>
    ensures rule { rule_of result ≡ text_rule (codes "readers") false }
    ensures local { result.global ≡ false }
{
    option(
        alloc,
        "readers",
        "ADDR:PORT",
        false,
        "Where replicas come to read what is published",
    )
}

// A command about a process of its own, with the process's folder.
pub(crate) fn folder_command<'a>(
    alloc: Global,
    name: &'a str,
    about: &'a str,
    help: &'a str,
    folder: &'a str,
) -> Result<Command<'a>, AllocError>
    ensures { IfOk result (IsOfShape (folder_shape name.now)) }
{
    bare_command(alloc, name, about, help).arg(option(alloc, "state", "DIR", true, folder))
}

// `init`, with the node's folder and the farm's name.
fn init_start<'a>(alloc: Global) -> Result<Command<'a>, AllocError>
    ensures { IfOk result (IsOfShape init_shape_start) }
{
    folder_command(
        alloc,
        "init",
        "Makes the folder of a node in a process of its own",
        INIT_HELP,
        "The node's folder",
    )?
    .arg(option(alloc, "farm", "NAME", true, "The farm's name"))
}

// `init`, with all arguments that it wants.
fn init_wanted<'a>(alloc: Global) -> Result<Command<'a>, AllocError>
    ensures { IfOk result (IsOfShape init_shape_wanted) }
{
    init_start(alloc)?
        .arg(id_argument(alloc))?
        .arg(nodes_argument(alloc))
}

// `init`.
pub(crate) fn init_command<'a>(alloc: Global) -> Result<Command<'a>, AllocError>
    ensures { IfOk result (IsOfShape init_shape) }
{
    init_wanted(alloc)?
        .arg(option(alloc, "from", "TAPE", false, "The tape to begin with"))?
        .arg(flag(
            alloc,
            "replace",
            "The folder joins in the place of one that was lost",
        ))
}

// `node`, with its folder and the addresses of its peers.
fn node_start<'a>(alloc: Global) -> Result<Command<'a>, AllocError>
    ensures { IfOk result (IsOfShape node_shape_start) }
{
    folder_command(
        alloc,
        "node",
        "Serves one node of a farm, whose other nodes are other processes",
        NODE_HELP,
        "The node's folder, made by wfarm init",
    )?
    .arg(option(
        alloc,
        "peers",
        "A0:P,A1:P,..",
        true,
        "The addresses of all nodes for their peers",
    ))
}

// `node`, with where its clients and peers come.
fn node_ports<'a>(alloc: Global) -> Result<Command<'a>, AllocError>
    ensures { IfOk result (IsOfShape node_shape_ports) }
{
    node_start(alloc)?
        .arg(option(alloc, "http", "ADDR:PORT", true, "Where clients come"))?
        .arg(option(
            alloc,
            "listen",
            "ADDR:PORT",
            false,
            "Where peers come; the node's own address of --peers where it is absent",
        ))
}

// `node`, with all its addresses.
fn node_addresses<'a>(alloc: Global) -> Result<Command<'a>, AllocError>
    ensures { IfOk result (IsOfShape node_shape_addresses) }
{
    node_ports(alloc)?
        .arg(option(
            alloc,
            "admin",
            "ADDR:PORT",
            false,
            "Where the operator comes",
        ))?
        .arg(readers_argument(alloc))
}

// `node`, with its addresses and numbers.
fn node_numbers<'a>(alloc: Global) -> Result<Command<'a>, AllocError>
    ensures { IfOk result (IsOfShape node_shape_numbers) }
{
    node_addresses(alloc)?
        .arg(cache_argument(alloc))?
        .arg(clients_argument(alloc))
}

// `node`.
pub(crate) fn node_arguments<'a>(alloc: Global) -> Result<Command<'a>, AllocError>
    ensures { IfOk result (IsOfShape node_shape) }
{
    node_numbers(alloc)?.arg(log_argument(alloc))?.arg(flag(
        alloc,
        "replace-allowed",
        "Lets the operator put a new folder in the place of a lost one",
    ))
}

// `clear`.
pub(crate) fn clear_command<'a>(alloc: Global) -> Result<Command<'a>, AllocError>
    ensures { IfOk result (IsOfShape clear_shape) }
{
    folder_command(
        alloc,
        "clear",
        "Ends a suspension, and forgets what the node accused its peers of",
        CLEAR_HELP,
        "The folder of a node that is stopped",
    )
}

// The number parsed for an option, or the one where it is absent.
pub(crate) fn number_or<'a>(found: &ArgMatches<'a>, id: &str, most: u32, absent: u32) -> Option<u32>
    ensures some { IfSome result (IsNumberOr (rows_in found.now) id.now most absent) }
    ensures none { IfNone result
        ((number : ℕ) → ¬ (IsNumberOr (rows_in found.now) id.now most absent number)) }
{
    number_by(word_of(found, id), most, absent)
}

// The number that an argument spells, or the one where it is absent.
fn number_by(word: Option<&str>, most: u32, absent: u32) -> Option<u32>
    ensures some { IfSome result (IsNumberBy (option_map (λ s. s.now) word.entry) most absent) }
    ensures none { IfNone result
        ((number : ℕ) → ¬ (IsNumberBy (option_map (λ s. s.now) word.entry) most absent number)) }
{
    match word {
        Some(word) => number(word, 1, most),
        None => Some(absent),
    }
}

// The arguments parsed for `init`.
pub(crate) fn init_line<'a>(found: &ArgMatches<'a>) -> Option<InitLine<'a>>
    ensures some { IfSome result (IsInitLineOf (rows_in found.now)) }
    ensures none { IfNone result ((line : InitLine) → ¬ (IsInitLineOf (rows_in found.now) line)) }
{
    let state = word_of(found, "state")?;
    let farm = word_of(found, "farm")?;
    let id = number_of(found, "id", 0, 63)?;
    let nodes = number_of(found, "nodes", 1, 64)?;
    Some(InitLine {
        state,
        farm,
        id: id as u8,
        nodes: nodes as u8,
        from: word_of(found, "from"),
        replaces: is_set(found, "replace"),
    })
}

// The arguments parsed for `node`.
pub(crate) fn node_line<'a>(found: &ArgMatches<'a>) -> Option<NodeLine<'a>>
    ensures some { IfSome result (IsNodeLineOf (rows_in found.now)) }
    ensures none { IfNone result ((line : NodeLine) → ¬ (IsNodeLineOf (rows_in found.now) line)) }
{
    let state = word_of(found, "state")?;
    let peers = word_of(found, "peers")?;
    let http = word_of(found, "http")?;
    let cache = number_or(found, "cache", 64, DEFAULT_CACHE)?;
    let clients = number_or(found, "clients", 1_024, DEFAULT_CLIENTS)?;
    Some(NodeLine {
        state,
        peers,
        http,
        listen: word_of(found, "listen"),
        admin: word_of(found, "admin"),
        readers: word_of(found, "readers"),
        cache: cache as u8,
        clients: clients as u16,
        log: is_set(found, "log"),
        may_replace: is_set(found, "replace-allowed"),
    })
}

// The arguments parsed for `clear`.
pub(crate) fn clear_line<'a>(found: &ArgMatches<'a>) -> Option<ClearLine<'a>>
    ensures some { IfSome result (IsClearLineOf (rows_in found.now)) }
    ensures none { IfNone result ((line : ClearLine) → ¬ (IsClearLineOf (rows_in found.now) line)) }
{
    let state = word_of(found, "state")?;
    Some(ClearLine { state })
}
