//! Parses the command line.
ghost use Rattle.std.specs.Prelude.{◌≡◌, ℕ, IfErr, IfNone, IfOk, IfSome, Option, false, map, option_map};
ghost use Rattle.clap.specs.Simple.{new_shape, shape_of, subcommand_of, subcommand_rows_of};
ghost use Rattle.clap.specs.Values.{kind_of};
ghost use Rattle.clap.specs.Walk.{first_of, rule_of};
ghost use Rattle.clap.specs.declared.builder.command.Command.TheViews.{out-Command};
ghost use Rattle.wf_ballot.specs.Sequence.{last_sequence};
ghost use Rattle.wf_line.specs.CommandLine.{Asks, IsCacheBy, IsCapsOf, IsDrawOf, IsNumberOf, IsOfShape, IsServeOf, IsServiceOf, IsTapeOption, caps_shape, draw_shape, canon_shape, run_shape, wire_shape, tape_shape, required_serve_shape, serve_shape, serve_shape_start, rows_in, is_set, IsMapBy, map_rule, log_rule, sequence_rule, query_rule, word_rule, file_rule, number_rule, nodes_rule, port_rule, requests_rule, cache_rule, state_rule, check_shape, format_rule, IsCheckAsked, format_by};
ghost use Rattle.wf_line.specs.Program.{program};
ghost use Rattle.wf_line.specs.Rejection.{IsLineRejection, IsWhyLineRejected, JsonCheckIsAsked, PlainCanonIsAsked, PlainCapsIsAsked, PlainCheckIsAsked, PlainDrawIsAsked, PlainRunIsAsked, PlainTapeIsAsked, PlainWireIsAsked};
ghost use Rattle.wf_line.specs.Line.{IsInRange, IsNumber, SpellsSequence};
ghost use Rattle.wf_line.specs.declared.command_line.Line.{Line};
ghost use Rattle.wf_service.specs.declared.service.Service.{Service};

use crate::command_line::{Format, Line};
use crate::node_arguments::{flag, option};
use crate::program::{program, rejection};
use clap::builder::ValueParser;
use clap::{Arg, ArgMatches, Command, Error};
use std::alloc::{AllocError, Global};
use std::convert::AsStr;
use wf_ballot::SEQUENCES;
use wf_service::Service;

const CAPS_HELP: &str =
    "caps answers GetCapabilities; it does not support GetMap, which draw answers.
A service exception is an answer: the status is 0.

Limits: a mapfile has at most 131,072 bytes
Errors (status 1): map fault M1 to M12, read fault";

const DRAW_HELP: &str =
    "draw answers as a server that has published this map alone, as sequence 1: GetMap gets a pixmap (PPM, P6).
A service exception is an answer: the status is 0.

Limits: a mapfile has at most 131,072 bytes, a picture 1,024 by 1,024 pixels
Errors (status 1): map fault M1 to M12, read fault";

const CANON_HELP: &str = "A file is read as standard input: wfarm canon < FILE
The canonical text is the one spelling of a map that nodes compare and store.

Limits: a mapfile has at most 131,072 bytes, a canonical text 65,536
Errors (status 1): map fault M1 to M12, canon fault K1 and K3, read fault";

const CHECK_HELP: &str = "A file is read as standard input: wfarm check < FILE
Nothing is written where a farm would publish the map. Else the first error: its line, column and number, the line itself
with a mark under the place, what was found there and what is allowed there; the status is 1 then, with no other line.
With --format json it is one line of JSON: {\"column\":3,\"error\":\"M5\",\"line\":1,\"message\":\"Found ..\",\"offset\":2}. Lines and
columns count from 1, columns in characters, offsets in bytes from 0.

Limits: a mapfile has at most 131,072 bytes, a canonical text 65,536
Errors (status 1): map fault M1, read fault";

const RUN_HELP: &str = "The first line is nodes N; each later line is an order or a question.
Orders: map NAME, the lines of a mapfile, endmap; propose I NAME, retry I, catchup I, deliver I K ..,
  cut I K B, stop I, restart I, torn I before E, torn I after E, pump, pump I .., skip
Questions: published, sent, proposal I, definition I S, same, get I QUERY, equal I J QUERY
I and J are nodes, K is a message, B a number of its bytes, S an update sequence, E an event without its node
cut does nothing here; wfarm wire cuts the message off

Limits: a script has at most 1,048,576 bytes, 10,000 lines and 64 maps
Errors (status 1): script fault S1 to S4 with the line number, read fault";

const WIRE_HELP: &str =
    "A script is that of wfarm run, and prints the same: wfarm help run lists its lines.
Each message that deliver or pump brings to a node crosses a connection of this machine to itself, in pieces of at
most 4,096 bytes. A message of torn doesn't cross. cut I K B sends the first B bytes of message K, or all but the last
byte, and closes the connection; it does nothing if the message isn't sent or the node is absent or stopped.

Limits: those of wfarm run
Errors (status 1): those of wfarm run, and wire fault where a message doesn't cross";

const TAPE_HELP: &str =
    "Each line begins with a byte offset: one for each record, then one for what follows them.
OFFSET tried ROUND
OFFSET promised SEQ ballot (ROUND, NODE)
OFFSET accepted SEQ ballot (ROUND, NODE) text BYTES
OFFSET published SEQ text BYTES
OFFSET end, OFFSET torn record, N bytes, or OFFSET P2 bad record, N bytes
A torn record is removed when a node opens its tape; a tape with a bad one opens no node.
The file isn't changed, and needn't be whole: the status is 0 for any that can be read.
Of a folder, each tape in it is listed after a line with its name, and the last line says whether the folder is whole, the
tapes of one farm with equal maps under equal sequences.
With --map S the canonical text of the map that the tape has as published under sequence S is written, and nothing else.

Limits: a tape has at most 8 GB
Errors (status 1): tape fault P1 (the file can't be read, or is too long), tape fault P3 (out of memory), tape fault P4 (no such
map)";

/// The most pictures that a node may keep.
const MOST_CACHE: i64 = 64;

/// The number of pictures that each node keeps by default.
const DEFAULT_CACHE: u32 = 16;

const SERVE_HELP: &str =
    "GET /wms?QUERY answers a WMS request, POST /publish proposes the mapfile in its body, GET /status reports a node.
Node c mod N serves connection c, counted from 0.
A kept picture takes 3 MB.
With --state the nodes' tapes are the files node-0.tape, node-1.tape and so on of the folder DIR, which must
exist; without it the tapes are lost when the program ends. The folder belongs to its first N: its file farm says so.
With --log a line on standard error tells each event: TIME LEVEL EVENT KEY=VALUE ..

Errors (status 1): serve fault";

// One function for each part, called one after another: only clap drops what is built.

// A command without arguments. Of a chain of calls each field of the shape is a term of all of
// them, so chains are short.
pub(crate) fn bare_command<'a>(
    alloc: Global,
    name: &'a str,
    about: &'a str,
    help: &'a str,
) -> Command<'a>
    ensures shape { shape_of result ≡ new_shape name.now }
    ensures local { (out-Command result).has_globals ≡ false }
{
    Command::new(alloc, name).about(about).after_help(help)
}

// NAME, a text that is required.
fn required_argument<'a>(alloc: Global, name: &'a str, help: &'a str) -> Arg<'a>
    ensures rule { rule_of result ≡ word_rule name.now }
    ensures local { result.global ≡ false }
{
    Arg::new(alloc, name).required(true).help(help)
}

// SEQ.
fn seq_argument<'a>(alloc: Global) -> Arg<'a>
    ensures rule { rule_of result ≡ sequence_rule }
    ensures local { result.global ≡ false }
{
    required_argument(alloc, "SEQ", "The update sequence of the map, 0 to 4096")
        .value_name("SEQ")
        .value_parser(ValueParser::signed(0, 4_096))
}

// `--NAME VALUE`, a number in least..=most.
pub(crate) fn number_argument<'a>(
    alloc: Global,
    name: &'a str,
    value: &'a str,
    least: i64,
    most: i64,
    is_required: bool,
    help: &'a str,
) -> Arg<'a>
    ensures rule { rule_of result ≡ number_rule name.now least most is_required }
    ensures local { result.global ≡ false }
{
    option(alloc, name, value, is_required, help).value_parser(ValueParser::signed(least, most))
}

fn query_argument<'a>(alloc: Global) -> Arg<'a>
    ensures rule { rule_of result ≡ query_rule }
    ensures local { result.global ≡ false }
{
    required_argument(
        alloc,
        "QUERY",
        "The query string of a WMS request, such as SERVICE=WMS&REQUEST=GetCapabilities",
    )
}

fn file_argument<'a>(alloc: Global) -> Arg<'a>
    ensures rule { rule_of result ≡ file_rule }
    ensures local { result.global ≡ false }
{
    required_argument(
        alloc,
        "FILE",
        "The file of the tape, such as node-0.tape, or the folder of a farm",
    )
}

// `caps SEQ QUERY`.
pub(crate) fn caps_command<'a>(alloc: Global) -> Result<Command<'a>, AllocError>
    ensures { IfOk result (IsOfShape caps_shape) }
{
    bare_command(
        alloc,
        "caps",
        "Answers a WMS request about the mapfile on standard input",
        CAPS_HELP,
    )
    .arg(seq_argument(alloc))?
    .arg(query_argument(alloc))
}

// `draw QUERY`.
pub(crate) fn draw_command<'a>(alloc: Global) -> Result<Command<'a>, AllocError>
    ensures { IfOk result (IsOfShape draw_shape) }
{
    bare_command(
        alloc,
        "draw",
        "Previews the mapfile on standard input: answers a WMS request, GetMap included",
        DRAW_HELP,
    )
    .arg(query_argument(alloc))
}

// `canon`.
pub(crate) fn canon_command<'a>(alloc: Global) -> Command<'a>
    ensures shape { shape_of result ≡ canon_shape }
    ensures local { (out-Command result).has_globals ≡ false }
{
    bare_command(
        alloc,
        "canon",
        "Writes the canonical text of the mapfile on standard input",
        CANON_HELP,
    )
}

// `--format FORMAT`.
fn format_argument<'a>(alloc: Global) -> Arg<'a>
    ensures rule { rule_of result ≡ format_rule }
    ensures local { result.global ≡ false }
{
    option(
        alloc,
        "format",
        "FORMAT",
        false,
        "The format of the report, text or json; text where it is absent",
    )
}

// `check --format FORMAT`.
pub(crate) fn check_command<'a>(alloc: Global) -> Result<Command<'a>, AllocError>
    ensures { IfOk result (IsOfShape check_shape) }
{
    bare_command(
        alloc,
        "check",
        "Checks the mapfile on standard input, and shows its first error with the line",
        CHECK_HELP,
    )
    .arg(format_argument(alloc))
}

// `run`.
pub(crate) fn run_command<'a>(alloc: Global) -> Command<'a>
    ensures shape { shape_of result ≡ run_shape }
    ensures local { (out-Command result).has_globals ≡ false }
{
    bare_command(
        alloc,
        "run",
        "Plays the script on standard input on a farm in memory",
        RUN_HELP,
    )
}

// `wire`.
pub(crate) fn wire_command<'a>(alloc: Global) -> Command<'a>
    ensures shape { shape_of result ≡ wire_shape }
    ensures local { (out-Command result).has_globals ≡ false }
{
    bare_command(
        alloc,
        "wire",
        "Plays the script on standard input, its messages crossing a connection",
        WIRE_HELP,
    )
}

// `--map S`.
fn map_argument<'a>(alloc: Global) -> Arg<'a>
    ensures rule { rule_of result ≡ map_rule }
    ensures local { result.global ≡ false }
{
    number_argument(
        alloc,
        "map",
        "S",
        1,
        4_096,
        false,
        "Writes the map published under this sequence, 1 to 4096",
    )
}

// `tape FILE --map S`.
pub(crate) fn tape_command<'a>(alloc: Global) -> Result<Command<'a>, AllocError>
    ensures { IfOk result (IsOfShape tape_shape) }
{
    bare_command(
        alloc,
        "tape",
        "Lists the records of a node's tape or of a farm's folder, and where a tape is torn or bad",
        TAPE_HELP,
    )
    .arg(file_argument(alloc))?
    .arg(map_argument(alloc))
}

// `--nodes N`.
fn nodes_argument<'a>(alloc: Global) -> Arg<'a>
    ensures rule { rule_of result ≡ nodes_rule }
    ensures local { result.global ≡ false }
{
    number_argument(
        alloc,
        "nodes",
        "N",
        1,
        64,
        true,
        "The number of nodes, 1 to 64",
    )
}

// `--port P`.
fn port_argument<'a>(alloc: Global) -> Arg<'a>
    ensures rule { rule_of result ≡ port_rule }
    ensures local { result.global ≡ false }
{
    number_argument(
        alloc,
        "port",
        "P",
        0,
        65_535,
        true,
        "The port at 127.0.0.1, 0 to 65535; 0 takes any free port",
    )
}

// `--requests K`.
fn requests_argument<'a>(alloc: Global) -> Arg<'a>
    ensures rule { rule_of result ≡ requests_rule }
    ensures local { result.global ≡ false }
{
    number_argument(
        alloc,
        "requests",
        "K",
        0,
        1_000_000,
        true,
        "The number of connections after which the program ends, 0 to 1000000",
    )
}

// `--cache C`.
pub(crate) fn cache_argument<'a>(alloc: Global) -> Arg<'a>
    ensures rule { rule_of result ≡ cache_rule }
    ensures local { result.global ≡ false }
{
    number_argument(
        alloc,
        "cache",
        "C",
        1,
        MOST_CACHE,
        false,
        "The number of pictures that each node or replica keeps, 1 to 64; 16 where it is absent",
    )
}

// `--state DIR`.
pub(crate) fn state_argument<'a>(alloc: Global) -> Arg<'a>
    ensures rule { rule_of result ≡ state_rule }
    ensures local { result.global ≡ false }
{
    option(
        alloc,
        "state",
        "DIR",
        false,
        "The folder of the nodes' tapes",
    )
}

// `--log`.
pub(crate) fn log_argument<'a>(alloc: Global) -> Arg<'a>
    ensures rule { rule_of result ≡ log_rule }
    ensures local { result.global ≡ false }
{
    flag(
        alloc,
        "log",
        "Writes a line about each event on standard error",
    )
}

// `serve`, with the number of its nodes.
fn serve_start<'a>(alloc: Global) -> Result<Command<'a>, AllocError>
    ensures { IfOk result (IsOfShape serve_shape_start) }
{
    bare_command(
        alloc,
        "serve",
        "Serves a farm over HTTP, one connection after the other",
        SERVE_HELP,
    )
    .arg(nodes_argument(alloc))
}

// `serve`, without its optional arguments.
fn farm_command<'a>(alloc: Global) -> Result<Command<'a>, AllocError>
    ensures { IfOk result (IsOfShape required_serve_shape) }
{
    serve_start(alloc)?
        .arg(port_argument(alloc))?
        .arg(requests_argument(alloc))
}

// `serve --nodes N --port P --requests K --cache C --state DIR --log`.
pub(crate) fn serve_command<'a>(alloc: Global) -> Result<Command<'a>, AllocError>
    ensures { IfOk result (IsOfShape serve_shape) }
{
    farm_command(alloc)?
        .arg(cache_argument(alloc))?
        .arg(state_argument(alloc))?
        .arg(log_argument(alloc))
}

// The update sequence that an argument spells.
fn sequence(word: &str) -> Option<u16>
    ensures some { IfSome result (SpellsSequence word.now) }
    ensures none { IfNone result ((seq : ℕ) → ¬ (SpellsSequence word.now seq)) }
{
    match word.parse::<u16>() {
        Ok(seq) if seq <= SEQUENCES => Some(seq),
        _ => None,
    }
}

// The `caps` line of the parsed arguments.
fn caps<'a>(found: &ArgMatches<'a>) -> Option<Line<'a>>
    ensures some { IfSome result (IsCapsOf (rows_in found.now)) }
    ensures none { IfNone result ((line : Line) → ¬ (IsCapsOf (rows_in found.now) line)) }
{
    let word = word_of(found, "SEQ")?;
    let query = word_of(found, "QUERY")?;
    let seq = sequence(word)?;
    Some(Line::Caps { seq, query })
}

// The `draw` line of the parsed arguments.
fn draw<'a>(found: &ArgMatches<'a>) -> Option<Line<'a>>
    ensures some { IfSome result (IsDrawOf (rows_in found.now)) }
    ensures none { IfNone result ((line : Line) → ¬ (IsDrawOf (rows_in found.now) line)) }
{
    let word = word_of(found, "QUERY")?;
    Some(Line::Draw { query: word })
}

// The sequence of the map that `tape` is to write.
fn map_number(word: &str) -> Option<u16>
    ensures some { IfSome result (IsNumber word.now 1 last_sequence) }
    ensures none { IfNone result ((seq : ℕ) → ¬ (IsNumber word.now 1 last_sequence seq)) }
{
    match number(word, 1, 4_096) {
        Some(seq) => Some(seq as u16),
        None => None,
    }
}

// The sequence of the map that `tape` is to write, by the argument if there is one.
fn map_by(word: Option<&str>) -> Option<Option<u16>>
    ensures some { IfSome result (IsMapBy (option_map (λ s. s.now) word.entry)) }
    ensures none { IfNone result
        ((map : Option ℕ) → ¬ (IsMapBy (option_map (λ s. s.now) word.entry) map)) }
{
    match word {
        Some(word) => match map_number(word) {
            Some(seq) => Some(Some(seq)),
            None => None,
        },
        None => Some(None),
    }
}

// The format of a report, by the argument if there is one.
fn format_by(word: Option<&str>) -> Option<Format>
    ensures { result ≡ format_by (option_map (λ s. s.now) word.entry) }
{
    match word {
        None => Some(Format::Text),
        Some(word) if word == "text" => Some(Format::Text),
        Some(word) if word == "json" => Some(Format::Json),
        Some(_) => None,
    }
}

// The `check` line of the parsed arguments.
fn check<'a>(found: &ArgMatches<'a>) -> Option<Line<'a>>
    ensures some { IfSome result (IsCheckAsked (rows_in found.now)) }
    ensures none { IfNone result ((line : Line) → ¬ (IsCheckAsked (rows_in found.now) line)) }
{
    let format = format_by(word_of(found, "format"))?;
    Some(Line::Check { format })
}

// The `tape` line of the parsed arguments.
fn tape<'a>(found: &ArgMatches<'a>) -> Option<Line<'a>>
    ensures some { IfSome result (IsTapeOption (rows_in found.now)) }
    ensures none { IfNone result ((line : Line) → ¬ (IsTapeOption (rows_in found.now) line)) }
{
    let word = word_of(found, "FILE")?;
    let map = map_by(word_of(found, "map"))?;
    Some(Line::Tape { file: word, map })
}

// The text parsed for an argument.
#[tactic(auto, using(crate::proofs::Named::word_in_row))]
pub(crate) fn word_of<'a>(found: &ArgMatches<'a>, id: &str) -> Option<&'a str>
    ensures { first_of id.now (rows_in found.now) ≡ option_map (λ s. s.now) result }
{
    found.get_str(id)
}

// The number in least..=most that an argument spells.
pub(crate) fn number(word: &str, least: u32, most: u32) -> Option<u32>
    ensures some { IfSome result (IsNumber word.now least most) }
    ensures none { IfNone result ((number : ℕ) → ¬ (IsNumber word.now least most number)) }
{
    match word.parse::<u32>() {
        Ok(number) if least <= number && number <= most => Some(number),
        _ => None,
    }
}

// The number parsed for an option.
pub(crate) fn number_of<'a>(found: &ArgMatches<'a>, id: &str, least: u32, most: u32) -> Option<u32>
    ensures some { IfSome result (IsNumberOf (rows_in found.now) id.now least most) }
    ensures none { IfNone result
        ((number : ℕ) → ¬ (IsNumberOf (rows_in found.now) id.now least most number)) }
{
    let word = word_of(found, id)?;
    number(word, least, most)
}

// The number of pictures to keep, by the argument if there is one.
fn cache_by(word: Option<&str>) -> Option<u32>
    ensures some { IfSome result (IsCacheBy (option_map (λ s. s.now) word.entry)) }
    ensures none { IfNone result
        ((cached : ℕ) → ¬ (IsCacheBy (option_map (λ s. s.now) word.entry) cached)) }
{
    match word {
        Some(word) => number(word, 1, 64),
        None => Some(DEFAULT_CACHE),
    }
}

// Whether a flag was given.
pub(crate) fn is_set<'a>(found: &ArgMatches<'a>, id: &str) -> bool
    ensures { result ≡ is_set (first_of id.now (rows_in found.now)) }
{
    is_true(word_of(found, id))
}

// Whether the argument of a flag says that it was given.
fn is_true(word: Option<&str>) -> bool
    ensures { result ≡ is_set (option_map (λ s. s.now) word.entry) }
{
    match word {
        Some(word) => word == "true",
        None => false,
    }
}

// What to serve, by the parsed arguments.
fn service<'a>(found: &ArgMatches<'a>) -> Option<Service<'a>>
    ensures some { IfSome result (IsServiceOf (rows_in found.now)) }
    ensures none { IfNone result
        ((service : Service) → ¬ (IsServiceOf (rows_in found.now) service)) }
{
    let nodes = number_of(found, "nodes", 1, 64)?;
    let port = number_of(found, "port", 0, 65_535)?;
    let requests = number_of(found, "requests", 0, 1_000_000)?;
    let cache = cache_by(word_of(found, "cache"))?;
    Some(Service {
        nodes: nodes as u8,
        port: port as u16,
        requests,
        cache: cache as u8,
        state: word_of(found, "state"),
        log: is_set(found, "log"),
    })
}

// The `serve` line of the parsed arguments.
fn serve<'a>(found: &ArgMatches<'a>) -> Option<Line<'a>>
    ensures some { IfSome result (IsServeOf (rows_in found.now)) }
    ensures none { IfNone result ((line : Line) → ¬ (IsServeOf (rows_in found.now) line)) }
{
    let service = service(found)?;
    Some(Line::Serve(service))
}

// The line that the parsed arguments ask for.
fn line_of<'a>(matches: &ArgMatches<'a>) -> Option<Line<'a>>
    ensures some { IfSome result (Asks (subcommand_rows_of matches.now)) }
    ensures none { IfNone result ((line : Line) → ¬ (Asks (subcommand_rows_of matches.now) line)) }
{
    match matches.subcommand() {
        Some(("caps", found)) => caps(found),
        Some(("draw", found)) => draw(found),
        Some(("canon", _)) => Some(Line::Canon),
        Some(("check", found)) => check(found),
        Some(("run", _)) => Some(Line::Run),
        Some(("wire", _)) => Some(Line::Wire),
        Some(("tape", found)) => tape(found),
        Some(("serve", found)) => serve(found),
        _ => None,
    }
}

/// Parses the arguments of a command line, without the program's name. An error's text is for the
/// user.
///
/// The line that is asked for is defined by `clap`'s rules for the program's command.
/// [`plain_words_are_taken`], about arguments without a leading hyphen, follows from them.
#[tactic(auto, using(crate::proofs::Named::asked_in_range))]
pub fn line<'a, S: AsStr>(alloc: Global, words: &'a [S]) -> Result<Line<'a>, Error>
    ensures range { IfOk result IsInRange }
    ensures asked { IfOk result (Asks (subcommand_of program (map S.text words.entry.now))) }
    // Arguments that ask for a line are rejected only if an allocation fails.
    ensures rejected { IfErr result
        (λ error. IsWhyLineRejected (map S.text words.entry.now) (kind_of error)) }
    // The error's kind is the parser's.
    ensures kind { IfErr result
        (λ error. IsLineRejection (map S.text words.entry.now) (kind_of error)) }
{
    let matches = program(alloc)?.try_get_matches_from(words)?;
    let asked = line_of(&matches);
    drop(matches);
    // The parser has checked that there is a line, but clap's contract doesn't cover a subcommand's
    // values.
    match asked {
        Some(line) => Ok(line),
        None => Err(rejection(alloc)?),
    }
}

/// `caps` with an update sequence and a query, `draw` with a query, `tape` with a file, and
/// `canon`, `check`, `run` and `wire` alone ask for these lines, if no argument begins with a
/// hyphen; `check --format json` asks for that format. A theorem: the call does nothing.
pub fn plain_words_are_taken()
    ensures caps { PlainCapsIsAsked }
    ensures draw { PlainDrawIsAsked }
    ensures tape { PlainTapeIsAsked }
    ensures canon { PlainCanonIsAsked }
    ensures check { PlainCheckIsAsked }
    ensures json { JsonCheckIsAsked }
    ensures run { PlainRunIsAsked }
    ensures wire { PlainWireIsAsked }
{}
