//! `init` and starts of a node on a folder in memory, each call of which fails in turn, before its
//! power is cut.
ghost use Rattle.wf_line.specs.NodeLine.{IsNodeCommandInRange};

use crate::files::{NODE_TAPE, presence, replace};
use std::alloc::{AllocError, Global};
use std::fs::File;
use std::net::Net;
use std::rt::Files;
use std::time::Clock;
use wf_folder::Presence;
use wf_line::{InitLine, NodeCommand, NodeLine};
use wf_node_command::run;
use wf_store::{FileName, MemoryFolder, MemoryStore, Store};
use wf_test_table::{Answered, CaseInput, Transcript};

/// How many calls of its folder's disks a command makes: more than that, and fewer than that.
const FEW_CALLS: usize = 10;

const MANY_CALLS: usize = 60;

/// The length of the record with which a start begins a tape that it writes anew.
const TRIED_BYTES: usize = 10;

/// The most bytes of a tape that are read.
const MOST_BYTES: usize = 1_000;

/// How a power cut goes on: how many bytes are kept of what a call that failed was given, and how
/// many replacements are lost.
#[derive(Clone, Copy)]
struct Cut {
    kept: usize,
    back: usize,
}

/// Makes the folder of the only node of a farm.
fn init_line() -> NodeCommand<'static>
    ensures { IsNodeCommandInRange result }
{
    NodeCommand::Init(InitLine {
        state: "folder",
        farm: "cut",
        id: 0,
        nodes: 1,
        from: None,
        replaces: false,
    })
}

/// Serves that node.
fn node_line() -> NodeCommand<'static>
    ensures { IsNodeCommandInRange result }
{
    NodeCommand::Node(NodeLine {
        state: "folder",
        peers: "127.0.0.1:1",
        http: "127.0.0.1:0",
        listen: Some("127.0.0.1:0"),
        admin: None,
        readers: None,
        cache: 1,
        clients: 1,
        log: false,
        may_replace: false,
    })
}

/// Runs a command on a folder for no turn. Whether it succeeds.
fn runs<R: Files<File = File> + Clock + Eprint + Net + AllocGlobal>(
    rt: &R,
    folder: &MemoryFolder,
    command: &NodeCommand<'_>,
) -> bool
    requires { IsNodeCommandInRange command.now }
{
    let (result, store) = run(rt, MemoryStore::new(folder), command, 0);
    drop(store);
    result.is_ok()
}

/// Runs a command on a folder, this call of which fails; then the power is cut. Whether the command
/// succeeds, and whether it made that call.
fn cut_within<R: Files<File = File> + Clock + Eprint + Net + AllocGlobal>(
    rt: &R,
    folder: &MemoryFolder,
    command: &NodeCommand<'_>,
    call: usize,
    cut: Cut,
) -> (bool, bool)
    requires { IsNodeCommandInRange command.now }
{
    folder.set_failure(call, cut.kept);
    let is_ok = runs(rt, folder, command);
    let was_cut = !folder.will_fail();
    folder.set_failure(0, 0);
    folder.cut(cut.back, cut.kept);
    (is_ok, was_cut)
}

/// Whether a file is there.
fn is_there(folder: &MemoryFolder, file: FileName) -> bool {
    matches!(
        presence(folder, file),
        Ok(Presence::Empty | Presence::Written)
    )
}

/// The bytes of the tape; none, if it can't be read.
fn tape_in(alloc: Global, folder: &MemoryFolder) -> Vec<u8> {
    let mut store = MemoryStore::new(folder);
    let found = store.read(NODE_TAPE, MOST_BYTES);
    drop(store);
    match found {
        Ok(Some(bytes)) => bytes,
        _ => Vec::new(alloc),
    }
}

/// A folder that `init` made, with this tape.
fn made_folder<R: Files<File = File> + Clock + Eprint + Net + AllocGlobal>(
    rt: &R,
    alloc: Global,
    tape: &[u8],
) -> Result<MemoryFolder, AllocError> {
    let folder = MemoryFolder::new(alloc, 1)?;
    let _ = runs(rt, &folder, &init_line());
    let replaced = replace(alloc, &folder, NODE_TAPE, tape);
    match replaced {
        Ok(_) => Ok(folder),
        Err(error) => {
            drop(folder);
            Err(error)
        }
    }
}

/// What a start leaves of a tape.
fn started_tape<R: Files<File = File> + Clock + Eprint + Net + AllocGlobal>(
    rt: &R,
    alloc: Global,
    tape: &[u8],
) -> Result<Vec<u8>, AllocError> {
    let folder = made_folder(rt, alloc, tape)?;
    let _ = runs(rt, &folder, &node_line());
    let left = tape_in(alloc, &folder);
    drop(folder);
    Ok(left)
}

/// What is seen after a command that was cut within a call.
#[derive(Clone, Copy)]
enum Seen {
    /// What is to be seen.
    Right,
    /// Something else.
    Wrong,
    /// What is to be seen, of a command that makes no such call.
    Whole,
}

/// What is seen, if that is right, after a command that made the call or didn't.
fn seen_of(is_right: bool, was_cut: bool) -> Seen {
    match (is_right, was_cut) {
        (false, _) => Seen::Wrong,
        (true, true) => Seen::Right,
        (true, false) => Seen::Whole,
    }
}

/// Cuts `init` within a call: a node starts on what is left exactly where the file `farm` is there,
/// with its tape.
fn cut_init_at<R: Files<File = File> + Clock + Eprint + Net + AllocGlobal>(
    rt: &R,
    alloc: Global,
    call: usize,
    cut: Cut,
) -> Result<Seen, AllocError> {
    let folder = MemoryFolder::new(alloc, 1)?;
    let (is_ok, was_cut) = cut_within(rt, &folder, &init_line(), call, cut);
    let is_made = is_there(&folder, FileName::Farm);
    let has_tape = is_there(&folder, NODE_TAPE);
    let starts = runs(rt, &folder, &node_line());
    drop(folder);
    let is_right = starts == is_made && (is_made || !is_ok) && (has_tape || !is_made);
    Ok(seen_of(is_right, was_cut))
}

/// A tape, and what a start leaves of it.
#[derive(Clone, Copy)]
struct Started<'a> {
    tape: &'a [u8],
    left: &'a [u8],
}

/// Cuts a start on a tape within a call: the next one succeeds, and leaves of the tape what one
/// leaves that isn't cut.
fn cut_start_at<R: Files<File = File> + Clock + Eprint + Net + AllocGlobal>(
    rt: &R,
    alloc: Global,
    started: Started<'_>,
    call: usize,
    cut: Cut,
) -> Result<Seen, AllocError> {
    let folder = made_folder(rt, alloc, started.tape)?;
    let (_, was_cut) = cut_within(rt, &folder, &node_line(), call, cut);
    let starts = runs(rt, &folder, &node_line());
    let left = tape_in(alloc, &folder);
    drop(folder);
    let is_right = starts && left.as_slice() == started.left;
    drop(left);
    Ok(seen_of(is_right, was_cut))
}

/// Appends the verdict on a command that is cut so, once nothing more is to be tried after what was
/// seen within a call. Returns whether that is so.
fn verdict(call: usize, cut: Cut, seen: Seen, answer: &mut Transcript) -> bool {
    match seen {
        Seen::Right => return false,
        Seen::Whole if FEW_CALLS < call => answer.text("right"),
        Seen::Whole => answer.text("too few calls"),
        Seen::Wrong => {
            answer.text("wrong after call ");
            answer.count(call);
        }
    }
    answer.text(", ");
    answer.count(cut.kept);
    answer.text(" kept, ");
    answer.count(cut.back);
    answer.line(" back");
    true
}

/// Appends what is seen where `init` is cut so, within each of its calls.
fn try_inits<R: Files<File = File> + Clock + Eprint + Net + AllocGlobal>(
    rt: &R,
    alloc: Global,
    cut: Cut,
    answer: &mut Transcript,
) -> Result<(), AllocError> {
    for call in 1..MANY_CALLS {
        let seen = cut_init_at(rt, alloc, call, cut)?;
        if verdict(call, cut, seen, answer) {
            return Ok(());
        }
    }
    answer.line("too many calls");
    Ok(())
}

/// Appends what is seen where a start is cut so, within each of its calls.
fn try_starts<R: Files<File = File> + Clock + Eprint + Net + AllocGlobal>(
    rt: &R,
    alloc: Global,
    started: Started<'_>,
    cut: Cut,
    answer: &mut Transcript,
) -> Result<(), AllocError> {
    for call in 1..MANY_CALLS {
        let seen = cut_start_at(rt, alloc, started, call, cut)?;
        if verdict(call, cut, seen, answer) {
            return Ok(());
        }
    }
    answer.line("too many calls");
    Ok(())
}

/// `cut_init`.
pub(crate) fn cut_init<R: Files<File = File> + Clock + Eprint + Net + AllocGlobal>(
    rt: &R,
    asked: CaseInput<'_>,
    answer: &mut Transcript,
) -> Answered {
    for kept in 0..3 {
        for back in 0..2 {
            try_inits(rt, asked.alloc, Cut { kept, back }, answer)?;
        }
    }
    Ok(())
}

/// `cut_start`.
pub(crate) fn cut_start<R: Files<File = File> + Clock + Eprint + Net + AllocGlobal>(
    rt: &R,
    asked: CaseInput<'_>,
    answer: &mut Transcript,
) -> Answered {
    let left = started_tape(rt, asked.alloc, asked.input)?;
    let started = Started {
        tape: asked.input,
        left: left.as_slice(),
    };
    let tried = cut_starts(rt, asked.alloc, started, answer);
    drop(left);
    Ok(tried?)
}

/// Appends what is seen of each power cut.
fn cut_starts<R: Files<File = File> + Clock + Eprint + Net + AllocGlobal>(
    rt: &R,
    alloc: Global,
    started: Started<'_>,
    answer: &mut Transcript,
) -> Result<(), AllocError> {
    for kept in 0..2 {
        for back in 0..2 {
            try_starts(rt, alloc, started, Cut { kept, back }, answer)?;
        }
    }
    Ok(())
}

/// `started`.
pub(crate) fn left_tape<R: Files<File = File> + Clock + Eprint + Net + AllocGlobal>(
    rt: &R,
    asked: CaseInput<'_>,
    answer: &mut Transcript,
) -> Answered {
    let left = started_tape(rt, asked.alloc, asked.input)?;
    answer.bytes(left.get(TRIED_BYTES..).unwrap_or(&[]));
    drop(left);
    Ok(())
}
