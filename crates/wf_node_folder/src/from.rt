//! The tape that a new folder begins with, by `init --from`.
ghost use Rattle.std.specs.Prelude.{◌≡◌, ◌≢◌, ◌≤◌, ◌<◌, ◌↔◌, ◌++◌, Option, Some, codes, IfErr, IfNone, IfOk, IfSome, IsTrue, OnOk, map};
ghost use Rattle.std.specs.Option.{option_copied};
ghost use Rattle.std.specs.Path.{path_file_name};
ghost use Rattle.wf_journal.specs.Record.{view};
ghost use Rattle.wf_journal.specs.Records.{AreRecords};
ghost use Rattle.wf_node_folder.specs.From.{AllCanBeOf, CanBeOf, CanBeRecordsOf, MayBeFrom, IsFromFault, IsNamed, IsOfNode, IsFarmFileReadAs, IsTapeFault, IsRecordsFault, IsTapeOfNode, IsThatIfAny, CannotBeRead, IsUntried, IsUntriedIn, IsWhyNotOfNode, ballot_of, digits, from_fault_of, nodes_of, only_node, tape_name};

use crate::fault::CommandFault;
use crate::from_rejection::{Beside, FromRejection};
use crate::tape::MOST_TAPE_BYTES;
use crate::theorem::whole_records_are_bad_nowhere;
use std::alloc::Global;
use std::io::ErrorKind;
use std::path::Path;
use std::rt::Files;
use wf_ballot::{Ballot, NodeId};
use wf_folder::{FarmFile, NodeFile, after};
use wf_journal::{Journal, OpenFault, Record, records_are_read_one_way};
use wf_node::Node;
use wf_store::read_file;
use wf_tape::MemoryTape;

/// More bytes than a file `farm` has.
const MOST_FARM_BYTES: usize = 512;

/// A tape to begin with.
#[derive(Drop)]
pub(crate) struct FirstTape {
    pub(crate) bytes: Vec<u8>,
    /// Whether a file `farm` beside it says whose it is.
    pub(crate) is_known: bool,
}

/// The tape in a file, if it can be that of a node of a farm of so many: the file `farm` beside it
/// is that of a farm of as many nodes, or of this node, its folder doesn't join, the tape has the
/// name of this node's, and it promised and voted for no round of the node's own that it hadn't
/// tried. Without a file `farm` beside it its name doesn't matter. Nothing is written.
#[tactic(auto, using(crate::proofs::Own::not_from))]
pub(crate) fn tape_from<R: Files + AllocGlobal>(
    rt: &R,
    from: &str,
    id: u8,
    nodes: u8,
) -> Result<FirstTape, CommandFault>
    requires nodes { nodes ≤ 64 }
    requires member { id < nodes }
    ensures tape { IfOk result (λ tape.
        MayBeFrom (path_file_name from.now) id nodes tape.bytes.items) }
    ensures fault { IfErr result (IsFromFault from.now id nodes) }
{
    let beside = match find_beside(rt, from) {
        Ok(beside) => beside,
        Err(fault) => return Err(fault),
    };
    let name = Path::new(from).file_name();
    if let Err(why) = admit_place(&beside, name, id, nodes) {
        return Err(CommandFault::FromRejected(why));
    }
    let bytes = match read_tape(rt, from) {
        Ok(bytes) => bytes,
        Err(fault) => return Err(fault),
    };
    let id = NodeId::new(id).unwrap();
    match examine(rt.alloc(), &bytes, id, nodes) {
        Ok(()) => Ok(FirstTape {
            bytes,
            is_known: !matches!(beside, Beside::Nothing),
        }),
        Err(fault) => {
            drop(bytes);
            Err(fault)
        }
    }
}

/// The bytes of the tape in a file.
fn read_tape<R: Files + AllocGlobal>(rt: &R, from: &str) -> Result<Vec<u8>, CommandFault>
    ensures { IfErr result CannotBeRead }
{
    match read_file(rt, from, MOST_TAPE_BYTES) {
        Ok(bytes) => Ok(bytes),
        Err(error) => Err(match error.kind() {
            ErrorKind::OutOfMemory => CommandFault::Memory,
            kind => CommandFault::FromUnread(kind),
        }),
    }
}

/// What is beside a file: the file `farm`, and a file `joins`.
fn find_beside<R: Files + AllocGlobal>(rt: &R, from: &str) -> Result<Beside, CommandFault>
    ensures { IfErr result CannotBeRead }
{
    let Ok(path) = Path::new(from).with_file_name(rt.alloc(), "farm") else {
        return Err(CommandFault::Memory);
    };
    match read_file(rt, path.as_str(), MOST_FARM_BYTES) {
        Ok(bytes) => beside_in(rt, from, &bytes),
        Err(error) => match error.kind() {
            ErrorKind::NotFound => Ok(Beside::Nothing),
            ErrorKind::OutOfMemory => Err(CommandFault::Memory),
            kind => Err(CommandFault::BesideUnread(kind)),
        },
    }
}

/// What is beside a file whose file `farm` has these bytes.
fn beside_in<R: Files + AllocGlobal>(
    rt: &R,
    from: &str,
    bytes: &[u8],
) -> Result<Beside, CommandFault>
    ensures { IfErr result CannotBeRead }
{
    match has_joins(rt, from) {
        Ok(true) => Ok(Beside::Joins),
        Ok(false) => Ok(beside_of(bytes)),
        Err(fault) => Err(fault),
    }
}

/// Whether a file `joins` that isn't empty is beside a file.
fn has_joins<R: Files + AllocGlobal>(rt: &R, from: &str) -> Result<bool, CommandFault>
    ensures { IfErr result CannotBeRead }
{
    let Ok(path) = Path::new(from).with_file_name(rt.alloc(), "joins") else {
        return Err(CommandFault::Memory);
    };
    match read_file(rt, path.as_str(), 1) {
        Ok(bytes) => Ok(!bytes.is_empty()),
        Err(error) => match error.kind() {
            ErrorKind::NotFound => Ok(false),
            ErrorKind::OutOfMemory => Err(CommandFault::Memory),
            kind => Err(CommandFault::JoinsUnread(kind)),
        },
    }
}

/// What the bytes of a file `farm` say.
fn beside_of(bytes: &[u8]) -> Beside
    ensures { IsFarmFileReadAs bytes.now result }
{
    match FarmFile::read(bytes) {
        Ok(file) => Beside::Serve(file),
        Err(_) => match NodeFile::read(bytes) {
            Ok(file) => Beside::Node(file),
            Err(fault) => Beside::Bad(fault),
        },
    }
}

/// Whether a tape with this name, and with this beside it, can be that of a node of so many.
fn admit_place(beside: &Beside, name: Option<&str>, id: u8, nodes: u8) -> Result<(), FromRejection>
    requires { id < 64 }
    ensures of_node { OnOk result (IsOfNode beside.now (option_copied name.entry) id nodes) }
    ensures why { IfErr result (IsWhyNotOfNode beside.now (option_copied name.entry) id nodes) }
{
    match beside {
        Beside::Bad(fault) => return Err(FromRejection::BadFile(*fault)),
        Beside::Joins => return Err(FromRejection::Joins),
        Beside::Nothing | Beside::Serve(_) | Beside::Node(_) => {}
    }
    if let Some(found) = other_than(nodes_of(beside), nodes) {
        return Err(FromRejection::OtherNodes(found, nodes));
    }
    if let Some(found) = other_than(only_node(beside), id) {
        return Err(FromRejection::OtherNode(found, id));
    }
    if is_named(beside, name, id) {
        Ok(())
    } else {
        Err(FromRejection::OtherName(id))
    }
}

/// The number that was found, if it isn't the one that is wanted.
fn other_than(found: Option<u8>, wanted: u8) -> Option<u8>
    ensures none { IfNone result (IsThatIfAny found wanted) }
    ensures some { IfSome result (λ other. (found ≡ Some other) × (other ≢ wanted)) }
{
    match found {
        Some(other) if other != wanted => Some(other),
        _ => None,
    }
}

/// The number of nodes that the file says, if there is one that can be read.
fn nodes_of(beside: &Beside) -> Option<u8>
    ensures { result ≡ nodes_of beside.now }
{
    match beside {
        Beside::Serve(file) => Some(file.nodes),
        Beside::Node(file) => Some(file.nodes),
        Beside::Nothing | Beside::Joins | Beside::Bad(_) => None,
    }
}

/// The node that uses the folder, if it is one alone.
fn only_node(beside: &Beside) -> Option<u8>
    ensures { result ≡ only_node beside.now }
{
    match beside {
        Beside::Node(file) => Some(file.node),
        Beside::Nothing | Beside::Serve(_) | Beside::Joins | Beside::Bad(_) => None,
    }
}

/// Whether a tape's name is that of this node's, which it has to be beside a file `farm`.
fn is_named(beside: &Beside, name: Option<&str>, id: u8) -> bool
    requires { id < 64 }
    ensures { IsTrue result ↔ IsNamed beside.now (option_copied name.entry) id }
{
    match beside {
        Beside::Nothing => true,
        Beside::Serve(_) | Beside::Node(_) | Beside::Joins | Beside::Bad(_) => {
            is_tape_name(name, id)
        }
    }
}

/// Whether it is the name of this node's tape.
fn is_tape_name(name: Option<&str>, id: u8) -> bool
    requires { id < 64 }
    ensures { IsTrue result ↔ (option_copied name.entry ≡ Some (tape_name id)) }
{
    match name {
        Some(name) => is_name(name.as_bytes(), id),
        None => false,
    }
}

/// Whether the text is the name of this node's tape.
#[tactic(auto, unfolding(crate::specs::From::tape_name))]
fn is_name(name: &[u8], id: u8) -> bool
    requires { id < 64 }
    ensures { IsTrue result ↔ (name.now ≡ tape_name id) }
{
    match after(name, b"node-") {
        Some(rest) => is_number_and_end(rest, id),
        None => false,
    }
}

/// Whether the text is the node's number and the end of a tape's name.
fn is_number_and_end(rest: &[u8], id: u8) -> bool
    requires { id < 64 }
    ensures { IsTrue result ↔ (rest.now ≡ digits id ++ codes ".tape") }
{
    if id < 10 {
        rest == [b'0' + id, b'.', b't', b'a', b'p', b'e'].as_slice()
    } else {
        rest == [b'0' + id / 10, b'0' + id % 10, b'.', b't', b'a', b'p', b'e'].as_slice()
    }
}

/// Whether a node opens on a tape of these bytes, and can be this one by its records. It is opened
/// on a copy.
#[tactic(auto, using(crate::proofs::Own::bad_bytes, crate::proofs::Own::tape_fault))]
fn examine(alloc: Global, bytes: &[u8], id: NodeId, n: u8) -> Result<(), CommandFault>
    requires nodes { n ≤ 64 }
    requires member { id < n }
    ensures own { OnOk result (IsTapeOfNode id bytes.now) }
    ensures fault { IfErr result (IsTapeFault id bytes.now) }
{
    let Ok(copy) = Vec::from_slice(alloc, bytes) else {
        return Err(CommandFault::Memory);
    };
    match Journal::open(alloc, MemoryTape::new(copy)) {
        Ok((journal, records)) => {
            let examined = examine_records(alloc, journal.close(), &records, id, n);
            drop(records);
            examined
        }
        Err((tape, fault)) => {
            drop(tape);
            Err(from_fault(fault))
        }
    }
}

/// Whether a node opens on a tape that has these records, and can be this one by them.
#[tactic(auto, using(crate::proofs::Own::bad_records))]
fn examine_records(
    alloc: Global,
    tape: MemoryTape,
    records: &[Record],
    id: NodeId,
    n: u8,
) -> Result<(), CommandFault>
    requires nodes { n ≤ 64 }
    requires member { id < n }
    requires holds { AreRecords tape.bytes (map view records.now) }
    ensures own { OnOk result (CanBeRecordsOf id (map view records.now)) }
    ensures fault { IfErr result (IsRecordsFault id (map view records.now)) }
{
    // Bytes are read as one list of records at most.
    records_are_read_one_way();
    whole_records_are_bad_nowhere();
    match Node::open(alloc, tape, id, n) {
        Ok(node) => {
            let tried = node.last_round();
            drop(node);
            match first_untried(records, id, tried) {
                Some(round) => Err(CommandFault::FromRejected(FromRejection::Untried(
                    round, tried,
                ))),
                None => Ok(()),
            }
        }
        Err((tape, fault)) => {
            drop(tape);
            Err(from_fault(fault))
        }
    }
}

/// The round of the first promise or vote for a round of the node's own that is above what it
/// tried.
fn first_untried(records: &[Record], id: NodeId, tried: u32) -> Option<u32>
    ensures none { IfNone result (AllCanBeOf id tried (map view records.now)) }
    ensures some { IfSome result (λ round. IsUntriedIn id tried round (map view records.now)) }
{
    for entry in records {
        if let Some(round) = untried_round(entry, id, tried) {
            return Some(round);
        }
    }
    None
}

/// The round of a promise or a vote, if it is one of the node's own that is above what it tried.
fn untried_round(entry: &Record, id: NodeId, tried: u32) -> Option<u32>
    ensures none { IfNone result (CanBeOf id tried (view entry.now)) }
    ensures some { IfSome result (λ round. IsUntried id tried round (view entry.now)) }
{
    match ballot_of(entry) {
        Some(ballot) if ballot.node() == id && tried < ballot.round() => Some(ballot.round()),
        _ => None,
    }
}

/// The ballot of a promise or a vote.
fn ballot_of(entry: &Record) -> Option<Ballot>
    ensures { result ≡ ballot_of (view entry.now) }
{
    match entry {
        Record::Promised(_, ballot) | Record::Accepted(_, ballot, _) => Some(*ballot),
        Record::Tried(_) | Record::Published(..) => None,
    }
}

/// The error of a tape in memory that doesn't open.
fn from_fault(fault: OpenFault) -> CommandFault
    ensures { result ≡ from_fault_of fault }
{
    match fault {
        OpenFault::BadRecord(offset) => CommandFault::FromBad(offset),
        OpenFault::TapeFailed | OpenFault::Memory => CommandFault::Memory,
    }
}
