//! The tapes of a folder are read before any of them is opened: none changes if one is bad, or two
//! differ.
ghost use Rattle.std.specs.Prelude.{◌≡◌, ◌≢◌, ◌+◌, ◌<◌, ◌≤◌, ◌∷◌, Some, false, true, length, IfErr, IfNone, IfOk, IfSome, OnOk};
ghost use Rattle.wf_folder.specs.Admission.{IsStart};
ghost use Rattle.wf_node.specs.Node.{stored_of};
ghost use Rattle.wf_node.specs.OpenedNode.{IsFoldOf};
ghost use Rattle.wf_serve.specs.Difference.{Agree, AgreeAt, DifferAt};
ghost use Rattle.wf_serve.specs.FailedCall.{IsCallCause, IsWhyTapeUnread};
ghost use Rattle.wf_serve.specs.TapeCheck.{AreTapesChecked, IsTapeRead};
ghost use Rattle.wf_serve.specs.LongestTape.{IsKeptOrNext, IsLongerOf, IsNextChecked, IsNextLongest, IsOneOfTwo, IsWhyDifferent, IsWhyNoNode, IsWhyNotNext, cause_of};
ghost use Rattle.wf_serve.specs.StartCause.{IsStartCause, start_cause};
ghost use Rattle.wf_store.specs.Call.{OnlyReads, read};
ghost use Rattle.wf_store.specs.declared.file_name.FileName.TheVariants.{NodeTape};

use crate::event::Cause;
use crate::survey::Survey;
use std::alloc::Global;
use wf_ballot::{NODES, NodeId, Slot};
use wf_codec::Canon;
use wf_folder::{FoundFile, Presence, Start, StartRejection, admit};
use wf_journal::OpenFault;
use wf_learner::History;
use wf_listing::MOST_TAPE_BYTES;
use wf_node::Node;
use wf_store::{FileName, Store};
use wf_tape::MemoryTape;

/// The node that has published most so far, and its number.
#[derive(Drop)]
pub(crate) struct Longest {
    number: u8,
    node: Node<MemoryTape>,
}

/// Reads the tapes of n nodes in a folder, and changes none. Err: one can't be read, holds a bad
/// record, or two hold different maps as published under one sequence; or an allocation fails. A
/// tape that isn't there holds nothing.
#[tactic(auto, using(crate::proofs::Checked::all_checked, wf_store::specs::CallTheorems::reads_both))]
pub fn check_tapes<S: Store>(
    alloc: Global,
    store: &mut S,
    n: u8,
    tapes: &[Presence],
) -> Result<(), Cause>
    requires nodes { n ≤ 64 }
    requires tapes { n ≤ length tapes.now }
    ensures checked { OnOk result
        (AreTapesChecked n tapes.now (S.calls store.old) (S.calls store.new)) }
    ensures reads { OnlyReads (S.calls store.old) (S.calls store.new) }
    ensures cause { IfErr result
        (λ cause. IsCallCause n cause (S.calls store.old) (S.calls store.new)) }
{
    let mut longest = None;
    for number in 0..n {
        match check_next(alloc, store, longest, number, n, tapes[number as usize]) {
            Ok(longer) => longest = Some(longer),
            Err(cause) => return Err(cause),
        }
    }
    drop(longest);
    Ok(())
}

/// On what the nodes of a folder's farm would start where its tapes are sound, and how many they
/// are: as many as its file says, or as there are tapes. Err: why they wouldn't.
#[tactic(auto, using(crate::proofs::Taken::start_caused))]
pub fn examine(survey: &Survey) -> Result<(u8, Start), Cause>
    requires { length survey.now.tapes ≡ 64 }
    ensures start { IfOk result (λ x. IsStart x.0 survey.now.found survey.now.tapes x.1) }
    ensures cause { IfErr result (IsStartCause survey.now) }
{
    let n = nodes_of(survey);
    match admit(n, survey.found, survey.tapes.as_slice()) {
        Ok(start) => Ok((n, start)),
        Err(why) => Err(cause_of_rejection(why)),
    }
}

/// The number of a folder's nodes, by its file, or by the tapes that are there.
fn nodes_of(survey: &Survey) -> u8
    ensures { result ≤ 64 }
{
    match survey.found {
        FoundFile::File(file) => if file.nodes <= NODES {
            file.nodes
        } else {
            NODES
        },
        FoundFile::Nothing | FoundFile::Bad(_) => count_of(survey.tapes.as_slice()),
    }
}

/// The number of tapes before the first one that isn't there, 64 at most.
fn count_of(tapes: &[Presence]) -> u8
    ensures { result ≤ 64 }
{
    let mut count = 0;
    for tape in tapes {
        if count >= NODES || !tape.is_there() {
            return count;
        }
        count += 1;
    }
    count
}

/// The cause of a rejected start.
pub(crate) fn cause_of_rejection(why: StartRejection) -> Cause
    ensures { result ≡ start_cause why }
{
    match why {
        StartRejection::BadFile(fault) => Cause::BadFile(fault),
        StartRejection::OtherNodes(nodes) => Cause::OtherNodes(nodes),
        StartRejection::SurplusTape(tape) => Cause::TapeSurplus(tape),
        StartRejection::MissingTape(tape) => Cause::TapeMissing(tape),
    }
}

/// Reads the next tape. Returns the node that has published most by then.
#[tactic(auto, using(crate::proofs::Causes::unread_tape))]
fn check_next<S: Store>(
    alloc: Global,
    store: &mut S,
    longest: Option<Longest>,
    number: u8,
    n: u8,
    presence: Presence,
) -> Result<Longest, Cause>
    requires nodes { n ≤ 64 }
    requires member { number < n }
    ensures next { IfOk result (λ longer.
        IsNextChecked presence number longest longer (S.calls store.old) (S.calls store.new)) }
    ensures reads { OnlyReads (S.calls store.old) (S.calls store.new) }
    ensures cause { IfErr result
        (λ cause. IsCallCause n cause (S.calls store.old) (S.calls store.new)) }
{
    match tape_bytes(alloc, store, number, presence) {
        Ok(bytes) => with_next(alloc, longest, bytes, number, n),
        Err(cause) => {
            drop(longest);
            Err(cause)
        }
    }
}

/// The bytes of a tape, none if it isn't there or has none.
fn tape_bytes<S: Store>(
    alloc: Global,
    store: &mut S,
    number: u8,
    presence: Presence,
) -> Result<Vec<u8>, Cause>
    ensures read { IfOk result (λ bytes.
        IsTapeRead presence number bytes.items (S.calls store.old) (S.calls store.new)) }
    ensures reads { OnlyReads (S.calls store.old) (S.calls store.new) }
    ensures cause { IfErr result
        (λ cause. IsWhyTapeUnread number cause (S.calls store.old) (S.calls store.new)) }
{
    match presence {
        Presence::Written => read_tape(store, number),
        Presence::Absent | Presence::Empty => Ok(Vec::new(alloc)),
    }
}

/// The bytes of a tape that was there.
#[tactic(auto, using(crate::proofs::Causes::too_long))]
fn read_tape<S: Store>(store: &mut S, number: u8) -> Result<Vec<u8>, Cause>
    ensures read { IfOk result (λ bytes.
        S.calls store.new ≡ read (NodeTape number) (Some bytes.items) ∷ S.calls store.old) }
    ensures reads { OnlyReads (S.calls store.old) (S.calls store.new) }
    ensures cause { IfErr result
        (λ cause. IsWhyTapeUnread number cause (S.calls store.old) (S.calls store.new)) }
{
    match store.read(FileName::NodeTape(number), MOST_TAPE_BYTES + 1) {
        Ok(Some(bytes)) if bytes.len() <= MOST_TAPE_BYTES => Ok(bytes),
        Ok(Some(bytes)) => {
            drop(bytes);
            Err(Cause::TapeTooLong(number as usize))
        }
        Ok(None) => Err(Cause::TapeVanished(number as usize)),
        Err(fault) => Err(Cause::Folder(fault)),
    }
}

/// The node that has published most, with the node of one more tape.
#[tactic(auto, using(crate::proofs::Checked::first_longest, crate::proofs::Taken::first_kept, crate::proofs::Taken::no_node_next))]
pub(crate) fn with_next(
    alloc: Global,
    longest: Option<Longest>,
    bytes: Vec<u8>,
    number: u8,
    n: u8,
) -> Result<Longest, Cause>
    requires nodes { n ≤ 64 }
    requires member { number < n }
    ensures next { IfOk result (IsNextLongest bytes.items longest) }
    ensures kept { IfOk result (IsKeptOrNext number bytes.items longest) }
    ensures cause { IfErr result (IsWhyNotNext number bytes.items longest) }
{
    match node_of(alloc, bytes, number, n) {
        Ok(node) => match longest {
            Some(longest) => longer(longest, Longest { number, node }),
            None => Ok(Longest { number, node }),
        },
        Err(cause) => {
            drop(longest);
            Err(cause)
        }
    }
}

/// The one of two nodes that has published more. Err: they have published different maps under one
/// sequence.
#[tactic(auto, using(crate::proofs::Checked::first_is_longer, crate::proofs::Checked::second_is_longer, crate::proofs::Taken::is_first, crate::proofs::Taken::is_second))]
fn longer(first: Longest, second: Longest) -> Result<Longest, Cause>
    ensures longer { IfOk result (λ longer.
        IsLongerOf (stored_of first.node) (stored_of second.node) (stored_of longer.node)) }
    ensures one { IfOk result (IsOneOfTwo first second) }
    ensures cause { IfErr result (IsWhyDifferent first.number second.number
        (stored_of first.node) (stored_of second.node)) }
{
    match first_difference(first.node.history(), second.node.history()) {
        Some(sequence) => {
            let (tape, other) = (first.number as usize, second.number as usize);
            drop(first);
            drop(second);
            Err(Cause::TapesDiffer {
                sequence: sequence.number(),
                tape,
                other,
            })
        }
        None => {
            if first.node.published().number() < second.node.published().number() {
                drop(first);
                Ok(second)
            } else {
                drop(second);
                Ok(first)
            }
        }
    }
}

/// The node of a tape with these bytes. Err: a bad record, or an allocation failed.
#[tactic(auto, using(crate::proofs::Taken::no_node))]
fn node_of(alloc: Global, bytes: Vec<u8>, number: u8, n: u8) -> Result<Node<MemoryTape>, Cause>
    requires nodes { n ≤ 64 }
    requires member { number < n }
    ensures node { IfOk result (λ node. IsFoldOf (stored_of node) bytes.items) }
    ensures cause { IfErr result (IsWhyNoNode number bytes.items) }
{
    let id = NodeId::new(number).unwrap();
    match Node::open(alloc, MemoryTape::new(bytes), id, n) {
        Ok(node) => Ok(node),
        Err((tape, fault)) => {
            drop(tape);
            Err(cause_of(number, fault))
        }
    }
}

/// Why a tape opens no node.
fn cause_of(number: u8, fault: OpenFault) -> Cause
    ensures { result ≡ cause_of number fault }
{
    let tape = number as usize;
    match fault {
        OpenFault::BadRecord(offset) => Cause::TapeBad { tape, offset },
        OpenFault::TapeFailed => Cause::TapeFailed(tape),
        OpenFault::Memory => Cause::Memory,
    }
}

/// The first sequence under which two histories have different definitions.
#[tactic(auto, using(crate::proofs::Difference::at_zero, crate::proofs::Difference::one_further, crate::proofs::Difference::all_agree))]
pub fn first_difference(first: &History, second: &History) -> Option<Slot>
    ensures some { IfSome result (DifferAt first.now.definitions second.now.definitions) }
    ensures none { IfNone result (Agree first.now.definitions second.now.definitions) }
{
    for number in 0..first.published().number() {
        if let Some(slot) = difference_at(first, second, number) {
            return Some(slot);
        }
    }
    None
}

/// The slot after this number, if two histories have different definitions there.
#[tactic(auto, using(crate::proofs::Difference::same_here, crate::proofs::Difference::other_here))]
fn difference_at(first: &History, second: &History, number: u16) -> Option<Slot>
    requires { number < 4096 }
    ensures some { IfSome result (DifferAt first.now.definitions second.now.definitions) }
    ensures none { IfNone result
        (AgreeAt first.now.definitions second.now.definitions (number + 1)) }
{
    let slot = Slot::new(number + 1).unwrap();
    match first.canon(slot) {
        Some(one) => match second.canon(slot) {
            Some(other) => if are_same(one, other) {
                None
            } else {
                Some(slot)
            },
            None => None,
        },
        None => None,
    }
}

/// Whether two maps are the same.
fn are_same(one: &Canon, other: &Canon) -> bool
    ensures same { result ≡ true → one.now ≡ other.now }
    ensures different { result ≡ false → one.now ≢ other.now }
{
    one == other
}
