//! The text of a node's file `farm` is read.
ghost use Rattle.std.specs.Prelude.{◌≡◌, ◌≢◌, ◌<◌, ◌+◌, ◌/◌, ◌%◌, ◌^◌, ◌++◌, ℕ, List, Option, None, Some, length, IfErr, IfOk, IfNone, IfSome, IsErrOf};
ghost use Rattle.hex.specs.Hex.{IsBytes};
ghost use Rattle.wf_folder.specs.FarmFile.{IsNumberOfNodes, first_line};
ghost use Rattle.wf_folder.specs.Name.{IsFarmName};
ghost use Rattle.wf_folder.specs.NodeFile.{IsNodeFile, IsOldFile, IsTextOf, farm_and_mark, farm_line, kind_node_line, known_then, node_fields, node_first_line, node_line, numbers_then, old_node_fields, starts_line, suspended_then};
ghost use Rattle.wf_folder.specs.Reach.{IsKnown};
ghost use Rattle.wf_folder.specs.Suspension.{IsSuspension, IsSuspensionOrNone};
ghost use Rattle.wf_folder.specs.declared.node_file.NodeFile.{NodeFile};
ghost use Rattle.wf_folder.specs.declared.reach.Known.{Known as KnownValue};
ghost use Rattle.wf_folder.specs.declared.suspension.Suspension.{Suspension as SuspensionValue};

use crate::digest::split_digest;
use crate::farm_file::FIRST_LINE;
use crate::fault::NodeFileFault;
use crate::name::FarmName;
use crate::node_file::{NODE_FIRST_LINE, NODE_LINE, NodeFile, nothing_known};
use crate::number::split_number;
use crate::reach::Known;
use crate::reader::{after, before, read_mark, read_nodes};
use crate::suspension::{PeerAddress, Suspension};
use crate::word_reader::{node_of, split_named, split_reach, split_word};

/// The number of bytes of the line with the mark.
const MARK_LINE: usize = 38;

impl NodeFile {
    /// The file with this text, also of version 1, of which nothing is known. Err: the bytes aren't
    /// the text of any.
    pub fn read(bytes: &[u8]) -> Result<NodeFile, NodeFileFault>
        ensures file { IfOk result IsNodeFile }
        ensures text { IfOk result (IsTextOf bytes.now) }
        ensures none { IfErr result (λ _. (file : NodeFile) → IsNodeFile file →
            ¬ IsTextOf bytes.now file) }
        ensures version { IsErrOf result NodeFileFault.Version → (rest : List ℕ) →
            (bytes.now ≢ node_first_line ++ rest) × (bytes.now ≢ first_line ++ rest) }
        ensures kind { IsErrOf result NodeFileFault.Kind → (rest : List ℕ) →
            (bytes.now ≢ node_first_line ++ (kind_node_line ++ rest))
            × (bytes.now ≢ first_line ++ (kind_node_line ++ rest)) }
    {
        if let Some(rest) = after(bytes, NODE_FIRST_LINE) {
            return match read_kind(rest) {
                Ok(file) => Ok(file),
                Err(fault) => Err(fault),
            };
        }
        let Some(rest) = after(bytes, FIRST_LINE) else {
            return Err(NodeFileFault::Version);
        };
        match read_old_kind(rest) {
            Ok(file) => Ok(file),
            Err(fault) => Err(fault),
        }
    }
}

/// The file whose text goes on so after its first line.
fn read_kind(bytes: &[u8]) -> Result<NodeFile, NodeFileFault>
    ensures file { IfOk result IsNodeFile }
    ensures text { IfOk result (λ file. bytes.now ≡ kind_node_line ++ node_fields file) }
    ensures none { IfErr result (λ _. (file : NodeFile) → IsNodeFile file →
        bytes.now ≢ kind_node_line ++ node_fields file) }
    ensures version { ¬ IsErrOf result NodeFileFault.Version }
    ensures kind { IsErrOf result NodeFileFault.Kind → (rest : List ℕ) →
        bytes.now ≢ kind_node_line ++ rest }
{
    let Some(rest) = after(bytes, NODE_LINE) else {
        return Err(NodeFileFault::Kind);
    };
    match read_fields(rest) {
        Some(file) => Ok(file),
        None => Err(NodeFileFault::Malformed),
    }
}

/// The file whose text of version 1 goes on so after its first line.
fn read_old_kind(bytes: &[u8]) -> Result<NodeFile, NodeFileFault>
    ensures file { IfOk result IsNodeFile }
    ensures old { IfOk result IsOldFile }
    ensures text { IfOk result (λ file. bytes.now ≡ kind_node_line ++ old_node_fields file) }
    ensures none { IfErr result (λ _. (file : NodeFile) → IsNodeFile file →
        bytes.now ≢ kind_node_line ++ old_node_fields file) }
    ensures version { ¬ IsErrOf result NodeFileFault.Version }
    ensures kind { IsErrOf result NodeFileFault.Kind → (rest : List ℕ) →
        bytes.now ≢ kind_node_line ++ rest }
{
    let Some(rest) = after(bytes, NODE_LINE) else {
        return Err(NodeFileFault::Kind);
    };
    match read_old_fields(rest) {
        Some(file) => Ok(file),
        None => Err(NodeFileFault::Malformed),
    }
}

/// The file whose text ends so, after the line of its kind.
fn read_fields(bytes: &[u8]) -> Option<NodeFile>
    ensures file { IfSome result IsNodeFile }
    ensures some { IfSome result (λ file. bytes.now ≡ node_fields file) }
    ensures none { IfNone result ((file : NodeFile) → IsNodeFile file →
        bytes.now ≢ node_fields file) }
{
    let Some((node, nodes, starts, rest)) = read_numbers(bytes) else {
        return None;
    };
    let Some((known, rest)) = split_known(rest) else {
        return None;
    };
    let (suspension, rest) = split_any_suspension(rest);
    let (farm, mark) = read_farm_and_mark(rest)?;
    Some(NodeFile {
        node,
        nodes,
        starts,
        known,
        suspension,
        farm,
        mark,
    })
}

/// The file whose text of version 1 ends so, after the line of its kind.
fn read_old_fields(bytes: &[u8]) -> Option<NodeFile>
    ensures file { IfSome result IsNodeFile }
    ensures old { IfSome result IsOldFile }
    ensures some { IfSome result (λ file. bytes.now ≡ old_node_fields file) }
    ensures none { IfNone result ((file : NodeFile) → IsNodeFile file →
        bytes.now ≢ old_node_fields file) }
{
    let Some((node, nodes, starts, rest)) = read_numbers(bytes) else {
        return None;
    };
    let (farm, mark) = read_farm_and_mark(rest)?;
    let known = nothing_known();
    Some(NodeFile {
        node,
        nodes,
        starts,
        known,
        suspension: None,
        farm,
        mark,
    })
}

/// The node, the number of nodes and the number of starts that bytes begin with, and what follows
/// them.
#[tactic(auto, using(crate::proofs::Lines::same_node, crate::proofs::Lines::after_node, crate::proofs::Lines::same_nodes, crate::proofs::Lines::after_nodes))]
fn read_numbers(bytes: &[u8]) -> Option<(u8, u8, u32, &[u8])>
    ensures nodes { IfSome result (λ x. IsNumberOfNodes x.1) }
    ensures node { IfSome result (λ x. x.0 < x.1) }
    ensures starts { IfSome result (λ x. x.2 < 2 ^ 32) }
    ensures some { IfSome result (λ x. bytes.now ≡ numbers_then x.0 x.1 x.2 x.3.now) }
    ensures none { IfNone result ((node nodes starts : ℕ) (rest : List ℕ) → IsNumberOfNodes nodes →
        node < nodes → starts < 2 ^ 32 → bytes.now ≢ numbers_then node nodes starts rest) }
{
    let (node, rest) = read_node(bytes)?;
    let (nodes, rest) = read_nodes(rest)?;
    let (starts, rest) = read_starts(rest)?;
    if node < nodes {
        Some((node, nodes, starts, rest))
    } else {
        None
    }
}

/// The number of the node, and what follows that line.
fn read_node(bytes: &[u8]) -> Option<(u8, &[u8])>
    ensures some { IfSome result (λ x. bytes.now ≡ node_line x.0 ++ x.1.now) }
    ensures none { IfNone result ((node : ℕ) (rest : List ℕ) → node < 64 →
        bytes.now ≢ node_line node ++ rest) }
{
    match after(bytes, b"node ")? {
        [tens, ones, b'\n', rest @ ..] => {
            let node = node_with(*tens, *ones)?;
            Some((node, rest))
        }
        _ => None,
    }
}

/// The number of the node with these digits.
fn node_with(tens: u8, ones: u8) -> Option<u8>
    ensures some { IfSome result (λ n. (tens ≡ 48 + n / 10) × (ones ≡ 48 + n % 10)) }
    ensures none { IfNone result ((n : ℕ) → n < 64 → tens ≡ 48 + n / 10 → ones ≢ 48 + n % 10) }
{
    if tens.is_ascii_digit() && ones.is_ascii_digit() {
        Some((tens - b'0') * 10 + (ones - b'0'))
    } else {
        None
    }
}

/// The number of starts, and what follows it.
fn read_starts(bytes: &[u8]) -> Option<(u32, &[u8])>
    ensures some { IfSome result (λ x. bytes.now ≡ starts_line x.0 ++ x.1.now) }
    ensures none { IfNone result ((starts : ℕ) (rest : List ℕ) → starts < 2 ^ 32 →
        bytes.now ≢ starts_line starts ++ rest) }
{
    split_number(after(bytes, b"starts ")?)
}

/// What is known by the line that bytes begin with, and what follows it.
fn split_known(bytes: &[u8]) -> Option<(Known, &[u8])>
    ensures known { IfSome result (λ x. IsKnown x.0) }
    ensures some { IfSome result (λ x. bytes.now ≡ known_then x.0 x.1.now) }
    ensures none { IfNone result ((k : KnownValue) (rest : List ℕ) → IsKnown k →
        bytes.now ≢ known_then k rest) }
{
    let rest = after(bytes, b"\nknown")?;
    let Some((reach, rest)) = split_reach(rest) else {
        return None;
    };
    let rest = after(rest, b" digest ")?;
    let (digest, rest) = split_digest(rest)?;
    Some((Known { reach, digest }, rest))
}

/// Who suspended the node, if the bytes begin with that line, and what follows it.
#[tactic(auto, unfolding(crate::specs::NodeFile::suspended_then))]
fn split_any_suspension(bytes: &[u8]) -> (Option<Suspension>, &[u8])
    ensures suspension { IsSuspensionOrNone result.0 }
    ensures some { bytes.now ≡ suspended_then result.0 result.1.now }
    ensures none { result.0 ≡ None → (s : SuspensionValue) (rest : List ℕ) → IsSuspension s →
        bytes.now ≢ suspended_then (Some s) rest }
{
    match split_suspension(bytes) {
        Some((suspension, rest)) => (Some(suspension), rest),
        None => (None, bytes),
    }
}

/// Who suspended the node by the line that bytes begin with, and what follows it.
fn split_suspension(bytes: &[u8]) -> Option<(Suspension, &[u8])>
    ensures suspension { IfSome result (λ x. IsSuspension x.0) }
    ensures some { IfSome result (λ x. bytes.now ≡ suspended_then (Some x.0) x.1.now) }
    ensures none { IfNone result ((s : SuspensionValue) (rest : List ℕ) → IsSuspension s →
        bytes.now ≢ suspended_then (Some s) rest) }
{
    let (accuser, rest) = split_word(bytes, b"\nsuspended by ")?;
    let (ip, rest) = split_named(rest, b" at ")?;
    let (port, rest) = split_word(rest, b" port ")?;
    let (cause, rest) = split_word(rest, b" cause ")?;
    match suspension_of(accuser, ip, port, cause) {
        Some(suspension) => Some((suspension, rest)),
        None => None,
    }
}

/// The suspension with these numbers, if they are in their ranges.
fn suspension_of(accuser: u32, ip: [u8; 16], port: u32, cause: u32) -> Option<Suspension>
    ensures suspension { IfSome result IsSuspension }
    ensures some { IfSome result (λ s. (s.accuser ≡ accuser) × (s.address.ip ≡ ip)
        × (s.address.port ≡ port) × (s.cause ≡ cause)) }
    ensures none { IfNone result ((s : SuspensionValue) → IsSuspension s → s.accuser ≡ accuser →
        s.address.port ≡ port → s.cause ≢ cause) }
{
    let accuser = node_of(accuser)?;
    let Ok(port) = u16::try_from(port) else {
        return None;
    };
    let Ok(cause) = u8::try_from(cause) else {
        return None;
    };
    Some(Suspension {
        accuser,
        address: PeerAddress { ip, port },
        cause,
    })
}

/// The farm's name and the mark, if bytes are their lines.
#[tactic(auto, using(crate::proofs::Lines::lines_fit, crate::proofs::Lines::farm_before, crate::proofs::Lines::mark_after))]
fn read_farm_and_mark(bytes: &[u8]) -> Option<(FarmName, [u8; 16])>
    ensures mark { IfSome result (λ x. IsFarmName x.0 × IsBytes x.1 × (length x.1 ≡ 16)) }
    ensures some { IfSome result (λ x. bytes.now ≡ farm_and_mark x.0 x.1) }
    ensures none { IfNone result ((name mark : List ℕ) → IsFarmName name → IsBytes mark →
        length mark ≡ 16 → bytes.now ≢ farm_and_mark name mark) }
{
    let (front, end) = bytes.split_at(bytes.len().checked_sub(MARK_LINE)?);
    let farm = read_farm(front)?;
    match read_mark(end) {
        Some(mark) => Some((farm, mark)),
        None => None,
    }
}

/// The farm's name, if bytes are its line, and the end of the one before.
#[tactic(auto, using(crate::proofs::Names::name_again, crate::proofs::Names::padded_is_name))]
fn read_farm(bytes: &[u8]) -> Option<FarmName>
    ensures name { IfSome result IsFarmName }
    ensures some { IfSome result (λ name. bytes.now ≡ farm_line name) }
    ensures none { IfNone result ((name : List ℕ) → IsFarmName name → bytes.now ≢ farm_line name) }
{
    let text = before(after(bytes, b"\nfarm ")?, b"\n")?;
    match FarmName::new(text) {
        Some(name) => Some(name),
        None => None,
    }
}
