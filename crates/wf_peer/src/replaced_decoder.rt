//! What a greeting tells of replacements, out of bytes.
ghost use Rattle.std.specs.Prelude.{◌≡◌, ◌≢◌, ◌+◌, ◌*◌, ◌<◌, ◌≤◌, ◌++◌, ℕ, List, Option, None, Some, Ok, Err, get_or, length, IfNone, IfOk, IfSome, IsErrOf};
ghost use Rattle.std.specs.Int.{w32, to_be_bytes};
ghost use Rattle.wf_ballot.specs.Sequence.{IsSequence, seq_bytes};
ghost use Rattle.wf_peer.specs.Greeting.{AreTold, AreToldOrNone, IsToldOrNone, IsToldReplacement, entries_from, entry_then, told_after, told_bytes, told_length};
ghost use Rattle.wf_peer.specs.ToldEntries.{ReadsEntries, StartsWith};
ghost use Rattle.wf_rejoin.specs.Replacements.{known_count};
ghost use Rattle.wf_rejoin.specs.declared.replacement.Replacement.{Replacement as ReplacementValue};

use crate::decoder::{array, number_of};
use crate::encoder::ENTRY;
use crate::fault::GreetingFault;
use wf_ballot::{NODES, Seq};
use wf_rejoin::{Replacement, Replacements};

/// What is told, with whose bytes these begin.
pub(crate) fn decode_told(bytes: &[u8]) -> Result<(Replacements, Seq), GreetingFault>
    ensures told { IfOk result (λ x. AreTold x.0 x.1) }
    ensures front { IfOk result (λ x. (rest : List ℕ) × (bytes.now ≡ told_bytes x.0 x.1 ++ rest)) }
    ensures each { (known : List (Option ReplacementValue)) (voted : ℕ) (rest : List ℕ) →
        AreTold known voted → bytes.now ≡ told_bytes known voted ++ rest →
        result ≡ Ok (known, voted) }
    ensures short { IsErrOf result GreetingFault.Short →
        length bytes.now < 1 + told_length (get_or bytes.now 0 0) }
    ensures begins { (known : List (Option ReplacementValue)) (voted : ℕ) (more : List ℕ) →
        AreTold known voted → 0 < length more → bytes.now ++ more ≡ told_bytes known voted →
        result ≡ Err GreetingFault.Short }
{
    match bytes.split_first() {
        None => Err(GreetingFault::Short),
        Some((count, rest)) => match decode_counted(*count, rest) {
            Ok(told) => Ok(told),
            Err(fault) => Err(fault),
        },
    }
}

/// What is told of so many replacements, with whose bytes after this number these begin.
#[tactic(auto, using(crate::proofs::ToldReplacements::nothing_told, crate::proofs::ToldReplacements::length_some))]
fn decode_counted(count: u8, bytes: &[u8]) -> Result<(Replacements, Seq), GreetingFault>
    ensures told { IfOk result (λ x. AreTold x.0 x.1) }
    ensures count { IfOk result (λ x. known_count x.0 ≡ count) }
    ensures front { IfOk result (λ x. (rest : List ℕ)
        × (bytes.now ≡ told_after count x.0 x.1 ++ rest)) }
    ensures each { (known : List (Option ReplacementValue)) (voted : ℕ) (rest : List ℕ) →
        AreTold known voted → known_count known ≡ count →
        bytes.now ≡ told_after count known voted ++ rest → result ≡ Ok (known, voted) }
    ensures short { IsErrOf result GreetingFault.Short → length bytes.now < told_length count }
    ensures begins { (known : List (Option ReplacementValue)) (voted : ℕ) (more : List ℕ) →
        AreTold known voted → known_count known ≡ count → 0 < length more →
        bytes.now ++ more ≡ told_after count known voted → result ≡ Err GreetingFault.Short }
{
    if count == 0 {
        return Ok((Replacements::new(), Seq::new(0).unwrap()));
    }
    if count > NODES {
        return Err(GreetingFault::Malformed);
    }
    let size = ENTRY * usize::from(count);
    if bytes.len() < size + 2 {
        return Err(GreetingFault::Short);
    }
    match told_of(size, bytes) {
        Some(told) => Ok(told),
        None => Err(GreetingFault::Malformed),
    }
}

/// What is told by the first bytes of these, of which `size` are those of replacements.
fn told_of(size: usize, bytes: &[u8]) -> Option<(Replacements, Seq)>
    requires { size + 2 ≤ length bytes.now }
    ensures size { IfSome result (λ x. 21 * known_count x.0 ≡ size) }
    ensures replacements { IfSome result (λ x. (length x.0 ≡ 64) × AreToldOrNone x.0) }
    ensures sequence { IfSome result (λ x. IsSequence x.1) }
    ensures front { IfSome result (λ x. (rest : List ℕ)
        × (bytes.now ≡ (entries_from 0 x.0 ++ seq_bytes x.1) ++ rest)) }
    ensures each { (known : List (Option ReplacementValue)) (voted : ℕ) (rest : List ℕ) →
        length known ≡ 64 → AreToldOrNone known → IsSequence voted → 21 * known_count known ≡ size →
        bytes.now ≡ (entries_from 0 known ++ seq_bytes voted) ++ rest →
        result ≡ Some (known, voted) }
{
    let (entries, rest) = bytes.split_at(size);
    let (voted, _) = rest.split_at(2);
    let Some(replacements) = replacements_of(entries) else {
        return None;
    };
    match Seq::from_bytes(voted) {
        Some(voted) => Some((replacements, voted)),
        None => None,
    }
}

/// The replacements with these bytes.
fn replacements_of(bytes: &[u8]) -> Option<Replacements>
    ensures told { IfSome result (λ known. (length known ≡ 64) × AreToldOrNone known) }
    ensures some { IfSome result (λ known. bytes.now ≡ entries_from 0 known) }
    ensures each { (known : List (Option ReplacementValue)) → length known ≡ 64 →
        AreToldOrNone known → bytes.now ≡ entries_from 0 known → result ≡ Some known }
{
    let mut nodes = [None; 64];
    if read_entries(bytes, &mut nodes) {
        Some(Replacements::of(nodes))
    } else {
        None
    }
}

/// Reads the replacements of the last nodes, and nothing is to follow. Whether the bytes are those
/// of any.
fn read_entries(bytes: &[u8], nodes: &mut [Option<Replacement>]) -> bool
    requires { length nodes.old ≤ 64 }
    ensures { ReadsEntries bytes.now (length nodes.old) nodes.new result }
{
    let node = (64 - nodes.len()) as u8;
    let Some((latest, others)) = nodes.split_first_mut() else {
        return bytes.is_empty();
    };
    let Some((told, rest)) = split_entry(node, bytes) else {
        return false;
    };
    *latest = told;
    read_entries(rest, others)
}

/// The replacement of this node, if bytes begin with one, and what follows it. None: they begin
/// with its number and are none.
#[tactic(auto, unfolding(crate::specs::Greeting::entry_then))]
fn split_entry(node: u8, bytes: &[u8]) -> Option<(Option<Replacement>, &[u8])>
    ensures told { IfSome result (λ x. IsToldOrNone x.0) }
    ensures some { IfSome result (λ x. bytes.now ≡ entry_then node x.0 x.1.now) }
    ensures other { IfSome result (λ x. x.0 ≡ None → ¬ StartsWith node bytes.now) }
    ensures none { IfNone result ((x : Option ReplacementValue) (rest : List ℕ) → IsToldOrNone x →
        ¬ StartsWith node rest → bytes.now ≢ entry_then node x rest) }
{
    match bytes.split_first() {
        Some((first, rest)) if *first == node => match split_replacement(rest) {
            Some((replacement, rest)) => Some((Some(replacement), rest)),
            None => None,
        },
        _ => Some((None, bytes)),
    }
}

/// The replacement that bytes begin with, and what follows it.
fn split_replacement(bytes: &[u8]) -> Option<(Replacement, &[u8])>
    ensures told { IfSome result (λ x. IsToldReplacement x.0) }
    ensures some { IfSome result (λ x. bytes.now ≡
        to_be_bytes w32 x.0.count ++ (x.0.mark ++ x.1.now)) }
    ensures none { IfNone result ((r : ReplacementValue) (rest : List ℕ) → IsToldReplacement r →
        bytes.now ≢ to_be_bytes w32 r.count ++ (r.mark ++ rest)) }
{
    if bytes.len() < ENTRY - 1 {
        return None;
    }
    let (count, rest) = bytes.split_at(4);
    let (mark, rest) = rest.split_at(16);
    let count = number_of(count);
    if count == 0 {
        return None;
    }
    Some((
        Replacement {
            count,
            mark: array(mark),
        },
        rest,
    ))
}
