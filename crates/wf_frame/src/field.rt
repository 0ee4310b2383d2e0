//! The bytes of a body's fields of fixed length, one after the other.

ghost use Rattle.std.specs.Prelude.{◌≡◌, ◌+◌, ◌≤◌, ◌++◌, length};
ghost use Rattle.arrayvec.specs.ArrayVec.{array_vec_len};
ghost use Rattle.wf_ballot.specs.Ballot.{IsBallot, ballot_bytes, round_bytes, IsRound};
ghost use Rattle.wf_ballot.specs.Node.{IsNode, node_bytes};
ghost use Rattle.wf_ballot.specs.Sequence.{seq_bytes, IsSlot};

use arrayvec::ArrayVec;
use wf_ballot::{Ballot, NodeId, Round, Slot};

/// The most bytes of the fields of a body: those of a node, a slot and two ballots.
pub const MOST_FIELD_BYTES: usize = 13;

/// The bytes of fields.
pub type FieldBytes = ArrayVec<u8, MOST_FIELD_BYTES>;

/// Appends a node, for which there is room. Its number is in its range, as its type says.
pub fn put_node(fields: &mut FieldBytes, node: NodeId)
    requires { array_vec_len fields.old + 1 ≤ 13 }
    ensures items { fields.new.items ≡ fields.old.items ++ node_bytes node }
    ensures len { array_vec_len fields.new ≡ array_vec_len fields.old + 1 }
    ensures in_range { IsNode node }
{
    let _ = node.number();
    append(fields, &node.bytes());
}

/// Appends a slot, for which there is room. Its number is in its range, as its type says.
pub fn put_slot(fields: &mut FieldBytes, slot: Slot)
    requires { array_vec_len fields.old + 2 ≤ 13 }
    ensures items { fields.new.items ≡ fields.old.items ++ seq_bytes slot }
    ensures len { array_vec_len fields.new ≡ array_vec_len fields.old + 2 }
    ensures in_range { IsSlot slot }
{
    slot_in_range(slot);
    append(fields, &slot.bytes());
}

/// Appends a round, for which there is room. Its number is in its range, as its type says.
pub fn put_round(fields: &mut FieldBytes, round: Round)
    requires { array_vec_len fields.old + 4 ≤ 13 }
    ensures items { fields.new.items ≡ fields.old.items ++ round_bytes round }
    ensures len { array_vec_len fields.new ≡ array_vec_len fields.old + 4 }
    ensures in_range { IsRound round }
{
    let _ = round.number();
    append(fields, &round.bytes());
}

/// Appends a ballot, for which there is room. Its round and its node are in their ranges, as its
/// type says.
pub fn put_ballot(fields: &mut FieldBytes, ballot: Ballot)
    requires { array_vec_len fields.old + 5 ≤ 13 }
    ensures items { fields.new.items ≡ fields.old.items ++ ballot_bytes ballot }
    ensures len { array_vec_len fields.new ≡ array_vec_len fields.old + 5 }
    ensures in_range { IsBallot ballot }
{
    ballot_in_range(ballot);
    append(fields, &ballot.bytes());
}

/// Appends bytes for which there is room.
fn append(fields: &mut FieldBytes, bytes: &[u8])
    requires { array_vec_len fields.old + length bytes.now ≤ 13 }
    ensures items { fields.new.items ≡ fields.old.items ++ bytes.now }
    ensures len { array_vec_len fields.new ≡ array_vec_len fields.old + length bytes.now }
{
    fields.try_extend_from_slice(bytes).unwrap();
}

/// The slot's number is in its range, since its type says so: the call does nothing, and its
/// contract tells it.
pub fn slot_in_range(slot: Slot)
    ensures { IsSlot slot }
{
    let _ = slot.seq();
}

/// The ballot's round and node are in their ranges, since their types say so: the call does
/// nothing, and its contract tells it.
pub fn ballot_in_range(ballot: Ballot)
    ensures { IsBallot ballot }
{
    let _ = ballot.round();
}
