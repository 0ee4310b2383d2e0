ghost use Rattle.std.specs.Prelude.{◌≡◌, IfSome};
ghost use Rattle.wf_ballot.specs.Node.{IsNode};
ghost use Rattle.wf_ballot.specs.Sequence.{IsSlot};
ghost use Rattle.wf_ballot.specs.Ballot.{IsBallot, IsRound};
ghost use Rattle.std.specs.Option.{option_map};
ghost use Rattle.wf_ballot.specs.Front.{front_node, front_slot, front_round, front_ballot, FieldsAreRead};
ghost use Rattle.wf_ballot.specs.Field.{FieldLengths, FieldsAreDistinct};

use crate::ballot::Ballot;
use crate::node::NodeId;
use crate::round::Round;
use crate::slot::Slot;

/// A node has 1 byte in messages and records, a sequence 2, a round 4 and a ballot 5. A theorem
/// about the definitions: the call does nothing.
pub fn field_lengths()
    ensures { FieldLengths }
{}

/// A field's bytes determine its value, whatever follows them. A theorem about the definitions: the
/// call does nothing.
pub fn fields_are_distinct()
    ensures { FieldsAreDistinct }
{}

/// The node at the front of the bytes, and the bytes after it; None if there is none.
#[tactic(auto, unfolding(crate::specs::Front::front_node))]
pub fn split_node(bytes: &[u8]) -> Option<(NodeId, &[u8])>
    ensures value { option_map (λ x. (x.0, x.1.now)) result ≡ front_node bytes.now }
    ensures in_range { IfSome result (λ x. IsNode x.0) }
{
    let (number, rest) = bytes.split_first()?;
    let node = NodeId::new(*number)?;
    Some((node, rest))
}

/// The slot at the front of the bytes, and the bytes after it; None if there is none.
#[tactic(auto, unfolding(crate::specs::Front::front_slot))]
pub fn split_slot(bytes: &[u8]) -> Option<(Slot, &[u8])>
    ensures value { option_map (λ x. (x.0, x.1.now)) result ≡ front_slot bytes.now }
    ensures in_range { IfSome result (λ x. IsSlot x.0) }
{
    match bytes {
        [a, b, rest @ ..] => {
            let slot = Slot::new(u16::from_be_bytes([*a, *b]))?;
            Some((slot, rest))
        }
        _ => None,
    }
}

/// The round at the front of the bytes, and the bytes after it; None if there is none.
#[tactic(auto, unfolding(crate::specs::Front::front_round))]
pub fn split_round(bytes: &[u8]) -> Option<(Round, &[u8])>
    ensures value { option_map (λ x. (x.0, x.1.now)) result ≡ front_round bytes.now }
    ensures in_range { IfSome result (λ x. IsRound x.0) }
{
    match bytes {
        [a, b, c, d, rest @ ..] => {
            let round = Round::new(u32::from_be_bytes([*a, *b, *c, *d]))?;
            Some((round, rest))
        }
        _ => None,
    }
}

/// The ballot at the front of the bytes, and the bytes after it; None if there is none.
#[tactic(auto, unfolding(crate::specs::Front::front_ballot))]
pub fn split_ballot(bytes: &[u8]) -> Option<(Ballot, &[u8])>
    ensures value { option_map (λ x. (x.0, x.1.now)) result ≡ front_ballot bytes.now }
    ensures in_range { IfSome result (λ x. IsBallot x.0) }
{
    match bytes {
        [a, b, c, d, node, rest @ ..] => {
            let node = NodeId::new(*node)?;
            let ballot = Ballot::new(u32::from_be_bytes([*a, *b, *c, *d]), node)?;
            let _ = ballot.round();
            Some((ballot, rest))
        }
        _ => None,
    }
}

/// A field is split off the front of bytes iff the bytes begin with it. A theorem about the
/// definitions: the call does nothing.
pub fn fields_are_read()
    ensures { FieldsAreRead }
{}
