//! Bytes stored inline, up to a fixed number.
ghost use Rattle.std.specs.Prelude.{◌≡◌, ◌≤◌, ◌+◌, ◌++◌, length};

use arrayvec::ArrayVec;

/// Appends bytes for which there is room. Allocates nothing.
#[tactic(auto, using(crate::proofs::BufferTheorem::has_room, crate::proofs::BufferTheorem::is_put, crate::proofs::BufferTheorem::longer))]
pub fn append<const N: usize>(bytes: &mut ArrayVec<u8, N>, more: &[u8])
    requires { length bytes.old.items + length more.now ≤ N }
    ensures items { bytes.new.items ≡ bytes.old.items ++ more.now }
    ensures size { length bytes.new.items ≡ length bytes.old.items + length more.now }
{
    bytes.try_extend_from_slice(more).unwrap();
}
