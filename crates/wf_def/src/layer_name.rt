//! The name by which a layer is looked up.
ghost use Rattle.std.proofs.Common.{◌≡◌, ap};
ghost use Rattle.std.specs.Cmp.{partial_equiv_from_equiv};
ghost use Rattle.std.specs.Cmp.Lexicographic.{nat_list_eq_equiv, bytes_decides};
ghost use Rattle.std.specs.Hash.{str as str_writes, same_Alike};
ghost use Rattle.std.specs.Str.{bytes_eq};

use indexmap::Equivalent;
use std::hash::{Hash, Hasher};
use std::marker::Model;
use wf_text::Text;

/// A name by which a layer is looked up. It needn't be a text: then no layer has it.
#[derive(Drop)]
pub(crate) struct LayerName<'a> {
    bytes: &'a [u8],
}

impl<'a> Model for LayerName<'a> {
    ghost use Rattle.std.specs.Prelude.{ℕ, List};

    ghost Value = { List ℕ };

    ghost view = { λ n. n.bytes.now };
}

impl<'a> LayerName<'a> {
    /// The name of these bytes.
    pub(crate) fn new(bytes: &'a [u8]) -> Self
        ensures { result ≡ bytes.now }
    {
        LayerName { bytes }
    }
}

impl<'a> PartialEq for LayerName<'a> {
    ghost eq = { bytes_eq };

    ghost laws = { partial_equiv_from_equiv nat_list_eq_equiv };

    fn eq(&self, other: &Self) -> bool {
        self.bytes == other.bytes
    }
}

impl<'a> Eq for LayerName<'a> {
    ghost laws = { nat_list_eq_equiv };
}

// as a `str` is hashed, which a layer's name is
impl<'a> Hash for LayerName<'a> {
    ghost hash_input = { str_writes };

    ghost respects_eq = { (same_Alike str_writes bytes_decides).fed };

    fn hash<H: Hasher>(&self, state: &mut H) {
        state.write(self.bytes);
        state.write_u8(0xff);
    }
}

impl<'a> Equivalent<Text> for &LayerName<'a> {
    ghost equivalent = { λ q. bytes_eq q.now };

    ghost respects_hash = { λ q k same. ap str_writes ((bytes_decides q.now k).0 same) };

    ghost respects_eq = { λ q x y. nat_list_eq_equiv.congr q.now x y };

    fn equivalent(&self, key: &Text) -> bool {
        self.bytes == key.as_bytes()
    }
}
