//! Equality of map definitions: all fields are equal, with the same layers in the same order.
ghost use Rattle.std.specs.Prelude.{◌≡◌, ◌↔◌, IsTrue};
ghost use Rattle.std.specs.Cmp.{partial_equiv_from_equiv};
ghost use Rattle.wf_def.specs.Equality.{definition_eq};
ghost use Rattle.wf_def.specs.EqualityTheorems.{definition_eq_equiv};

use super::MapDef;

impl PartialEq for MapDef {
    ghost eq = { definition_eq };

    ghost laws = { partial_equiv_from_equiv definition_eq_equiv };

    #[tactic(auto, unfolding(crate::specs::Equality::definition_eq))]
    fn eq(&self, other: &Self) -> bool
        ensures test { result ≡ definition_eq self.now other.now }
        ensures equal { IsTrue result ↔ (self.now ≡ other.now) }
    {
        self.name == other.name
            && self.title == other.title
            && self.abstract_text == other.abstract_text
            && self.address == other.address
            && self.extent == other.extent
            && self.projection == other.projection
            && self.layers.as_slice() == other.layers.as_slice()
    }
}

impl Eq for MapDef {
    ghost laws = { definition_eq_equiv };
}
