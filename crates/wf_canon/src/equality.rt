//! Two canonical texts are equal iff their definitions are.
ghost use Rattle.std.specs.Prelude.{◌≡◌, ◌↔◌, IsTrue};
ghost use Rattle.std.specs.Cmp.{partial_equiv_from_equiv};
ghost use Rattle.wf_def.specs.Equality.{definition_eq};
ghost use Rattle.wf_def.specs.EqualityTheorems.{definition_eq_equiv};

use crate::canon::Canon;

impl PartialEq for Canon {
    ghost eq = { definition_eq };

    ghost laws = { partial_equiv_from_equiv definition_eq_equiv };

    /// Whether the definitions are equal. The texts are compared, since each map has exactly one.
    fn eq(&self, other: &Self) -> bool
        ensures test { result ≡ definition_eq self.now other.now }
        ensures equal { IsTrue result ↔ (self.now ≡ other.now) }
    {
        self.text() == other.text()
    }
}

impl Eq for Canon {
    ghost laws = { definition_eq_equiv };
}
