/// The numbers of bytes that the bodies of a kind can have: from `least` to `most`.
#[derive(Clone, Copy, Debug, PartialEq, Eq)]
pub struct Lengths {
    pub least: usize,
    pub most: usize,
}

impl Lengths {
    ghost use Rattle.std.specs.Prelude.{◌≡◌, ◌&&◌, nat_le};

    /// Whether a body can have that many bytes.
    pub fn allow(self, length: usize) -> bool
        ensures { result ≡ (nat_le self.least length && nat_le length self.most) }
    {
        self.least <= length && length <= self.most
    }
}
