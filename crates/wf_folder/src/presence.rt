/// Whether a tape is in a folder.
#[derive(Clone, Copy, Debug, PartialEq, Eq)]
pub enum Presence {
    /// There is no such file.
    Absent,
    /// The file has no byte.
    Empty,
    /// The file has a byte at least.
    Written,
}

impl Presence {
    ghost use Rattle.std.specs.Prelude.{◌≡◌};
    ghost use Rattle.wf_folder.specs.Admission.{has_byte, is_there};

    /// Whether the file is there.
    pub fn is_there(self) -> bool
        ensures { result ≡ is_there self }
    {
        !matches!(self, Presence::Absent)
    }

    /// Whether the file has a byte.
    pub fn has_byte(self) -> bool
        ensures { result ≡ has_byte self }
    {
        matches!(self, Presence::Written)
    }
}
