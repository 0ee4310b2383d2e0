use wf_canon::MOST_CANON_BYTES;

/// The most bytes of a text in the first version: canonical texts were shorter when it was written.
const TEXT_BYTES_OF_ONE: usize = 32_768;

/// The versions of records that are read.
#[derive(Clone, Copy, Debug, PartialEq, Eq)]
pub enum Version {
    One,
    Two,
}

impl Version {
    ghost use Rattle.std.specs.Prelude.{◌≡◌, ◌≤◌};
    ghost use Rattle.wf_canon.specs.Canon.{most_canon_bytes};
    ghost use Rattle.wf_journal.specs.Version.{version_byte, version_of_byte, version_written, most_text};

    /// The version in which records are written.
    pub fn current() -> Version
        ensures { result ≡ version_written }
    {
        Version::Two
    }

    /// The most bytes of a record's text in the version.
    pub fn most_text(self) -> usize
        ensures value { result ≡ most_text self }
        ensures most { result ≤ most_canon_bytes }
    {
        match self {
            Version::One => TEXT_BYTES_OF_ONE,
            Version::Two => MOST_CANON_BYTES,
        }
    }

    /// The version's byte.
    pub fn byte(self) -> u8
        ensures { result ≡ version_byte self }
    {
        match self {
            Version::One => 1,
            Version::Two => 2,
        }
    }

    /// The version with this byte; None if there is none.
    #[tactic(auto, unfolding(crate::specs::Version::version_of_byte))]
    pub fn of_byte(byte: u8) -> Option<Version>
        ensures { result ≡ version_of_byte byte }
    {
        match byte {
            1 => Some(Version::One),
            2 => Some(Version::Two),
            _ => None,
        }
    }
}
