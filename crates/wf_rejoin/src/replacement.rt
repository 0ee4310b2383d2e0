use std::fmt;

/// A replacement of a node: a new folder is the node's from now on, and the one before is retired.
#[derive(Clone, Copy, Debug, PartialEq, Eq)]
pub struct Replacement {
    /// How often the node was to be replaced, this time included: 1 for the first. A higher count
    /// supersedes a lower one.
    pub count: u32,
    /// The mark of the new folder: random bits, which no other folder has.
    pub mark: [u8; 16],
}

impl fmt::Display for Replacement {
    fn fmt<W: fmt::Write>(&self, f: &mut fmt::Formatter<W>) -> fmt::Result {
        let count = self.count;
        write!(f, "replacement {count}, folder ")?;
        for byte in self.mark.iter() {
            write!(f, "{byte:02x}")?;
        }
        Ok(())
    }
}
