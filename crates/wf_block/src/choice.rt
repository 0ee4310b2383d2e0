//! Choices by name.
ghost use Rattle.std.specs.Prelude.{◌≡◌, map};
ghost use Rattle.wf_block.specs.Grammar.{choice, one_of};
ghost use Rattle.wf_block.specs.ReadContract.{Gives};

use crate::fault::MapFault;
use crate::keyword::is_name;
use crate::parser::Parser;

/// The value of the first entry that has this name, without regard to ASCII letter case.
pub fn choose<T: Copy>(entries: &[(&str, T)], name: &[u8]) -> Option<T>
    ensures { result ≡ choice (map (λ entry. (entry.0.now, entry.1)) entries.now) name.now }
{
    for (entry, value) in entries {
        if is_name(name, entry) {
            return Some(*value);
        }
    }
    None
}

impl Parser<'_> {
    /// Reads one of a table's choices.
    #[tactic(auto, unfolding(crate::specs::Grammar::one_of))]
    pub fn one_of<T: Copy>(&mut self, entries: &[(&str, T)]) -> Result<T, MapFault>
        ensures { Gives (λ value. (value, self.new)) result
            (one_of (map (λ entry. (entry.0.now, entry.1)) entries.now) self.old) }
    {
        let token = self.argument()?;
        choose(entries, token.text).ok_or(MapFault::UnexpectedWord(token.byte_offset))
    }
}
