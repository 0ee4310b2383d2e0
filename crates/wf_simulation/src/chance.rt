//! Numbers by chance, from a seed.

ghost use Rattle.std.specs.Prelude.{◌<◌};

use rand_core::utils::NextWord;
use rand_pcg::Pcg32;

/// The stream of the generator.
const STREAM: u64 = 54;

/// Numbers by chance: the same ones for the same seed.
#[derive(Drop)]
pub(crate) struct Chance {
    generator: Pcg32,
}

impl Chance {
    /// The numbers of a seed.
    pub(crate) fn new(seed: u64) -> Self {
        Chance {
            generator: Pcg32::new(seed, STREAM),
        }
    }

    /// A number from 1 to one, or 1 if that is 0.
    pub(crate) fn up_to(&mut self, most: u32) -> u32
        ensures { 0 < result }
    {
        let word: u32 = self.generator.next_word();
        match word.checked_rem(most) {
            Some(rest) => rest.saturating_add(1),
            None => 1,
        }
    }

    /// A number of the range from the one to the other.
    pub(crate) fn within(&mut self, least: u32, most: u32) -> u32 {
        least.saturating_add(self.up_to(most.saturating_sub(least).saturating_add(1)) - 1)
    }

    /// A count from 1 to one; mostly all of them, or few.
    pub(crate) fn part(&mut self, count: usize) -> usize {
        let most = u32::try_from(count).unwrap_or(u32::MAX);
        match self.up_to(4) {
            1 => self.up_to(most.min(16)) as usize,
            2 => self.up_to(most) as usize,
            _ => count,
        }
    }

    /// Whether something happens, so many times of a million.
    pub(crate) fn happens(&mut self, per_million: u32) -> bool {
        per_million != 0 && self.up_to(1_000_000) <= per_million
    }
}
