//! Numbers by chance for a play.

use rand_core::utils::NextWord;
use rand_pcg::Pcg32;

/// Numbers by chance: the same ones for the same seed and stream.
#[derive(Drop)]
pub struct Dice {
    generator: Pcg32,
}

impl Dice {
    /// The numbers of a stream of a seed.
    pub fn new(seed: u64, stream: u64) -> Self {
        Dice {
            generator: Pcg32::new(seed, stream),
        }
    }

    /// A number below this one; 0 if that is 0.
    pub fn below(&mut self, end: u32) -> u32 {
        let word: u32 = self.generator.next_word();
        word.checked_rem(end).unwrap_or(0)
    }

    /// An index below this one; 0 if that is 0.
    pub fn index(&mut self, end: usize) -> usize {
        self.below(u32::try_from(end).unwrap_or(u32::MAX)) as usize
    }

    /// A time in milliseconds of the range from the one to the other.
    pub fn millis(&mut self, least: u32, most: u32) -> u64 {
        let more = self.below(most.saturating_sub(least).saturating_add(1));
        u64::from(least.saturating_add(more))
    }

    /// Sixteen random bytes.
    pub fn bits(&mut self) -> [u8; 16] {
        let mut bits = [0; 16];
        for byte in bits.iter_mut() {
            *byte = u8::try_from(self.below(256)).unwrap_or(0);
        }
        bits
    }
}
