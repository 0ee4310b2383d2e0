//! The first bytes of a connection's request and response.

/// The number of bytes that are kept.
const KEPT_BYTES: usize = 256;

/// The first bytes of one direction of a connection, for the log.
#[derive(Drop)]
pub(crate) struct Noted {
    first: [u8; 256],
    count: usize,
}

impl Noted {
    /// None yet.
    pub(crate) fn new() -> Self {
        Noted {
            first: [0; KEPT_BYTES],
            count: 0,
        }
    }

    /// The bytes.
    pub(crate) fn bytes(&self) -> &[u8] {
        match self.first.get(..self.count) {
            Some(first) => first,
            None => &[],
        }
    }

    /// Keeps bytes as long as there is room.
    pub(crate) fn note(&mut self, bytes: &[u8]) {
        for byte in bytes {
            if self.count >= KEPT_BYTES {
                return;
            }
            self.first[self.count] = *byte;
            self.count += 1;
        }
    }

    /// Keeps this many first bytes of two buffers, one after the other, as long as there is room.
    pub(crate) fn note_pair(&mut self, one: &[u8], two: &[u8], count: usize) {
        match one.get(..count) {
            Some(front) => self.note(front),
            None => {
                self.note(one);
                let rest = count.saturating_sub(one.len());
                self.note(two.get(..rest).unwrap_or(&[]));
            }
        }
    }
}
