//! Lines buffered before they are written.
ghost use Rattle.std.specs.Prelude.{◌≡◌, [], Some};

use arrayvec::ArrayVec;
use std::io;
use std::io::ErrorKind;
use wf_stream::Sink;

/// The size of the buffer: more than the lines before the body of any response of this server.
const ROOM: usize = 512;

/// A writer into its own buffer, whose contents are then written in one piece. Allocates nothing; a
/// write that exceeds the buffer fails.
#[derive(Drop)]
pub(crate) struct Gathered {
    bytes: ArrayVec<u8, ROOM>,
    failures: u64,
}

impl Gathered {
    /// An empty buffer.
    pub(crate) fn new() -> Self
        ensures { result.bytes.items ≡ [] }
    {
        Gathered {
            bytes: ArrayVec::new(),
            failures: 0,
        }
    }

    /// The bytes written.
    pub(crate) fn bytes(&self) -> &[u8]
        ensures { result.now ≡ self.now.bytes.items }
    {
        self.bytes.as_slice()
    }
}

impl Sink for Gathered {
    ghost written = { λ g. Some g.bytes.items };

    ghost failures = { λ g. g.failures };

    fn write(&mut self, buf: &[u8]) -> io::Result<usize> {
        match self.bytes.try_extend_from_slice(buf) {
            Ok(()) => Ok(buf.len()),
            Err(_) => {
                self.failures = self.failures.saturating_add(1);
                Err(io::Error::from(ErrorKind::WriteZero))
            }
        }
    }
}
