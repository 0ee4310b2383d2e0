//! Connections.
ghost use Rattle.std.specs.Prelude.{◌≡◌, ◌≢◌, ◌++◌, ℕ, List, length};
ghost use Rattle.wf_sockets.specs.Moved.{moved, IsWithin};

use crate::moved::Moved;

/// A connection whose calls never block. It is closed where it is dropped.
///
/// Model: all bytes that came on it, and all that it took to be sent, since it was opened.
pub trait Connection {
    /// All bytes that were read.
    ghost came: { Self → List ℕ };

    /// All bytes that were taken to be sent.
    ghost sent: { Self → List ℕ };

    /// Reads once, to the front of a buffer. What stands in the buffer behind the bytes that were
    /// read is any. `Blocked` if the buffer is empty.
    fn read(&mut self, buf: &mut [u8]) -> Moved
        ensures came { came self.new ≡ came self.old ++ moved result buf.new }
        ensures sent { sent self.new ≡ sent self.old }
        ensures within { IsWithin (length buf.old) result }
        ensures empty { length buf.old ≡ 0 → result ≡ Moved.Blocked };

    /// Writes once, from the front of some bytes. It is never `Closed`; `Blocked` if there are no
    /// bytes.
    fn write(&mut self, bytes: &[u8]) -> Moved
        ensures sent { sent self.new ≡ sent self.old ++ moved result bytes.now }
        ensures came { came self.new ≡ came self.old }
        ensures within { IsWithin (length bytes.now) result }
        ensures empty { length bytes.now ≡ 0 → result ≡ Moved.Blocked }
        ensures open { result ≢ Moved.Closed };

    /// From now on each write is sent at once, and doesn't wait to be joined with others; where the
    /// system doesn't do that, nothing changes.
    fn send_at_once(&mut self)
        ensures came { came self.new ≡ came self.old }
        ensures sent { sent self.new ≡ sent self.old };

    /// Ends the writing direction: once all that was sent has come, the other side reads `Closed`.
    /// Each later write fails; reads go on.
    fn end_writing(&mut self)
        ensures came { came self.new ≡ came self.old }
        ensures sent { sent self.new ≡ sent self.old };
}
