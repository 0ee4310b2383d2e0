ghost use Rattle.std.specs.Prelude.{◌≡◌, ◌≢◌, ◌<◌, [], map, IfOk, IfErr, IsErrOf};
ghost use Rattle.wf_codec.specs.Message.{view};
ghost use Rattle.wf_mail.specs.Stream.{most_message_bytes};
ghost use Rattle.wf_mail.specs.Inbox.{Open, Failed, pending_bytes, IsFed, IsBroken};

use crate::piece_join::take_in;
use std::alloc::Global;
use std::marker::Model;
use wf_codec::{BODY_BYTES, DecodeFault, HEADER_BYTES, Message};

/// The length of the longest message, in bytes: an inbox keeps fewer.
pub const MESSAGE_BYTES: usize = HEADER_BYTES + BODY_BYTES;

/// The receiving end of a stream of messages. Model: open with the bytes after the last whole
/// message, or failed with its error.
#[derive(Drop)]
pub struct Inbox {
    alloc: Global,
    rest: Vec<u8>,
    failed: Option<DecodeFault>,
}

impl Model for Inbox {
    ghost use Rattle.wf_mail.specs.Inbox.{InboxState, state_of, IsInbox};

    ghost Value = { InboxState };

    ghost view = { λ i. state_of i.failed i.rest.items };

    ghost invariant = { λ i. IsInbox i.failed i.rest.items };
}

impl Inbox {
    /// An inbox that was fed nothing.
    pub fn new(alloc: Global) -> Inbox
        ensures { result ≡ Open [] }
    {
        Inbox {
            alloc,
            rest: Vec::new(alloc),
            failed: None,
        }
    }

    /// The messages that the piece completes, in order. What follows the last of them is kept for
    /// the next piece.
    ///
    /// An error C1 to C5 is that of the bytes after the last whole message; that call's messages
    /// are lost, and each later call returns the same error. After `Memory` the inbox is unchanged,
    /// and may be fed the same piece again.
    #[tactic(auto, using(crate::proofs::Headers::part_within))]
    pub fn feed(&mut self, piece: &[u8]) -> Result<Vec<Message>, DecodeFault>
        // The rest before, followed by the piece, is the encodings of the messages followed by the
        // rest after. That begins with no whole message, and has no error so far.
        ensures ok { IfOk result (λ messages.
            IsFed self.old piece.now (map view messages.items) self.new) }

        // The rest before, followed by the piece, is whole messages followed by bytes with this
        // error; it is kept.
        ensures broken { IfErr result (λ fault. fault ≢ DecodeFault.Memory →
            IsBroken self.old piece.now fault self.new) }

        // An error is returned again by each later call.
        ensures again { (fault : DecodeFault) → self.old ≡ Failed fault →
            (result ≡ Err fault) × (self.new ≡ self.old) }

        ensures memory { IsErrOf result DecodeFault.Memory → self.new ≡ self.old }
        ensures pending { pending_bytes self.new < most_message_bytes }
    {
        if let Some(fault) = self.failed {
            return Err(fault);
        }
        let mut messages = Vec::new(self.alloc);
        match take_in(self.alloc, &mut messages, &mut self.rest, piece) {
            Ok(()) => Ok(messages),
            Err(DecodeFault::Memory) => Err(DecodeFault::Memory),
            Err(fault) => {
                self.failed = Some(fault);
                self.rest = Vec::new(self.alloc);
                Err(fault)
            }
        }
    }

    /// The number of bytes that are kept: those of part of a message.
    #[tactic(auto, using(crate::proofs::Headers::part_within))]
    pub fn pending(&self) -> usize
        ensures value { result ≡ pending_bytes self.now }
        ensures most { result < most_message_bytes }
    {
        self.rest.len()
    }
}
