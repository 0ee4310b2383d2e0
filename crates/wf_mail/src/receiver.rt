ghost use Rattle.std.specs.Prelude.{◌≡◌, ◌++◌, ℕ, List, [], map, IfErr, IfOk, OnOk};
ghost use Rattle.wf_codec.specs.Message.{view};
ghost use Rattle.wf_mail.specs.Receiver.{Open, came, is_memory, taken, IsClosed, IsPieceReceived};
ghost use Rattle.wf_mail.specs.Stream.{Reads};

use crate::inbox::Inbox;
use std::alloc::Global;
use std::marker::Model;
use wf_codec::{DecodeFault, Message};
use wf_past::Past;

/// The receiving end of a connection. Model: the messages that came, and the bytes after the last
/// of them; or, once it is closed, the messages that came before the error, and the error.
#[derive(Drop)]
pub struct Receiver {
    inbox: Inbox,
    // whether an allocation has failed
    is_out_of_memory: bool,
    log: Past<Vec<Message>, usize>,
}

impl Model for Receiver {
    ghost use Rattle.wf_mail.specs.Receiver.{ReceiverState, state_of, logged, IsReceiver};

    ghost Value = { ReceiverState };

    ghost view = { λ r. state_of r.is_out_of_memory (logged r.log.items) r.inbox };

    ghost invariant = { λ r. IsReceiver (logged r.log.items) r.inbox };
}

impl Receiver {
    /// A receiver to which nothing has come.
    pub fn new(alloc: Global) -> Receiver
        ensures { result ≡ Open [] [] }
    {
        Receiver {
            inbox: Inbox::new(alloc),
            is_out_of_memory: false,
            log: Past::new(),
        }
    }

    /// The messages that the piece completes, in order. What follows the last of them is kept for
    /// the next piece.
    ///
    /// After an error the receiver is closed, and each later call returns the same error: of
    /// `Memory` too, since a caller has no piece a second time.
    pub fn receive(&mut self, piece: &[u8]) -> Result<Vec<Message>, DecodeFault>
        ensures ok { IfOk result (λ messages.
            IsPieceReceived self.old piece.now (map view messages.items) self.new) }
        ensures bytes { OnOk result (taken self.new ≡ taken self.old ++ piece.now) }
        ensures err { IfErr result (λ fault. IsClosed self.old piece.now fault self.new) }
    {
        if self.is_out_of_memory {
            return Err(DecodeFault::Memory);
        }
        match self.inbox.feed(piece) {
            Ok(messages) => {
                self.log = self.log.and(&messages, &piece.len());
                Ok(messages)
            }
            Err(fault) => {
                self.is_out_of_memory = is_memory(fault);
                Err(fault)
            }
        }
    }

    /// What came is all the whole messages that the bytes taken begin with, always. The call does
    /// nothing.
    pub fn always_reads(&self)
        ensures { (rest : List ℕ) × Reads (taken self.now) (came self.now) rest }
    {
        let _ = &self.is_out_of_memory;
    }
}

/// Whether an allocation failed.
fn is_memory(fault: DecodeFault) -> bool
    ensures { result ≡ is_memory fault }
{
    matches!(fault, DecodeFault::Memory)
}
