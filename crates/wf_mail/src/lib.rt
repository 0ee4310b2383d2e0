//! Messages over a connection: its two ends, neither of which ever blocks, and messages out of a
//! stream that comes in pieces.
//!
//! **Model.** An [`Inbox`] is open, with the bytes after the last whole message, or failed, with
//! its error (`specs/Inbox.antt`); a stream splits into the messages of wf_codec and a rest
//! (`specs/Stream.antt`). A [`Receiver`] is the messages that came and the bytes after the last of
//! them, or, once it is closed, the messages that came and the error (`specs/Receiver.antt`). An
//! [`Outbox`] is the messages that were put in, the bytes of their encodings that were written out,
//! and those that wait (`specs/Outbox.antt`). Receiver and outbox keep their messages in a log that
//! only proofs read. What a connection carries is a beginning of the encodings of what was put in
//! (`IsCarried` of `specs/Mail.antt`).
//!
//! **Promises.**
//! - [`Inbox::feed`] returns the messages that the piece completes, in order: the rest before
//!   followed by the piece is their encodings followed by the rest after, which begins with no
//!   whole message and has no error so far. An error of the decoder is returned iff it stands after
//!   whole messages of the stream; that call's messages are lost, and each later call returns the
//!   same error. Allocation failure changes nothing. At most one message's bytes are kept. Its
//!   errors are the decoder's, but for `Short` ([`InboxFault`] is another name of
//!   `wf_codec::DecodeFault`).
//! - The bytes alone determine the messages, the rest and the error, so it doesn't matter how a
//!   stream is cut into pieces, one-byte pieces included ([`streams_split_one_way`],
//!   [`cuts_do_not_matter`]).
//! - [`Receiver::receive`] returns the messages that a piece completes. What came is always all the
//!   whole messages that the bytes taken begin with ([`Receiver::always_reads`]). An error closes
//!   it for good, allocation failure too, since the piece is lost.
//! - [`Outbox::put`] takes a whole message or drops it, and says why: it is dropped only if there
//!   is no room for it, or if it needs an allocation and that fails. What is written out, and then
//!   what waits, is always the encodings of what was put in; and no more waits than the limit
//!   ([`Outbox::always_spells`]). The bytes are written by [`Outbox::write_to`], once a call, or by
//!   the caller, who takes them from [`Outbox::chunk`] and says by [`Outbox::advance`] how many it
//!   has written.
//! - Of a connection that carries a beginning of what was written, only messages come that were put
//!   in, in order, none skipped, repeated or invented; and all of them, if it carries all bytes
//!   ([`came_of_what_was_put`], [`only_sent_messages_come`]). Such a connection never has an error
//!   but for allocation failure.
//!
//! **Doesn't.** That a connection carries a beginning of what was written to it is TCP's promise,
//! and a premise here. It says nothing of who sent a message or what that does, and not that a
//! writer takes bytes or that a reader has some. Time is linear in the bytes fed, since a message
//! is decoded once, when its last byte is there, and only a part of one is copied: no contract says
//! so.
#![tactic(auto)]

mod dropped;
mod header;
mod inbox;
mod outbox;
mod piece_join;
mod queue;
mod receiver;
mod stream_theorem;
mod theorem;
mod whole_messages;

pub use dropped::Dropped;
pub use inbox::{Inbox, MESSAGE_BYTES};
pub use outbox::Outbox;
pub use receiver::Receiver;
pub use stream_theorem::{cuts_do_not_matter, streams_split_one_way};
pub use theorem::{came_of_what_was_put, carry_over, cross_by_bytes, only_sent_messages_come};
pub use wf_codec::DecodeFault as InboxFault;
