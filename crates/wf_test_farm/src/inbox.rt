//! Messages that an inbox reads out of a stream in pieces.
ghost use Rattle.std.specs.Prelude.{◌≤◌, length};

use std::alloc::Global;
use wf_codec::{DecodeFault, Message, encode};
use wf_mail::Inbox;
use wf_test_calls::{CallMaps, write_message, write_printed};
use wf_test_table::{Answered, CaseInput, Transcript, Unanswered};

/// Appends what an inbox returns for each piece of that many bytes, the messages or the error; and
/// how many bytes it keeps.
pub(crate) fn write_fed(mut asked: CaseInput<'_>, answer: &mut Transcript) -> Answered {
    let size = asked.words.count()?;
    if size == 0 {
        return Err(Unanswered::BadWords);
    }
    let mut inbox = Inbox::new(asked.alloc);
    for piece in asked.input.chunks(size) {
        write_piece(&mut inbox, piece, answer);
    }
    answer.count(inbox.pending());
    answer.line(" bytes kept");
    drop(inbox);
    Ok(())
}

fn write_piece(inbox: &mut Inbox, piece: &[u8], answer: &mut Transcript) {
    match inbox.feed(piece) {
        Ok(messages) => write_messages(messages, answer),
        Err(DecodeFault::Memory) => answer.cut(),
        Err(fault) => write_printed(fault, answer),
    }
}

fn write_messages(messages: Vec<Message>, answer: &mut Transcript) {
    for message in &messages {
        write_message(message, CallMaps::NONE, answer);
        answer.line("");
    }
    drop(messages);
}

/// Appends at how many places the bytes may be cut in two so that the messages that come out, and
/// the bytes kept, are the bytes.
pub(crate) fn write_cuts(asked: CaseInput<'_>, answer: &mut Transcript) -> Answered {
    let mut same = 0u64;
    for cut in 0..asked.input.len() {
        if gives_back(asked.alloc, asked.input, cut)? {
            same = same.saturating_add(1);
        }
    }
    answer.value(same);
    answer.text(" of ");
    answer.count(asked.input.len());
    answer.line(" cuts give all messages");
    Ok(())
}

fn gives_back(alloc: Global, bytes: &[u8], cut: usize) -> Result<bool, Unanswered>
    requires { cut ≤ length bytes.now }
{
    let (first, second) = bytes.split_at(cut);
    let mut spelled = Transcript::new(alloc);
    let mut inbox = Inbox::new(alloc);
    spell_piece(&mut inbox, first, &mut spelled);
    spell_piece(&mut inbox, second, &mut spelled);
    drop(inbox);
    let is_same = match spelled.finished_text() {
        Ok(written) => Ok(written == bytes),
        Err(_) => Err(Unanswered::Memory),
    };
    drop(spelled);
    is_same
}

fn spell_piece(inbox: &mut Inbox, piece: &[u8], spelled: &mut Transcript) {
    match inbox.feed(piece) {
        Ok(messages) => spell_messages(messages, spelled),
        Err(DecodeFault::Memory) => spelled.cut(),
        Err(fault) => write_printed(fault, spelled),
    }
}

fn spell_messages(messages: Vec<Message>, spelled: &mut Transcript) {
    for message in &messages {
        if encode(message, spelled.target()).is_err() {
            spelled.cut();
        }
    }
    drop(messages);
}
