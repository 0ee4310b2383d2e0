//! Lines of plain text.
ghost use Rattle.std.specs.Prelude.{◌≡◌, ◌≤◌, ◌+◌, ◌++◌, [], decimal, length};
ghost use Rattle.wf_edge.specs.ErrorResponse.{text_line};
ghost use Rattle.wf_edge.specs.Page.{most_line_bytes, proposal_state_words, status_words, accepted_words, at_offset, fault_words};

use arrayvec::ArrayVec;
use itoa::Buffer;
use wf_ballot::{NodeId, Seq, Slot};
use wf_http::append;
use wf_mapfile::MapFault;
use wf_proposer::ProposalState;

/// The greatest length of a line, in bytes: more than any has.
const MOST_LINE_BYTES: usize = 128;

/// A line of plain text, stored inline: allocates nothing.
#[derive(Drop)]
pub struct TextLine {
    bytes: ArrayVec<u8, MOST_LINE_BYTES>,
}

impl TextLine {
    fn new() -> Self
        ensures { result.bytes.items ≡ [] }
    {
        TextLine {
            bytes: ArrayVec::new(),
        }
    }

    /// The bytes of the line.
    pub(crate) fn as_slice(&self) -> &[u8]
        ensures { result.now ≡ self.now.bytes.items }
    {
        self.bytes.as_slice()
    }

    fn push_text(&mut self, text: &str)
        requires { length self.old.bytes.items + length text.now ≤ most_line_bytes }
        ensures text { self.new.bytes.items ≡ self.old.bytes.items ++ text.now }
        ensures size { length self.new.bytes.items ≡ length self.old.bytes.items + length text.now }
    {
        append(&mut self.bytes, text.as_bytes());
    }

    // A number has at most 20 digits.
    fn push_number(&mut self, number: usize)
        requires { length self.old.bytes.items + 20 ≤ most_line_bytes }
        ensures text { self.new.bytes.items ≡ self.old.bytes.items ++ decimal number }
        ensures size { length self.new.bytes.items ≤ length self.old.bytes.items + 20 }
    {
        let mut digits = Buffer::new();
        append(&mut self.bytes, digits.format(number).as_bytes());
    }

    // Appends the state of a proposal.
    fn push_proposal_state(&mut self, proposal_state: ProposalState)
        requires { length self.old.bytes.items + 30 ≤ most_line_bytes }
        ensures text { self.new.bytes.items ≡
            self.old.bytes.items ++ proposal_state_words proposal_state }
        ensures size { length self.new.bytes.items ≤ length self.old.bytes.items + 30 }
    {
        match proposal_state {
            ProposalState::None => self.push_text("none"),
            ProposalState::Running => self.push_text("running"),
            ProposalState::Published(slot) => self.push_slot("published ", slot),
            ProposalState::Overtaken(slot) => self.push_slot("overtaken ", slot),
        }
    }

    fn push_slot(&mut self, text: &str, slot: Slot)
        requires { length self.old.bytes.items + length text.now + 20 ≤ most_line_bytes }
        ensures text { self.new.bytes.items ≡ self.old.bytes.items ++ text.now ++ decimal slot }
        ensures size { length self.new.bytes.items
            ≤ length self.old.bytes.items + length text.now + 20 }
    {
        self.push_text(text);
        self.push_number(usize::from(slot.number()));
    }

    // Appends an error's number and its position.
    #[tactic(auto, unfolding(crate::specs::Page::at_offset))]
    fn push_at_offset(&mut self, number: &str, byte_offset: usize)
        requires { length self.old.bytes.items + length number.now + 21 ≤ most_line_bytes }
        ensures text { self.new.bytes.items ≡
            self.old.bytes.items ++ at_offset number.now byte_offset }
        ensures size { length self.new.bytes.items
            ≤ length self.old.bytes.items + length number.now + 21 }
    {
        self.push_text(number);
        self.push_text(" ");
        self.push_number(byte_offset);
    }

    // Appends an error of a mapfile.
    fn push_fault(&mut self, fault: MapFault)
        requires { length self.old.bytes.items + 24 ≤ most_line_bytes }
        ensures text { self.new.bytes.items ≡ self.old.bytes.items ++ fault_words fault }
        ensures size { length self.new.bytes.items ≤ length self.old.bytes.items + 24 }
    {
        match fault {
            MapFault::Memory => self.push_text("M1"),
            MapFault::TooLong => self.push_text("M2"),
            MapFault::NotUtf8(byte_offset) => self.push_at_offset("M3", byte_offset),
            MapFault::BadToken(byte_offset) => self.push_at_offset("M4", byte_offset),
            MapFault::UnexpectedWord(byte_offset) => self.push_at_offset("M5", byte_offset),
            MapFault::MissingEnd(byte_offset) => self.push_at_offset("M6", byte_offset),
            MapFault::BadNumber(byte_offset) => self.push_at_offset("M7", byte_offset),
            MapFault::OutOfRange(byte_offset) => self.push_at_offset("M8", byte_offset),
            MapFault::Missing => self.push_text("M9"),
            MapFault::Repeated(byte_offset) => self.push_at_offset("M10", byte_offset),
            MapFault::TooMany => self.push_text("M11"),
            MapFault::Trailing(byte_offset) => self.push_at_offset("M12", byte_offset),
        }
    }
}

/// The line with the node's status: its number, its last published sequence and the state of its
/// proposal.
#[tactic(auto, unfolding(crate::specs::Page::status_words))]
pub(crate) fn status_line(id: NodeId, published: Seq, proposal_state: ProposalState) -> TextLine
    ensures { result.bytes.items ≡ text_line (status_words id published proposal_state) }
{
    let mut line = TextLine::new();
    line.push_text("node ");
    line.push_number(usize::from(id.number()));
    line.push_text(" published ");
    line.push_number(usize::from(published.number()));
    line.push_text(" proposal ");
    line.push_proposal_state(proposal_state);
    line.push_text("\n");
    line
}

/// The line with the sequence that a map is proposed for: the one after the last published.
#[tactic(auto, unfolding(crate::specs::Page::accepted_words))]
pub(crate) fn accepted_line(published: Seq) -> TextLine
    ensures { result.bytes.items ≡ text_line (accepted_words published) }
{
    let mut line = TextLine::new();
    line.push_text("accepted for ");
    line.push_number(usize::from(published.number()) + 1);
    line.push_text("\n");
    line
}

/// The line with the error of a mapfile.
pub(crate) fn fault_line(fault: MapFault) -> TextLine
    ensures { result.bytes.items ≡ text_line (fault_words fault) }
{
    let mut line = TextLine::new();
    line.push_fault(fault);
    line.push_text("\n");
    line
}
