//! The tape of a node: what is on it, and the nodes that open on it again.
use crate::node::NodeSession;
use crate::open_cases::{begin, open, write_rejected};
use std::mem::replace;
use wf_node::Node;
use wf_tape::MemoryTape;
use wf_test_calls::{bytes_on, push_hexadecimal, tape_of, write_bytes, write_field, write_length};
use wf_test_table::{Answered, CaseWords, Runs, Transcript, Unanswered};

impl NodeSession<'_> {
    pub(crate) fn open(&mut self, call: &mut CaseWords<'_>, answer: &mut Transcript) -> Answered {
        let mut bytes = Transcript::new(self.alloc);
        let opened = match self.push_bytes(call.rest(), &mut bytes) {
            Ok(()) => self.open_on_copy(&bytes, answer),
            Err(unanswered) => Err(unanswered),
        };
        drop(bytes);
        opened
    }

    fn open_on_copy(&mut self, bytes: &Transcript, answer: &mut Transcript) -> Answered {
        let tape = tape_of(self.alloc, bytes.finished_text()?)?;
        self.open_on(tape, answer);
        Ok(())
    }

    pub(crate) fn restart(&mut self, answer: &mut Transcript) -> Answered {
        let tape = self.take_tape_out()?;
        self.open_on(tape, answer);
        Ok(())
    }

    pub(crate) fn crash(&mut self, call: &mut CaseWords<'_>, answer: &mut Transcript) -> Answered {
        let keep = call.count()?;
        let mut tape = self.take_tape_out()?;
        tape.crash(keep);
        self.open_on(tape, answer);
        Ok(())
    }

    pub(crate) fn set_fuse(
        &mut self,
        call: &mut CaseWords<'_>,
        answer: &mut Transcript,
    ) -> Answered {
        let number = call.count()?;
        let kept = call.count()?;
        self.node.set_fuse(number, kept);
        answer.line("done");
        Ok(())
    }

    pub(crate) fn length(&mut self, answer: &mut Transcript) -> Answered {
        let tape = self.take_tape_out()?;
        write_length(bytes_on(tape), answer);
        Ok(())
    }

    pub(crate) fn close(&mut self, answer: &mut Transcript) -> Answered {
        let tape = self.take_tape_out()?;
        write_bytes(tape.bytes(), answer);
        drop(tape);
        Ok(())
    }

    pub(crate) fn cuts(&mut self, call: &mut CaseWords<'_>, answer: &mut Transcript) -> Answered {
        let from = call.count()?;
        let tape = self.take_tape_out()?;
        let reported = self.write_cuts(from, tape.bytes(), *call, answer);
        self.open_on(tape, answer);
        reported
    }

    /// Appends the bytes that words spell: bytes in hexadecimal, a map's text, and so on in turn.
    fn push_bytes(&self, words: &str, bytes: &mut Transcript) -> Answered {
        let mut is_map = false;
        for word in words.split(' ') {
            if is_map {
                self.push_text(word, bytes)?;
            } else {
                push_hexadecimal(word, bytes)?;
            }
            is_map = !is_map;
        }
        Ok(())
    }

    fn push_text(&self, name: &str, bytes: &mut Transcript) -> Answered {
        match self.maps.text_of(name) {
            Some(text) => bytes.text(text),
            None => return Err(Unanswered::BadWords),
        }
        Ok(())
    }

    /// The node's tape. A node on an empty tape replaces the node.
    fn take_tape_out(&mut self) -> Result<MemoryTape, Unanswered> {
        match begin(self.alloc, self.member) {
            Ok(node) => Ok(replace(&mut self.node, node).close()),
            Err(unanswered) => Err(unanswered),
        }
    }

    /// A node that opens on the tape replaces the node before.
    fn open_on(&mut self, tape: MemoryTape, answer: &mut Transcript) {
        match open(self.alloc, self.member, tape) {
            Ok(node) => self.put(node, answer),
            Err((tape, fault)) => write_rejected(tape, fault, answer),
        }
    }

    fn put(&mut self, node: Node<MemoryTape>, answer: &mut Transcript) {
        write_field("published ", node.published(), answer);
        answer.line("");
        drop(replace(&mut self.node, node));
    }

    /// Appends what each node answers that opens on the first bytes, of each length from the least
    /// on.
    fn write_cuts(
        &mut self,
        from: usize,
        bytes: &[u8],
        call: CaseWords<'_>,
        answer: &mut Transcript,
    ) -> Answered {
        let mut runs = Runs::new(self.alloc);
        let taken = self.take_cuts(from, bytes, call, &mut runs, answer);
        runs.write(answer);
        drop(runs);
        taken
    }

    fn take_cuts(
        &mut self,
        from: usize,
        bytes: &[u8],
        call: CaseWords<'_>,
        runs: &mut Runs,
        answer: &mut Transcript,
    ) -> Answered {
        for length in from..bytes.len() + 1 {
            let mut outputs = Transcript::new(self.alloc);
            let answered = self.answer_on(&bytes[..length], call, &mut outputs);
            runs.take(&outputs, answer);
            drop(outputs);
            answered?;
        }
        Ok(())
    }

    /// Appends what a node that opens on a tape of these bytes answers to the message.
    fn answer_on(
        &mut self,
        bytes: &[u8],
        call: CaseWords<'_>,
        answer: &mut Transcript,
    ) -> Answered {
        let tape = tape_of(self.alloc, bytes)?;
        match open(self.alloc, self.member, tape) {
            Ok(node) => {
                drop(replace(&mut self.node, node));
                self.deliver(call, answer)
            }
            Err((tape, fault)) => {
                write_rejected(tape, fault, answer);
                Ok(())
            }
        }
    }
}
