//! A node that a script calls. It begins on an empty tape.
//!
//! ```text
//! propose MAP              what the step sends, or how it is rejected
//! retry                    the same
//! catchup                  the same
//! deliver MESSAGE          the same, for a message that comes in
//! fill SLOT MAP            `done`: the definition comes in as chosen, at each slot up to this one
//! shorten                  `done`: the node's tape is shortened, or why it isn't
//! published                the last published sequence
//! definition SEQUENCE      the sequence and its map, none
//! proposal                 the state of the node's proposal
//! open [BYTES [MAP ..]]    the last published sequence of a node that opens on a tape of these
//!                          bytes (some in hexadecimal, a map's text, and so on in turn) and
//!                          replaces the node before; or why none opens, and how many bytes are on
//!                          the tape
//! restart                  the same, for the node's own tape
//! crash KEEP               the same, for what a crash leaves of it that keeps KEEP bytes that
//!                          weren't synced
//! fuse CALL KEPT           `done`: the call of the tape with this number from now, counted from 1,
//!                          will fail and keep KEPT; 0 for CALL takes such a failure away
//! length                   how many bytes are on the tape of the node; a new node replaces it
//! close                    the same bytes themselves
//! cuts FROM MESSAGE        what each node answers to the message that opens on the first bytes of
//!                          the tape, of each length from FROM on; then as restart
//! ```
//!
//! `wf_test_calls` defines the words of a message. The answer to a rejected step is `refused: ` and
//! the error as it is printed.
use crate::open_cases::begin;
use std::alloc::Global;
use wf_ballot::Slot;
use wf_canon::Canon;
use wf_codec::Message;
use wf_node::{Input, Node, NodeFault};
use wf_tape::MemoryTape;
use wf_test_calls::{
    CallMaps, CallScript, Definitions, Member, Spoken, read_script, read_sequence, read_slot,
    record_sent, write_map, write_printed, write_proposal_state, write_rejected,
};
use wf_test_table::{Answered, CaseInput, CaseWords, Transcript, Unanswered};

/// A node, the maps of the script, and which node of the farm it is.
#[derive(Drop)]
pub(crate) struct NodeSession<'a> {
    pub alloc: Global,
    pub maps: CallMaps<'a>,
    pub member: Member,
    pub node: Node<MemoryTape>,
}

/// Appends what the node answers to each call.
pub(crate) fn ask(mut asked: CaseInput<'_>, answer: &mut Transcript) -> Answered {
    let member = Member::parse(&mut asked.words)?;
    let script = read_script(asked.input)?;
    match begin(asked.alloc, member) {
        Ok(node) => take_calls(asked.alloc, member, node, script, answer),
        Err(unanswered) => Err(unanswered),
    }
}

fn take_calls(
    alloc: Global,
    member: Member,
    node: Node<MemoryTape>,
    script: CallScript<'_>,
    answer: &mut Transcript,
) -> Answered {
    let mut session = NodeSession {
        alloc,
        maps: script.maps,
        member,
        node,
    };
    let taken = session.take_calls(script.calls, answer);
    drop(session);
    taken
}

impl NodeSession<'_> {
    fn take_calls(&mut self, calls: &str, answer: &mut Transcript) -> Answered {
        for call in calls.lines() {
            self.take(&mut CaseWords::new(call), answer)?;
        }
        Ok(())
    }

    fn take(&mut self, call: &mut CaseWords<'_>, answer: &mut Transcript) -> Answered {
        match call.word() {
            "propose" => self.propose(call, answer),
            "retry" => self.step(Input::Retry, answer),
            "catchup" => self.step(Input::CatchUp, answer),
            "deliver" => self.deliver(*call, answer),
            "fill" => self.fill(call, answer),
            "shorten" => self.shorten(answer),
            asked => self.take_tape(asked, call, answer),
        }
    }

    /// The calls that replace this node with another.
    fn take_tape(
        &mut self,
        asked: &str,
        call: &mut CaseWords<'_>,
        answer: &mut Transcript,
    ) -> Answered {
        match asked {
            "open" => self.open(call, answer),
            "restart" => self.restart(answer),
            "crash" => self.crash(call, answer),
            "fuse" => self.set_fuse(call, answer),
            "length" => self.length(answer),
            "close" => self.close(answer),
            "cuts" => self.cuts(call, answer),
            asked => self.look(asked, call, answer),
        }
    }

    /// The calls that change nothing.
    fn look(&self, asked: &str, call: &mut CaseWords<'_>, answer: &mut Transcript) -> Answered {
        match asked {
            "published" => write_printed(self.node.published().number(), answer),
            "definition" => return self.definition(call, answer),
            "proposal" => write_proposal_state(self.node.proposal(), answer),
            _ => return Err(Unanswered::UnknownQuestion),
        }
        Ok(())
    }

    fn definition(&self, call: &mut CaseWords<'_>, answer: &mut Transcript) -> Answered {
        let sequence = read_sequence(call)?;
        let map = self.node.definition(sequence);
        write_map(self.alloc, sequence, map, self.maps, answer);
        Ok(())
    }

    fn propose(&mut self, call: &mut CaseWords<'_>, answer: &mut Transcript) -> Answered {
        let own = self.maps.canon(self.alloc, call.word())?;
        self.step(Input::Propose(own), answer)
    }

    /// A message comes in.
    pub(crate) fn deliver(&mut self, words: CaseWords<'_>, answer: &mut Transcript) -> Answered {
        let spoken = Spoken {
            alloc: self.alloc,
            words,
            definitions: Definitions::Named(self.maps),
        };
        let message = spoken.message()?;
        self.step(Input::Deliver(message), answer)
    }

    /// Takes a step, and appends what it sends or how it is rejected.
    fn step(&mut self, input: Input, answer: &mut Transcript) -> Answered {
        match self.node.step(self.alloc, input) {
            Ok(messages) => {
                record_sent(&messages, self.maps, answer);
                drop(messages);
            }
            Err(NodeFault::Memory) => return Err(Unanswered::Memory),
            Err(fault) => write_rejected(fault, answer),
        }
        Ok(())
    }

    fn shorten(&mut self, answer: &mut Transcript) -> Answered {
        match self.node.shorten(self.alloc) {
            Ok(()) => answer.line("done"),
            Err(NodeFault::Memory) => return Err(Unanswered::Memory),
            Err(fault) => write_rejected(fault, answer),
        }
        Ok(())
    }

    fn fill(&mut self, call: &mut CaseWords<'_>, answer: &mut Transcript) -> Answered {
        let last = read_slot(call)?;
        let canon = self.maps.canon(self.alloc, call.word())?;
        let filled = self.publish_up_to(last, &canon);
        drop(canon);
        answer.line("done");
        filled
    }

    /// The definition comes in as chosen, at each slot up to the last.
    fn publish_up_to(&mut self, last: Slot, canon: &Canon) -> Answered {
        for number in 1..last.number().saturating_add(1) {
            if let Some(slot) = Slot::new(number) {
                self.publish(slot, canon)?;
            }
        }
        Ok(())
    }

    fn publish(&mut self, slot: Slot, canon: &Canon) -> Answered {
        let chosen = Message::Chosen(slot, canon.copy()?);
        match self.node.step(self.alloc, Input::Deliver(chosen)) {
            Ok(messages) => {
                drop(messages);
                Ok(())
            }
            Err(NodeFault::Memory) => Err(Unanswered::Memory),
            Err(_) => Err(Unanswered::BadWords),
        }
    }
}
