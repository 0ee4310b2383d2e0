//! A proposer that a script calls. Each answer is committed, and the last line is the state of the
//! proposal.
//!
//! ```text
//! start TRIED PUBLISHED MAP             what to store and to send, where the round TRIED is stored
//!                                       and PUBLISHED is the last sequence that is published
//! retry TRIED                           the same, where the round TRIED is stored
//! promise NODE SLOT BALLOT [VOTE ..]    the same, for a Promise of the node with its votes, that
//!                                       at the slot first; a VOTE is `none`, or BALLOT MAP
//! accepted NODE SLOT BALLOT             the same, for an Accepted of the node
//! nack SLOT BALLOT PROMISED             the same, for a Nack that names the ballot PROMISED
//! published SLOT MAP                    `done`: the definition is published at the slot
//! ```
//!
//! The answer to a rejected call is `refused: ` and the rejection as it is printed.
use std::alloc::Global;
use wf_ballot::SEQUENCES;
use wf_proposer::{Next, Proposer, StepRejection};
use wf_test_calls::{
    CallMaps, CallScript, Definitions, Spoken, read_ballot, read_node, read_script, read_sequence,
    read_slot, write_proposal_state, write_rejected, write_step,
};
use wf_test_table::{Answered, CaseInput, CaseWords, Transcript, Unanswered};

#[derive(Drop)]
struct ProposerSession<'a> {
    alloc: Global,
    maps: CallMaps<'a>,
    proposer: Proposer,
}

/// Appends what the proposer of a node, of a farm of that many nodes, answers to each call, and the
/// state of its proposal.
pub(crate) fn ask(mut asked: CaseInput<'_>, answer: &mut Transcript) -> Answered {
    let node = read_node(&mut asked.words)?;
    if asked.words.word() != "of" {
        return Err(Unanswered::BadWords);
    }
    let nodes = asked.words.byte()?;
    let script = read_script(asked.input)?;
    take_calls(asked.alloc, Proposer::new(node, nodes), script, answer)
}

fn take_calls(
    alloc: Global,
    proposer: Proposer,
    script: CallScript<'_>,
    answer: &mut Transcript,
) -> Answered {
    let mut session = ProposerSession {
        alloc,
        maps: script.maps,
        proposer,
    };
    let taken = session.take_calls(script.calls, answer);
    write_proposal_state(session.proposer.proposal(), answer);
    drop(session);
    taken
}

impl ProposerSession<'_> {
    fn take_calls(&mut self, calls: &str, answer: &mut Transcript) -> Answered {
        for call in calls.lines() {
            self.take(&mut CaseWords::new(call), answer)?;
        }
        Ok(())
    }

    fn take(&mut self, call: &mut CaseWords<'_>, answer: &mut Transcript) -> Answered {
        match call.word() {
            "start" => self.start(call, answer),
            "retry" => self.retry(call, answer),
            "promise" => self.promise(call, answer),
            "accepted" => self.accepted(call, answer),
            "nack" => self.nack(call, answer),
            "published" => self.published(call, answer),
            _ => Err(Unanswered::UnknownQuestion),
        }
    }

    fn start(&mut self, call: &mut CaseWords<'_>, answer: &mut Transcript) -> Answered {
        let tried = call.number()?;
        let published = read_sequence(call)?;
        if published.number() >= SEQUENCES {
            return Err(Unanswered::BadWords);
        }
        let own = self.maps.canon(self.alloc, call.word())?;
        let started = self.proposer.start(self.alloc, tried, published, own);
        self.give(started, answer)
    }

    fn retry(&mut self, call: &mut CaseWords<'_>, answer: &mut Transcript) -> Answered {
        let tried = call.number()?;
        let retried = self.proposer.retry(self.alloc, tried);
        self.give(retried, answer)
    }

    fn promise(&mut self, call: &mut CaseWords<'_>, answer: &mut Transcript) -> Answered {
        let from = read_node(call)?;
        let slot = read_slot(call)?;
        let ballot = read_ballot(call)?;
        let spoken = Spoken {
            alloc: self.alloc,
            words: *call,
            definitions: Definitions::Named(self.maps),
        };
        let report = spoken.report(slot)?;
        let received = self.proposer.on_promise(self.alloc, from, ballot, report);
        self.give(received, answer)
    }

    fn accepted(&mut self, call: &mut CaseWords<'_>, answer: &mut Transcript) -> Answered {
        let from = read_node(call)?;
        let slot = read_slot(call)?;
        let ballot = read_ballot(call)?;
        let received = self.proposer.on_accepted(self.alloc, from, slot, ballot);
        self.give(received, answer)
    }

    fn nack(&mut self, call: &mut CaseWords<'_>, answer: &mut Transcript) -> Answered {
        let slot = read_slot(call)?;
        let ballot = read_ballot(call)?;
        let promised = read_ballot(call)?;
        let next = self.proposer.on_nack(self.alloc, slot, ballot, promised);
        self.commit(next, answer);
        Ok(())
    }

    fn published(&mut self, call: &mut CaseWords<'_>, answer: &mut Transcript) -> Answered {
        let slot = read_slot(call)?;
        let canon = self.maps.canon(self.alloc, call.word())?;
        self.proposer.on_published(slot, &canon);
        drop(canon);
        answer.line("done");
        Ok(())
    }

    /// Appends the rejection, or the answer, which is committed.
    fn give(&mut self, answered: Result<Next, StepRejection>, answer: &mut Transcript) -> Answered {
        match answered {
            Ok(next) => self.commit(next, answer),
            Err(StepRejection::Memory) => return Err(Unanswered::Memory),
            Err(rejection) => write_rejected(rejection, answer),
        }
        Ok(())
    }

    fn commit(&mut self, next: Next, answer: &mut Transcript) {
        let (record, messages) = self.proposer.commit(next);
        write_step(record.as_ref(), &messages, self.maps, answer);
        drop(record);
        drop(messages);
    }
}
