//! A node that was opened in memory moves to another tape.

ghost use Rattle.std.specs.Prelude.{map, IfOk, IfErr};
ghost use Rattle.wf_journal.specs.Record.{view};
ghost use Rattle.wf_node.specs.Compaction.{short_records};
ghost use Rattle.wf_node.specs.DurablePart.{stored_of as stored_in};
ghost use Rattle.wf_node.specs.Relocation.{IsBegunWith, IsNotBegunWith};

use crate::compaction::short_records;
use crate::fault::NodeFault;
use crate::machine::Machine;
use crate::node::Node;
use crate::stored_part::DurablePart;
use std::alloc::Global;
use wf_codec::Canon;
use wf_journal::{AddFault, Journal, Record};
use wf_model::{folds_are_open, votes_are_promised};
use wf_proposer::Proposer;
use wf_tape::{MemoryTape, Tape};

impl Node<MemoryTape> {
    ghost use Rattle.std.specs.Prelude.{IfOk, IfErr};
    ghost use Rattle.wf_node.specs.Relocation.{IsMoved, IsNotMoved};

    /// The node on another tape: in one call of it, the records to which [`Node::shorten`] shortens
    /// one replace whatever it held, and nothing is read of it. What the node has stored isn't
    /// changed, nor its proposal or leadership, whatever kind of tape it is. An error returns the
    /// tape, and the node is dropped: N5 if the node is halted; then N1 if allocation failed, which
    /// leaves the tape unchanged; N6 if the tape failed. A crash at each moment inside the call
    /// leaves on it what one could have left before, or what stands for the node's durable state.
    /// With a tape that won't fail N6 isn't returned, and the tape still won't fail. It takes time
    /// in proportion to what is stored, and copies it.
    pub fn move_to<U: Tape>(self, alloc: Global, tape: U) -> Result<Node<U>, (U, NodeFault)>
        ensures moved { IfOk result (IsMoved U.Tape self tape) }
        ensures left { IfErr result (λ e. IsNotMoved U.Tape self tape e.0 e.1) }
    {
        if self.machine.journal.is_halted() {
            drop(self);
            return Err((tape, NodeFault::Halted));
        }
        // The model's theorems: what records fold to has votes and promises of sequences that
        // aren't published, and no vote without a promise.
        folds_are_open::<Canon>();
        votes_are_promised::<Canon>();
        let Node { machine } = self;
        let Machine {
            journal,
            persistent,
            proposer,
        } = machine;
        drop(journal);
        match begin(alloc, tape, &persistent) {
            Ok(journal) => Ok(Node {
                machine: Machine {
                    journal,
                    persistent,
                    proposer,
                },
            }),
            Err(rejection) => {
                discard(persistent, proposer);
                Err(rejection)
            }
        }
    }
}

/// The journal of a tape on which the records of the durable state replace whatever it held.
fn begin<U: Tape>(
    alloc: Global,
    tape: U,
    persistent: &DurablePart,
) -> Result<Journal<U>, (U, NodeFault)>
    ensures begun { IfOk result
        (IsBegunWith U.Tape (short_records (stored_in persistent.now)) tape) }
    ensures left { IfErr result (λ e.
        IsNotBegunWith U.Tape (short_records (stored_in persistent.now)) tape e.0 e.1) }
{
    match short_records(alloc, persistent) {
        Ok(records) => begin_with(alloc, tape, &records),
        Err(_) => Err((tape, NodeFault::Memory)),
    }
}

/// The journal of a tape on which these records replace whatever it held.
fn begin_with<U: Tape>(
    alloc: Global,
    tape: U,
    records: &[Record],
) -> Result<Journal<U>, (U, NodeFault)>
    ensures begun { IfOk result (IsBegunWith U.Tape (map view records.now) tape) }
    ensures left { IfErr result (λ e. IsNotBegunWith U.Tape (map view records.now) tape e.0 e.1) }
{
    match Journal::begin_with(alloc, tape, records) {
        Ok(journal) => Ok(journal),
        Err((tape, AddFault::TapeFailed)) => Err((tape, NodeFault::TapeFailed)),
        Err((tape, AddFault::Memory)) => Err((tape, NodeFault::Memory)),
    }
}

/// Drops the parts of a node that didn't move.
fn discard(_persistent: DurablePart, _proposer: Proposer) {}
