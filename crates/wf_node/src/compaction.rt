//! A node rewrites its tape with as few records as its durable state needs.

ghost use Rattle.std.specs.Prelude.{◌≡◌, ◌∷◌, [], false, map, IfOk, OnOk};
ghost use Rattle.wf_ballot.specs.Sequence.{last_sequence, IsSlot};
ghost use Rattle.wf_node.specs.DurablePart.{stored_of as stored_in};
ghost use Rattle.wf_node.specs.Compaction.{tried_records, vote_records, promised_sequence, promise_records, is_voted, records_at, records_from, short_records, Appends};
ghost use Rattle.wf_node.specs.TapeWrites.{IsReplacement, LeavesOldOrRecords};
ghost use Rattle.wf_journal.specs.Record.{view};

use crate::fault::NodeFault;
use crate::machine::Machine;
use crate::node::Node;
use crate::stored_part::DurablePart;
use std::alloc::{AllocError, Global};
use wf_ballot::{Ballot, Round, SEQUENCES, Slot};
use wf_codec::Canon;
use wf_journal::{AddFault, Journal, Record};
use wf_model::{folds_are_open, votes_are_promised};
use wf_tape::Tape;

impl<T: Tape> Node<T> {
    ghost use Rattle.std.specs.Prelude.{◌≡◌, ◌≢◌, true, false, None, Err, IfErr, OnOk};
    ghost use Rattle.wf_node.specs.Fault.{rejected_by};
    ghost use Rattle.wf_node.specs.Images.{AllStandFor};
    ghost use Rattle.wf_node.specs.Node.{stored_of};
    ghost use Rattle.wf_node.specs.Compaction.{short_records, IsShortening};
    ghost use Rattle.wf_node.specs.Step.{IsSameNode};
    ghost use Rattle.wf_journal.specs.Journal.{Holds};
    ghost use Rattle.wf_tape.specs.Change.{inside, HasFailed, Stays};

    /// Rewrites the node's tape, in one call of it: after Ok it holds the last round tried, by
    /// sequence the published definitions and the votes above them, each once, and the promise,
    /// unless a vote is at its ballot. The node itself is unchanged, and whatever is returned,
    /// every image of a durable tape stands for its durable state, as does what a crash at each
    /// moment inside the call leaves. A halted node returns N5; then N1 if allocation failed, which
    /// changes nothing; N6 if the tape failed, which halts the node. With a tape that won't fail N6
    /// isn't returned, and the tape still won't fail. It takes time in proportion to what is
    /// stored, and copies it.
    pub fn shorten(&mut self, alloc: Global) -> Result<(), NodeFault>
        ensures halted { self.old.halted ≡ true → result ≡ Err NodeFault.Halted }
        ensures running { result ≡ Err NodeFault.Halted → self.old.halted ≡ true }
        ensures refused { rejected_by result ≡ None }
        ensures unchanged { result ≡ Err NodeFault.Halted → self.new ≡ self.old }
        ensures same { IsSameNode self.old self.new }
        ensures done { OnOk result (self.new.halted ≡ false) }
        ensures held { T.durable →
            OnOk result (Holds (T.content self.new.tape) (T.images self.new.tape)
            (short_records (stored_of self.old))) }
        ensures stands { T.durable → self.old.halted ≡ false →
            AllStandFor (stored_of self.old) (T.images self.new.tape) }
        ensures inside { T.durable → self.old.halted ≡ false →
            AllStandFor (stored_of self.old) (inside T.Tape self.old.tape self.new.tape) }
        ensures memory { result ≡ Err NodeFault.Memory → self.new.halted ≡ false }
        ensures same_tape { T.durable → result ≡ Err NodeFault.Memory →
            Stays T.Tape self.old.tape self.new.tape }
        ensures failed { result ≡ Err NodeFault.TapeFailed →
            HasFailed T.Tape self.old.tape self.new.tape }
        ensures halts { result ≡ Err NodeFault.TapeFailed → self.new.halted ≡ true }
        ensures sturdy { T.never_fails self.old.tape → T.never_fails self.new.tape }
        ensures sound { T.never_fails self.old.tape →
            IfErr result (λ fault. fault ≢ NodeFault.TapeFailed) }
    {
        if self.machine.journal.is_halted() {
            return Err(NodeFault::Halted);
        }
        self.rewrite(alloc)
    }

    /// Shortens the tape of a node that isn't halted.
    fn rewrite(&mut self, alloc: Global) -> Result<(), NodeFault>
        requires { self.old.halted ≡ false }
        ensures shortening { IsShortening T.Tape self.old result self.new }
        ensures inside { T.durable →
            AllStandFor (stored_of self.old) (inside T.Tape self.old.tape self.new.tape) }
        ensures sturdy { T.never_fails self.old.tape → T.never_fails self.new.tape }
        ensures sound { T.never_fails self.old.tape →
            IfErr result (λ fault. fault ≢ NodeFault.TapeFailed) }
    {
        // The model's theorems: what records fold to has votes and promises of sequences that
        // aren't published, and no vote without a promise.
        folds_are_open::<Canon>();
        votes_are_promised::<Canon>();
        self.machine.rewrite(alloc)
    }
}

impl<T: Tape> Machine<T> {
    /// Replaces the records on the tape by those of the durable state.
    fn rewrite(&mut self, alloc: Global) -> Result<(), NodeFault>
        requires { self.old.journal.halted ≡ false }
        ensures replacement { IsReplacement T.Tape (short_records (stored_in self.old.persistent))
            self.old.journal result self.new.journal }
        ensures inside { LeavesOldOrRecords T.Tape (short_records (stored_in self.old.persistent))
            self.old.journal self.new.journal }
        ensures persistent { self.new.persistent ≡ self.old.persistent }
        ensures proposer { self.new.proposer ≡ self.old.proposer }
    {
        match short_records(alloc, &self.persistent) {
            Ok(records) => {
                let replaced = replace(&mut self.journal, alloc, &records);
                drop(records);
                replaced
            }
            Err(_) => Err(NodeFault::Memory),
        }
    }
}

/// Replaces all records of the journal by these.
fn replace<T: Tape>(
    journal: &mut Journal<T>,
    alloc: Global,
    records: &[Record],
) -> Result<(), NodeFault>
    requires { journal.old.halted ≡ false }
    ensures replacement { IsReplacement T.Tape (map view records.now)
        journal.old result journal.new }
    ensures inside { LeavesOldOrRecords T.Tape (map view records.now) journal.old journal.new }
{
    match journal.rewrite(alloc, records) {
        Ok(()) => Ok(()),
        Err(AddFault::TapeFailed) => Err(NodeFault::TapeFailed),
        Err(AddFault::Memory) => Err(NodeFault::Memory),
    }
}

/// The records of a shortened tape.
pub(crate) fn short_records(
    alloc: Global,
    persistent: &DurablePart,
) -> Result<Vec<Record>, AllocError>
    ensures { IfOk result (λ records. map view records.items ≡
        short_records (stored_in persistent.now)) }
{
    let mut records = Vec::new(alloc);
    push_tried(&mut records, persistent.last_round())?;
    push_sequences(&mut records, persistent)?;
    push_promise(&mut records, persistent)?;
    Ok(records)
}

/// Appends the record of the last round tried, if one was.
fn push_tried(records: &mut Vec<Record>, tried: u32) -> Result<(), AllocError>
    ensures { OnOk result (Appends (tried_records tried) records.old records.new) }
{
    match Round::new(tried) {
        Some(round) => push(records, Record::Tried(round)),
        None => Ok(()),
    }
}

/// Appends the records of each sequence.
fn push_sequences(records: &mut Vec<Record>, persistent: &DurablePart) -> Result<(), AllocError>
    ensures { OnOk result
        (Appends (records_from (stored_in persistent.now) 1 last_sequence) records.old records.new) }
{
    for number in 1..SEQUENCES + 1 {
        push_sequence(records, persistent, slot_of(number))?;
    }
    Ok(())
}

/// The slot of this number.
pub(crate) fn slot_of(number: u16) -> Slot
    requires { IsSlot number }
    ensures { result ≡ number }
{
    Slot::new(number).unwrap()
}

/// Appends the records of a slot.
fn push_sequence(
    records: &mut Vec<Record>,
    persistent: &DurablePart,
    slot: Slot,
) -> Result<(), AllocError>
    ensures { OnOk result
        (Appends (records_at (stored_in persistent.now) slot) records.old records.new) }
{
    match persistent.history().canon(slot) {
        Some(canon) => push(records, Record::Published(slot, canon.copy()?)),
        None => push_vote(records, persistent, slot),
    }
}

/// Appends the record of the slot's vote, if there is one.
fn push_vote(
    records: &mut Vec<Record>,
    persistent: &DurablePart,
    slot: Slot,
) -> Result<(), AllocError>
    ensures { OnOk result
        (Appends (vote_records slot ((stored_in persistent.now).votes slot)) records.old records.new) }
{
    match persistent.vote_at(slot) {
        Some((ballot, canon)) => push(records, Record::Accepted(slot, *ballot, canon.copy()?)),
        None => Ok(()),
    }
}

/// Appends the record of the promise, if there is one and no vote is at its ballot.
fn push_promise(records: &mut Vec<Record>, persistent: &DurablePart) -> Result<(), AllocError>
    ensures { OnOk result (Appends
        (promise_records (stored_in persistent.now) (stored_in persistent.now).promise)
        records.old records.new) }
{
    let Some(promise) = persistent.promise() else {
        return Ok(());
    };
    if is_voted(persistent, promise) {
        return Ok(());
    }
    push(
        records,
        Record::Promised(promised_slot(persistent), promise),
    )
}

/// Whether a vote is at the ballot.
fn is_voted(persistent: &DurablePart, ballot: Ballot) -> bool
    ensures { result ≡ is_voted (stored_in persistent.now).votes ballot last_sequence }
{
    for number in 1..SEQUENCES + 1 {
        if persistent.is_voted_at(slot_of(number), ballot) {
            return true;
        }
    }
    false
}

/// The slot of the promise's record: the next one, or the last if that is published.
fn promised_slot(persistent: &DurablePart) -> Slot
    ensures { result ≡ promised_sequence (stored_in persistent.now) }
{
    match persistent.history().next_slot() {
        Some(slot) => slot,
        None => slot_of(SEQUENCES),
    }
}

/// Appends a record.
#[tactic(auto, using(crate::proofs::Pushed::one_more))]
fn push(records: &mut Vec<Record>, entry: Record) -> Result<(), AllocError>
    ensures { OnOk result (Appends (view entry ∷ []) records.old records.new) }
{
    records.push(entry)?;
    Ok(())
}
