//! A node opens with its tape, and returns it when it closes.

ghost use Rattle.std.specs.Prelude.{◌≡◌, ◌≢◌, ◌+◌, ◌<◌, ◌≤◌, ◌^◌, false, map, length, Some, IfOk, IfErr, OnOk};
ghost use Rattle.wf_model.specs.DurableState.{fold, nothing_stored};
ghost use Rattle.wf_model.specs.VolatileState as model;
ghost use Rattle.wf_node.specs.Images.{AllStandFor};
ghost use Rattle.wf_node.specs.DurablePart as persistent_;
ghost use Rattle.wf_node.specs.Node.{stored_of, volatile_of, IsOnTape};
ghost use Rattle.wf_node.specs.OpenedNode.{IsFoldOf, IsRead, IsWhyBad, IsApplied, IsWhyRecordRejected, IsWhyUnfolded};
ghost use Rattle.wf_tape.specs.Change.{inside, Stays};
ghost use Rattle.wf_journal.specs.Journal.{Follows, ReadsSame, IsWhyFailed};
ghost use Rattle.wf_journal.specs.Record.{view};
ghost use Rattle.wf_journal.specs.Records.{length_of};
ghost use Rattle.wf_journal.specs.Encoding.{spelling};

use crate::machine::Machine;
use crate::node::Node;
use crate::stored_part::DurablePart;
use std::alloc::Global;
use wf_ballot::NodeId;
use wf_journal::{Found, Journal, OpenFault, Record};
use wf_proposer::Proposer;
use wf_tape::Tape;

impl<T: Tape> Node<T> {
    /// Node `id` of `n` nodes, with the durable state of its tape, no proposal and no leadership. A
    /// torn record after the whole ones is removed, and what is kept is synced. An error returns
    /// the tape, unchanged unless the tape itself failed: P1 if the tape failed; P2 with the byte
    /// offset if what follows the whole records isn't a record, or if a published definition isn't
    /// the next one; P3 if allocation failed. Each record is moved once, so opening takes time in
    /// proportion to the tape. A crash at each moment inside the call leaves what reads as
    /// something that a crash could have left before it. A tape that won't fail still won't, and P1
    /// isn't returned. Of a tape that isn't durable: the durable state is that of the bytes that
    /// were read.
    #[tactic(auto, using(crate::proofs::Opened::fold_of, crate::proofs::Opened::read_of, crate::proofs::Opened::stands_all, crate::proofs::Opened::bad_read, crate::proofs::Opened::bad_fold, crate::proofs::Opened::bad_settle, crate::proofs::Opened::unfolded_soundly, crate::proofs::Opened::same_before, wf_journal::specs::MomentTheorems::inside_opened, crate::proofs::Opened::follows_before, crate::proofs::Opened::unchanged_before, crate::proofs::Opened::why_failed_before))]
    pub fn open(alloc: Global, tape: T, id: NodeId, n: u8) -> Result<Node<T>, (T, OpenFault)>
        requires nodes { n ≤ 64 }
        requires member { id < n }
        ensures running { IfOk result (λ node. node.halted ≡ false) }
        ensures id { IfOk result (λ node. node.id ≡ id) }
        ensures n { IfOk result (λ node. node.n ≡ n) }
        ensures volatile { IfOk result (λ node. volatile_of node ≡ model.at_start) }
        ensures stored { T.durable →
            IfOk result (λ node. IsFoldOf (stored_of node) (T.content tape)) }
        ensures found { IfOk result (λ node. IsRead T.durable (T.content tape) (stored_of node)) }
        ensures stands { T.durable → IfOk result (IsOnTape T.Tape) }
        ensures images { T.durable →
            IfOk result (λ node. Follows ReadsSame (T.images tape) (T.images node.tape)) }
        ensures images_err { T.durable →
            IfErr result (λ e. Follows ReadsSame (T.images tape) (T.images e.0)) }
        ensures inside { T.durable →
            IfOk result (λ node. Follows ReadsSame (T.images tape) (inside T.Tape tape node.tape)) }
        ensures inside_err { T.durable →
            IfErr result (λ e. Follows ReadsSame (T.images tape) (inside T.Tape tape e.0)) }
        ensures unchanged { T.durable →
            IfErr result (λ e. e.1 ≢ OpenFault.TapeFailed → Stays T.Tape tape e.0) }
        ensures bad { T.durable → IfErr result (λ e. IsWhyBad e.1 (T.content tape)) }
        ensures failed { IfErr result (λ e. IsWhyFailed e.1 (T.failed tape) (T.failed e.0)) }
        ensures sturdy { T.never_fails tape → IfOk result (λ node. T.never_fails node.tape) }
        ensures sturdy_err { T.never_fails tape → IfErr result (λ e. T.never_fails e.0) }
        ensures sound { T.never_fails tape → IfErr result (λ e. e.1 ≢ OpenFault.TapeFailed) }
    {
        match Found::read(alloc, tape) {
            Ok((found, records)) => match fold(alloc, id, records) {
                Ok(persistent) => match found.settle() {
                    Ok(journal) => Ok(assemble(journal, persistent, id, n)),
                    Err(step_rejection) => {
                        discard(persistent);
                        Err(step_rejection)
                    }
                },
                Err(fault) => Err((found.close(), fault)),
            },
            Err(step_rejection) => Err(step_rejection),
        }
    }

    /// Returns the node's tape unchanged. Unless the node is halted, every image of a durable tape
    /// stands for the node's stored part.
    pub fn close(self) -> T
        ensures tape { result ≡ self.tape }
        ensures stands { T.durable → self.halted ≡ false →
            AllStandFor (stored_of self) (T.images result) }
    {
        let Node { machine } = self;
        let Machine { journal, .. } = machine;
        journal.close()
    }
}

/// The node of this journal and this durable state, with no proposal and no leadership yet.
#[tactic(auto, using(crate::proofs::Shown::volatile_shown))]
fn assemble<T: Tape>(journal: Journal<T>, persistent: DurablePart, id: NodeId, n: u8) -> Node<T>
    requires id { persistent.id ≡ id }
    requires stands { T.durable → journal.halted ≡ false →
        AllStandFor (persistent_.stored_of persistent) (T.images journal.tape) }
    ensures tape { result.tape ≡ journal.tape }
    ensures halted { result.halted ≡ journal.halted }
    ensures id { result.id ≡ id }
    ensures n { result.n ≡ n }
    ensures parts { result.parts ≡ persistent.parts }
    ensures volatile { volatile_of result ≡ model.at_start }
{
    let proposer = Proposer::new(id, n);
    let machine = Machine {
        journal,
        persistent,
        proposer,
    };
    Node { machine }
}

/// The fold of the records that were found, the oldest first.
fn fold(alloc: Global, id: NodeId, records: Vec<Record>) -> Result<DurablePart, OpenFault>
    requires { length_of (map view records.items) < 2 ^ 64 }
    ensures ok { IfOk result (λ persistent. fold (map view records.items) ≡
        Some (persistent_.stored_of persistent)) }
    ensures id { IfOk result (λ persistent. persistent.id ≡ id) }
    ensures why { IfErr result (IsWhyUnfolded (map view records.items)) }
{
    let Ok(mut persistent) = DurablePart::new(alloc, id) else {
        return Err(OpenFault::Memory);
    };
    match take_all(&mut persistent, records) {
        Ok(()) => Ok(persistent),
        Err(fault) => {
            discard(persistent);
            Err(fault)
        }
    }
}

/// Applies the records to an empty durable state.
#[tactic(auto, using(crate::proofs::Folded::all_taken, crate::proofs::Folded::why_unfolded))]
fn take_all(persistent: &mut DurablePart, records: Vec<Record>) -> Result<(), OpenFault>
    requires nothing { persistent_.stored_of persistent.old ≡ nothing_stored }
    requires size { length_of (map view records.items) < 2 ^ 64 }
    ensures ok { OnOk result (fold (map view records.items) ≡
        Some (persistent_.stored_of persistent.new)) }
    ensures id { persistent.new.id ≡ persistent.old.id }
    ensures why { IfErr result (IsWhyUnfolded (map view records.items)) }
{
    let mut index = 0;
    for entry in records {
        match take_at(persistent, index, entry) {
            Ok(next) => index = next,
            Err(fault) => return Err(fault),
        }
    }
    Ok(())
}

/// Applies the record at this byte offset, and returns the offset of the next one.
fn take_at(persistent: &mut DurablePart, index: usize, entry: Record) -> Result<usize, OpenFault>
    requires { index + length (spelling (view entry)) < 2 ^ 64 }
    ensures ok { IfOk result (λ next.
        IsApplied (persistent_.stored_of persistent.old) (view entry) index (persistent_.stored_of persistent.new) next) }
    ensures id { persistent.new.id ≡ persistent.old.id }
    ensures why { IfErr result (IsWhyRecordRejected (persistent_.stored_of persistent.old)
        (view entry) index) }
{
    if !persistent.fits(&entry) {
        drop(entry);
        return Err(OpenFault::BadRecord(index));
    }
    let next = index + entry.length();
    match persistent.apply(entry) {
        Ok(()) => Ok(next),
        Err(_) => Err(OpenFault::Memory),
    }
}

/// Drops a durable state that no node has.
fn discard(_persistent: DurablePart) {}
