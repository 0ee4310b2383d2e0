//! One step of a node.

use crate::fault::NodeFault;
use crate::node::Node;
use std::alloc::Global;
use wf_codec::{Canon, Message};
use wf_model::{Action, records_fit};
use wf_tape::Tape;

/// An input of a node's step: an action, whose message is the message itself.
pub type Input = Action<Canon, Message>;

impl<T: Tape> Node<T> {
    ghost use Rattle.std.specs.Prelude.{◌≡◌, ◌≢◌, ◌++◌, true, false, Err, IfOk, IfErr, IsSome, OnOk};
    ghost use Rattle.wf_node.specs.Fault.{rejected_by};
    ghost use Rattle.wf_node.specs.Images.{EachStandsFor, EachIsCut};
    ghost use Rattle.wf_node.specs.Input.{view};
    ghost use Rattle.wf_node.specs.Node.{stored_of, IsOnTape};
    ghost use Rattle.wf_node.specs.Step.{transition_of, entry_of, stored_next, step_rejection_at, IsTransition, IsSameNode, IsStep, TakesMemory};
    ghost use Rattle.wf_node.specs.TapeWrites.{bytes_of};
    ghost use Rattle.wf_tape.specs.Change.{inside, HasFailed, Stays};
    ghost use Rattle.wf_tape.specs.Tape.{IsExtended};

    /// One step: the step table's transition for the input, whose messages are returned once its
    /// record is on the tape, after what was there. A halted node returns N5. A step that the table
    /// rejects changes nothing: N2 if a proposal is requested while one is running, N7 if a retry
    /// is while none is, then N3 if the last sequence is published, then N4 if a new round is
    /// needed and there is no higher one; a proposal under a leadership that covers the next
    /// sequence needs none. Then N1 if allocation failed, which changes nothing either; a
    /// transition that stores and sends nothing, as that of an answer that leaves no majority,
    /// doesn't allocate. And N6 if the tape failed, which halts the node: a prefix of its record's
    /// bytes is on the tape, after what was there, the node keeps the record, and no message is
    /// returned. A crash at each moment inside the step leaves what stands for the stored part from
    /// before it, or for the transition's. With a tape that won't fail N6 isn't returned, and the
    /// tape still won't fail.
    pub fn step(&mut self, alloc: Global, input: Input) -> Result<Vec<Message>, NodeFault>
        ensures halted { self.old.halted ≡ true → result ≡ Err NodeFault.Halted }
        ensures running { result ≡ Err NodeFault.Halted → self.old.halted ≡ true }
        ensures refused { self.old.halted ≡ false →
            rejected_by result ≡ step_rejection_at self.old (view input) }
        ensures transition { IfOk result (λ messages.
            IsTransition self.old (transition_of self.old (view input)) messages.items self.new) }
        ensures on_tape { T.durable → OnOk result (IsOnTape T.Tape self.new) }
        ensures content { T.durable → OnOk result (T.content self.new.tape ≡
            T.content self.old.tape ++ bytes_of (entry_of self.old (view input))) }
        ensures unchanged { IfErr result (λ fault.
            fault ≢ NodeFault.Memory → fault ≢ NodeFault.TapeFailed → self.new ≡ self.old) }
        ensures same { IfErr result (λ fault. IsSameNode self.old self.new) }
        ensures memory { result ≡ Err NodeFault.Memory → self.new.halted ≡ false }
        ensures same_tape { T.durable → result ≡ Err NodeFault.Memory →
            Stays T.Tape self.old.tape self.new.tape }
        ensures takes { result ≡ Err NodeFault.Memory → TakesMemory self.old (view input) }
        ensures failed { result ≡ Err NodeFault.TapeFailed →
            HasFailed T.Tape self.old.tape self.new.tape }
        ensures writes { result ≡ Err NodeFault.TapeFailed →
            IsSome (entry_of self.old (view input)) }
        ensures halts { result ≡ Err NodeFault.TapeFailed → self.new.halted ≡ true }
        ensures kept { result ≡ Err NodeFault.TapeFailed →
            self.new.failed ≡ entry_of self.old (view input) }
        ensures part { T.durable → result ≡ Err NodeFault.TapeFailed →
            IsExtended (T.content self.old.tape) (bytes_of (entry_of self.old (view input)))
            (T.content self.new.tape) }
        ensures torn { T.durable → result ≡ Err NodeFault.TapeFailed →
            EachStandsFor (stored_of self.old) (stored_next self.old (view input))
            (T.images self.new.tape) }
        ensures cut { T.durable → result ≡ Err NodeFault.TapeFailed →
            EachIsCut (entry_of self.old (view input)) (stored_of self.old)
            (stored_next self.old (view input))
            (T.images self.old.tape) (T.images self.new.tape) }
        ensures sturdy { T.never_fails self.old.tape → T.never_fails self.new.tape }
        ensures sound { T.never_fails self.old.tape →
            IfErr result (λ fault. fault ≢ NodeFault.TapeFailed) }
        ensures inside { T.durable → self.old.halted ≡ false →
            EachStandsFor (stored_of self.old) (stored_next self.old (view input))
            (inside T.Tape self.old.tape self.new.tape) }
    {
        if self.is_halted() {
            drop(input);
            return Err(NodeFault::Halted);
        }
        self.advance(alloc, input)
    }

    /// Whether the tape failed.
    fn is_halted(&self) -> bool
        ensures { result ≡ self.now.halted }
    {
        self.machine.journal.is_halted()
    }

    /// A step of a node that isn't halted.
    fn advance(&mut self, alloc: Global, input: Input) -> Result<Vec<Message>, NodeFault>
        requires { self.old.halted ≡ false }
        ensures step { IsStep T.Tape self.old (view input) result self.new }
        ensures cut { T.durable → result ≡ Err NodeFault.TapeFailed →
            EachIsCut (entry_of self.old (view input)) (stored_of self.old)
            (stored_next self.old (view input))
            (T.images self.old.tape) (T.images self.new.tape) }
        ensures sturdy { T.never_fails self.old.tape → T.never_fails self.new.tape }
        ensures sound { T.never_fails self.old.tape →
            IfErr result (λ fault. fault ≢ NodeFault.TapeFailed) }
        ensures inside { T.durable →
            EachStandsFor (stored_of self.old) (stored_next self.old (view input))
            (inside T.Tape self.old.tape self.new.tape) }
    {
        // The model's theorem: each transition's record fits the stored state.
        records_fit::<Canon>();
        self.machine.act(alloc, input)
    }
}
