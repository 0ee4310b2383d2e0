//! Writes a record to the tape before it takes effect.

ghost use Rattle.std.specs.Prelude.{◌≡◌, false, option_map};
ghost use Rattle.std.specs.Option.{option_copied};
ghost use Rattle.wf_node.specs.TapeWrites.{IsWrite, keeping};
ghost use Rattle.wf_journal.specs.Record.{view};

use crate::fault::NodeFault;
use std::alloc::Global;
use wf_journal::{AddFault, Journal, Record};
use wf_tape::Tape;

/// Adds the record to the journal, if there is one.
pub(crate) fn store<T: Tape>(
    journal: &mut Journal<T>,
    alloc: Global,
    entry: Option<&Record>,
) -> Result<(), NodeFault>
    requires { journal.old.halted ≡ false }
    ensures { IsWrite T.Tape (option_map view (option_copied entry.entry))
        journal.old result journal.new }
{
    match entry {
        None => Ok(()),
        Some(entry) => add(journal, alloc, entry),
    }
}

/// Has the journal keep the record that wasn't stored, if that is since the tape failed: it may be
/// on the tape.
pub(crate) fn keep_unwritten<T: Tape>(
    journal: &mut Journal<T>,
    fault: NodeFault,
    entry: Option<Record>,
)
    ensures { journal.new ≡ keeping fault (option_map view entry) journal.old }
{
    match fault {
        NodeFault::TapeFailed => journal.keep_failed(entry),
        NodeFault::Memory
        | NodeFault::Busy
        | NodeFault::SequenceFull
        | NodeFault::RoundsFull
        | NodeFault::Halted
        | NodeFault::Nothing => drop(entry),
    }
}

/// Adds the record to the journal.
fn add<T: Tape>(journal: &mut Journal<T>, alloc: Global, entry: &Record) -> Result<(), NodeFault>
    requires { journal.old.halted ≡ false }
    ensures { IsWrite T.Tape (Some (view entry.now)) journal.old result journal.new }
{
    match journal.add(alloc, entry) {
        Ok(()) => Ok(()),
        Err(AddFault::TapeFailed) => Err(NodeFault::TapeFailed),
        Err(AddFault::Memory) => Err(NodeFault::Memory),
    }
}
