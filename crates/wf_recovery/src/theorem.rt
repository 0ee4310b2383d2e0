//! A theorem about what was never synced.
ghost use Rattle.std.specs.Prelude.{ℕ, List};
ghost use Rattle.wf_journal.specs.Records.{BeginsWithNone};
ghost use Rattle.wf_recovery.specs.Unsynced.{IsUnsynced};

/// What was never synced begins with no record, so that no record is dropped. A theorem: the call
/// does nothing.
pub fn zeros_begin_no_record()
    ensures { (rest : List ℕ) → IsUnsynced rest → BeginsWithNone rest }
{}
