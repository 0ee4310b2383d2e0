//! The questions.
use crate::{files, starts};
use std::fs::File;
use std::net::Net;
use std::rt::Files;
use std::time::Clock;
use wf_test_table::{Answered, CaseInput, Transcript, Unanswered};

/// Asks a question about a folder in memory. CALL is the number of the call of its disks that
/// fails, 0 for none; KEPT bytes of what that was given are kept; then the power is cut, after
/// which a file is the one that it was BACK replacements before, if that wasn't synced.
///
/// ```text
/// replaced            CALL KEPT BACK      whether the file `farm` is replaced, and its bytes after
///                                         the cut
/// path                a file              its path in the folder `folder`
/// written                                 whether each file is there, before each is replaced; how
///                                         many there are then; and their bytes after a cut
/// locked                                  what two processes get that lock the folder, of which
///                                         the first one ends
/// made_tape                               what a tape is before and after it is opened, and after
///                                         a cut that keeps four bytes of what wasn't synced
/// cut_init                                whether `init`, cut at whichever of its calls, leaves a
///                                         folder on which a node starts exactly where the file
///                                         `farm` is there, with its tape: for each KEPT below 3
///                                         and BACK below 2
/// cut_start           a tape              whether, after a start that was cut at whichever of its
///                                         calls, the next one leaves of the tape what one leaves
///                                         that isn't cut: for each KEPT and BACK below 2
/// started             a tape              what a start leaves behind the first record
/// ```
pub fn ask<R: Files<File = File> + Clock + Eprint + Net + AllocGlobal>(
    rt: &R,
    question: &str,
    asked: CaseInput<'_>,
    answer: &mut Transcript,
) -> Answered {
    match question {
        "replaced" => files::replaced(asked, answer),
        "path" => files::path(asked, answer),
        "written" => files::written(asked, answer),
        "locked" => files::locked(asked, answer),
        "made_tape" => files::made_tape(asked, answer),
        "cut_init" => starts::cut_init(rt, asked, answer),
        "cut_start" => starts::cut_start(rt, asked, answer),
        "started" => starts::left_tape(rt, asked, answer),
        _ => Err(Unanswered::UnknownQuestion),
    }
}
