//! A tape that is written anew, whole.
ghost use Rattle.std.specs.Prelude.{◌≡◌, ◌≢◌, IfErr, IfOk};
ghost use Rattle.wf_journal.specs.Journal.{IsBadAt, IsNotBad, IsWhereBad};
ghost use Rattle.wf_node_folder.specs.Damage.{AreWhole, IsWhyDamaged};
ghost use Rattle.wf_node_folder.specs.Held.{ReadAlike};

use crate::theorem::whole_records_are_bad_nowhere;
use std::alloc::Global;
use wf_journal::{Journal, OpenFault, records_are_read_one_way};
use wf_recovery::drop_unsynced;
use wf_tape::{Tape, TapeFault};

/// A tape written anew, with its whole records alone, and how many zeros were dropped that were
/// behind them and never synced. Err: the byte offset at which the tape is damaged; or it failed,
/// or an allocation did.
#[tactic(auto, using(crate::proofs::Kept::alike_back, crate::proofs::Damage::damaged_there))]
pub(crate) fn settle<T: Tape + Drop>(alloc: Global, tape: T) -> Result<(T, usize), OpenFault>
    ensures alike { T.durable →
        IfOk result (λ settled. ReadAlike (T.content tape) (T.content settled.0)) }
    ensures whole { T.durable → IfOk result (λ settled. AreWhole (T.content settled.0)) }
    ensures why { T.durable → IfErr result (λ fault. IsWhyDamaged fault (T.content tape)) }
{
    match rewrite(alloc, tape) {
        Ok(tape) => Ok((tape, 0)),
        Err((tape, fault)) => recover(alloc, tape, fault),
    }
}

/// A tape that has nothing or a torn record behind its records, written anew.
#[tactic(auto, using(crate::proofs::Kept::bad_still))]
fn rewrite<T: Tape>(alloc: Global, tape: T) -> Result<T, (T, OpenFault)>
    ensures alike { T.durable →
        IfOk result (λ settled. ReadAlike (T.content tape) (T.content settled)) }
    ensures whole { T.durable → IfOk result (λ settled. AreWhole (T.content settled)) }
    ensures kept { T.durable →
        IfErr result (λ e. e.1 ≢ OpenFault.TapeFailed → T.content e.0 ≡ T.content tape) }
    ensures bad { T.durable → IfErr result (λ e. IsWhereBad e.1 (T.content e.0)) }
{
    // Bytes are read as one list of records at most.
    records_are_read_one_way();
    match Journal::open(alloc, tape) {
        Ok((journal, records)) => {
            drop(records);
            Ok(journal.close())
        }
        Err((tape, fault)) => Err((tape, fault)),
    }
}

/// A tape on which no journal opened, written anew, if what was never synced is why.
#[tactic(auto, using(crate::proofs::Kept::unfailed))]
fn recover<T: Tape + Drop>(
    alloc: Global,
    tape: T,
    fault: OpenFault,
) -> Result<(T, usize), OpenFault>
    requires { T.durable → IsWhereBad fault (T.content tape) }
    ensures alike { T.durable →
        IfOk result (λ settled. ReadAlike (T.content tape) (T.content settled.0)) }
    ensures whole { T.durable → IfOk result (λ settled. AreWhole (T.content settled.0)) }
    ensures why { T.durable → IfErr result (λ why. IsWhyDamaged why (T.content tape)) }
    ensures unfailed { IfOk result (λ _. fault ≢ OpenFault.TapeFailed) }
    ensures failed { IfErr result (λ why. fault ≡ OpenFault.TapeFailed → IsNotBad why) }
{
    match fault {
        OpenFault::BadRecord(offset) => settle_front(alloc, tape, offset),
        OpenFault::TapeFailed | OpenFault::Memory => {
            drop(tape);
            Err(fault)
        }
    }
}

/// A tape that is bad at this offset, written anew, if what is there was never synced.
#[tactic(auto, using(crate::proofs::Kept::alike_twice, crate::proofs::Damage::never_bad))]
fn settle_front<T: Tape + Drop>(
    alloc: Global,
    tape: T,
    offset: usize,
) -> Result<(T, usize), OpenFault>
    requires { T.durable → IsBadAt (T.content tape) offset }
    ensures alike { T.durable →
        IfOk result (λ settled. ReadAlike (T.content tape) (T.content settled.0)) }
    ensures whole { T.durable → IfOk result (λ settled. AreWhole (T.content settled.0)) }
    ensures why { T.durable → IfErr result (λ fault. IsWhyDamaged fault (T.content tape)) }
{
    whole_records_are_bad_nowhere();
    let (front, dropped) = match drop_zeros(alloc, tape, offset) {
        Ok((front, dropped)) => (front, dropped),
        Err(fault) => return Err(fault),
    };
    match rewrite(alloc, front) {
        Ok(tape) => Ok((tape, dropped)),
        Err((tape, fault)) => {
            drop(tape);
            Err(fault)
        }
    }
}

/// A tape that is bad at this offset, without the zeros there, which were never synced, and their
/// number. Err: it has something else there.
#[tactic(auto, using(crate::proofs::Damage::front_whole, crate::proofs::Damage::none_dropped))]
fn drop_zeros<T: Tape + Drop>(
    alloc: Global,
    tape: T,
    offset: usize,
) -> Result<(T, usize), OpenFault>
    requires { T.durable → IsBadAt (T.content tape) offset }
    ensures alike { T.durable →
        IfOk result (λ front. ReadAlike (T.content tape) (T.content front.0)) }
    ensures whole { T.durable → IfOk result (λ front. AreWhole (T.content front.0)) }
    ensures why { T.durable → IfErr result (λ fault. IsWhyDamaged fault (T.content tape)) }
{
    // Bytes are read as one list of records at most.
    records_are_read_one_way();
    let mut tape = tape;
    match drop_unsynced(alloc, &mut tape, offset) {
        Ok(0) => {
            drop(tape);
            Err(OpenFault::BadRecord(offset))
        }
        Ok(dropped) => Ok((tape, dropped)),
        Err(fault) => {
            drop(tape);
            Err(match fault {
                TapeFault::Memory => OpenFault::Memory,
                TapeFault::Device => OpenFault::TapeFailed,
            })
        }
    }
}
