//! Theorems about the sessions on one folder. Each call does nothing.

ghost use Rattle.wf_runs.specs.Theorems.{FolderIsOneFarm, SessionsAreOneFarm};
ghost use Rattle.wf_runs.specs.CrashImages.{DiskLeavesBetween, DiskLeavesFailed, OpeningReadsAlike, ShorteningReadsAlike};
ghost use Rattle.wf_runs.specs.ServedSteps.{NewRunIsOneFarm, RunsAreOneFarm, ServingIsSteps};

use wf_delivery::a_step_is_answered;
use wf_disk::{Disk, a_process_ends_in_an_image};
use wf_execution::{durable_tapes_leave_this, lists_grow, processes_agree, processes_answer_alike};
use wf_journal::records_are_read_one_way;
use wf_tape::{DiskTape, Tape};

/// Sessions on one folder are a farm of processes of `wf_execution`, one for each node, whose lives
/// go on from one session to the next.
pub fn a_folder_is_one_farm<T: Tape>()
    ensures { FolderIsOneFarm T.Tape }
{
    // A tape stands for one durable state.
    records_are_read_one_way();
}

/// The headline across restarts: the nodes of all sessions on one folder publish one history, none
/// of them loses a map of it, and any two, at any two moments, respond alike.
pub fn sessions_are_one_farm<T: Tape>()
    ensures { SessionsAreOneFarm T.Tape }
{
    a_folder_is_one_farm::<T>();
    processes_agree::<T>();
    lists_grow::<T>();
    processes_answer_alike::<T>();
}

/// What was served is steps of the nodes, each by its contract, in which only messages are
/// delivered that were returned.
pub fn a_serving_is_steps<T: Tape>()
    ensures { ServingIsSteps T.Tape }
{
    a_step_is_answered::<T>();
}

/// The runs of `serve` on one folder that was new, each of which read of the tapes what the one
/// before it left, whether that returned, was killed or was cut off with the power, are such
/// sessions. So is the one run of a service without a folder.
pub fn runs_are_one_farm<M: Tape, F: Tape>()
    ensures files { RunsAreOneFarm M.Tape F.Tape }
    ensures memory { NewRunIsOneFarm M.Tape F.Tape }
{
    sessions_are_one_farm::<F>();
    sessions_are_one_farm::<M>();
}

/// What openings that are cut off are said to leave is what a durable tape leaves: whatever a crash
/// leaves inside the call that opens a node, or inside the one that shortens its tape then.
pub fn openings_read_alike<T: Tape>()
    ensures open { OpeningReadsAlike T.Tape }
    ensures shorten { ShorteningReadsAlike T.Tape }
{
    records_are_read_one_way();
}

/// What a run is said to leave is what a durable disk has after the process has ended, whether that
/// was killed, so that the folder stays as it is, or was cut off with the power: while the node
/// runs, and after its tape has failed.
pub fn disks_leave_this<D: Disk>()
    ensures between { DiskLeavesBetween D.Disk }
    ensures failed { DiskLeavesFailed D.Disk ⟦<DiskTape<D> as Tape>⟧ }
{
    a_process_ends_in_an_image();
    durable_tapes_leave_this::<DiskTape<D>>();
}
