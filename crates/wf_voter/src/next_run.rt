//! A process begins, and goes on in its next run.
ghost use Rattle.std.specs.Prelude.{◌≡◌, ◌++◌, ◌∷◌, [], true, IfErr, IfOk, IsSome, OnOk};
ghost use Rattle.wf_actor.specs.Process.{IsJustOpened};
ghost use Rattle.wf_digest.specs.Digest.{AreDigestsOf};
ghost use Rattle.wf_node.specs.Reopening.{HasStoredAs};
ghost use Rattle.wf_store.specs.Call.{IsAfter};
ghost use Rattle.wf_voter.specs.Cause.{IsWhyNoNextRun};
ghost use Rattle.wf_voter.specs.Continuation.{IsNextRun};
ghost use Rattle.wf_voter.specs.Folder.{counted};

use crate::reopening::{NextRun, NodeFolder, NotReopened};
use crate::voter::Voter;
use std::alloc::Global;
use wf_actor::Process;
use wf_digest::Digests;
use wf_folder::Suspension;
use wf_membership::{Gate, Membership, Tally};
use wf_operator::PictureCounts;
use wf_peer::PeerProgress;
use wf_tape::Tape;

impl<T: Tape> Voter<T> {
    /// A process that has answered nobody yet, and doesn't act yet.
    pub fn new(
        alloc: Global,
        process: Process<T>,
        kept: PeerProgress,
        suspension: &Option<Suspension>,
        membership: Membership,
    ) -> Self
        ensures process { result.process ≡ process }
        ensures kept { result.kept ≡ kept }
        ensures suspended { IsSome suspension.now → result.gate ≡ Gate.Suspended }
        ensures membership { result.membership ≡ membership }
    {
        let gate = match suspension {
            Some(_) => Gate::Suspended,
            None => Gate::Starting,
        };
        Voter {
            process,
            gate,
            is_outvoted: false,
            membership,
            kept,
            rejected: Tally::new(alloc),
            pictures: PictureCounts::default(),
        }
    }
}

impl<T: Tape + Drop> Voter<T> {
    /// The process's next run, on the tape of its folder, whose start is counted last. Err: why its
    /// folder gives none (`specs/Cause.antt`), or its tape.
    #[tactic(auto, using(crate::proofs::Cause::no_next_run, crate::proofs::Cause::halted_later))]
    pub fn next_run<F: NodeFolder<T>>(
        &self,
        alloc: Global,
        folder: &mut F,
    ) -> Result<NextRun<T>, NotReopened>
        ensures begun { IfOk result (λ next. IsJustOpened next.process) }
        ensures stored { IfOk result (λ next.
            HasStoredAs self.now.process.actor.node next.process.actor.node) }
        ensures ended { IfOk result (λ next. next.process.ended.items ≡
            self.now.process.ended.items ++ (self.now.process.actor, 0) ∷ []) }
        ensures follows { IfOk result (λ next. self.now.process.actor.node.halted ≡ true →
            IsNextRun T.Tape self.now.process.actor next.process.actor) }
        ensures digests { IfOk result (λ next. AreDigestsOf [] next.digests) }
        ensures counted { OnOk result (F.stands folder.new ≡ counted (F.stands folder.old)) }
        ensures before { (F.stands folder.new).begun ≡ (F.stands folder.old).begun }
        ensures heard { (F.stands folder.new).heard ≡ (F.stands folder.old).heard }
        ensures starts { IfOk result (λ next. next.starts ≡ (F.stands folder.new).starts) }
        ensures err { IfErr result (λ why. IsWhyNoNextRun why (F.stands folder.old).starts
            (F.farm folder.old) (F.attempted folder.old)
            (F.calls folder.old) (F.calls folder.new)) }
    {
        let process = match self.open_process(alloc, folder) {
            Ok(process) => process,
            Err(why) => return Err(why),
        };
        let Ok(digests) = Digests::new(alloc) else {
            drop(process);
            return Err(NotReopened::Memory);
        };
        match folder.count_start() {
            Ok(starts) => Ok(NextRun {
                process,
                digests,
                starts,
            }),
            Err(why) => {
                drop(process);
                drop(digests);
                Err(why)
            }
        }
    }

    /// The process in its next run, on the tape of its folder.
    #[tactic(auto, using(crate::proofs::Continuation::follows_opened, crate::proofs::Cause::no_next_run))]
    fn open_process<F: NodeFolder<T>>(
        &self,
        alloc: Global,
        folder: &mut F,
    ) -> Result<Process<T>, NotReopened>
        ensures begun { IfOk result (λ process. IsJustOpened process) }
        ensures stored { IfOk result (λ process.
            HasStoredAs self.now.process.actor.node process.actor.node) }
        ensures ended { IfOk result (λ process. process.ended.items ≡
            self.now.process.ended.items ++ (self.now.process.actor, 0) ∷ []) }
        ensures follows { IfOk result (λ process. self.now.process.actor.node.halted ≡ true →
            IsNextRun T.Tape self.now.process.actor process.actor) }
        ensures stands { F.stands folder.new ≡ F.stands folder.old }
        ensures farm { F.farm folder.new ≡ F.farm folder.old }
        ensures attempted { F.attempted folder.new ≡ F.attempted folder.old }
        ensures after { IsAfter (F.calls folder.old) (F.calls folder.new) }
        ensures err { IfErr result (λ why. IsWhyNoNextRun why (F.stands folder.old).starts
            (F.farm folder.old) (F.attempted folder.old)
            (F.calls folder.old) (F.calls folder.new)) }
    {
        match folder.open() {
            Ok(tape) => match self.process.reopen(alloc, tape) {
                Ok(process) => Ok(process),
                Err(fault) => Err(NotReopened::Tape(fault)),
            },
            Err(why) => Err(why),
        }
    }
}
