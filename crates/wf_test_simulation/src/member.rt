//! A process of a simulated farm: its host, and itself while it runs.

use std::cell::RefCell;
use wf_simulation::World;
use wf_store::{FileName, MemoryFolder, MemoryStore, Store};
use wf_test_scene::{
    Dice, Host, Lag, Ledger, MOST_READY, Machine, Names, Process, Relapse, Stroke, Violation,
};

/// What a process tells after its start, or after a turn.
#[derive(Clone, Copy)]
pub(crate) struct Told {
    /// How many sequences it has published.
    pub(crate) published: u16,
    /// How many messages it has taken in.
    pub(crate) messages: u64,
    /// After how many milliseconds it takes its next turn at the latest.
    pub(crate) patience: u64,
    /// Whether what it has published is on its tape.
    pub(crate) has_tape: bool,
    /// Whether it is to end, and to be started again.
    pub(crate) is_over: bool,
}

/// A process that runs on a host: a node (`node`) or a replica (`replica`). The types behind one
/// are deep, and each function that sees them is dear to prove: only these calls do, and whoever
/// makes them.
pub(crate) trait Running<'a>: Sized {
    /// Starts it on a host whose clock has this time. An error is the status with which it ended.
    fn launch<R: Eprint>(
        machine: &Machine<'_, R>,
        world: &'a RefCell<World>,
        names: &Names,
        host: &Host<'a>,
        clock: u64,
    ) -> Result<Self, u8>;

    /// It takes a turn for these sockets. Returns whether it may go on: else that is a violation.
    fn take_turn<R: Eprint>(
        &mut self,
        machine: &Machine<'_, R>,
        ready: &[usize],
        clock: u64,
    ) -> bool;

    /// What it tells at this time of its clock. What it has published is noted, but for so many
    /// that were.
    fn tell(&self, own: Process, noted: u16, clock: u64, ledger: &mut Ledger) -> Told;
}

/// A process of the farm: its host, which outlives what runs on it.
#[derive(Drop)]
pub(crate) struct Member<'a, P> {
    own: Process,
    host: Host<'a>,
    process: Option<P>,
    // how many messages its processes that have ended took in, and the one that runs
    past_messages: u64,
    messages: u64,
    // whether what it had published when that was noted last is on its tape
    has_tape: bool,
    // whether its folder isn't its last one, and whether it didn't start on that
    has_relapsed: bool,
    is_refused: bool,
}

impl<'a, P> Member<'a, P> {
    /// One that is to be started at this time, on this folder.
    pub(crate) fn new(own: Process, folder: &'a MemoryFolder, lag: &'a Lag, due: u64) -> Self {
        Member {
            own,
            host: Host::new(own.host(), folder, lag, due),
            process: None,
            past_messages: 0,
            messages: 0,
            has_tape: true,
            has_relapsed: false,
            is_refused: false,
        }
    }

    /// Its number.
    pub(crate) fn number(&self) -> u8 {
        self.host.number
    }

    /// It as a process of the farm.
    pub(crate) fn own(&self) -> Process {
        self.own
    }

    /// When its next turn is due, or its next start.
    pub(crate) fn due(&self) -> u64 {
        self.host.due
    }

    /// How many sequences it has published.
    pub(crate) fn published(&self) -> u16 {
        self.host.published
    }

    /// Whether it didn't start on a folder that was replaced.
    pub(crate) fn is_refused(&self) -> bool {
        self.is_refused
    }

    /// How many messages it took in, in all of its processes.
    pub(crate) fn messages(&self) -> u64 {
        self.past_messages.saturating_add(self.messages)
    }

    /// How many calls of its disks have failed.
    pub(crate) fn failed(&self) -> u64 {
        self.host.failed()
    }

    /// How often its power was cut at a call of its disks.
    pub(crate) fn cuts(&self) -> u64 {
        self.host.cuts()
    }

    /// All faults are over: it is started by this time at the latest.
    pub(crate) fn heal(&mut self, time: u64) {
        self.host.heal(time);
    }

    /// Copies its files into another folder.
    pub(crate) fn copy_into(&self, folder: &MemoryFolder) {
        for file in [
            FileName::Farm,
            FileName::Heard,
            FileName::NodeTape(self.host.number),
        ] {
            copy_file(self.host.folder, folder, file);
        }
    }

    /// It has started at this time: it has published no less than before, if that was on its tape.
    fn begin(&mut self, time: u64, told: Told, ledger: &mut Ledger) {
        if self.has_tape && told.published < self.host.published {
            ledger.violate(Violation::WentBack(self.own(), self.host.published, told.published));
        }
        self.host.due = time;
        self.host.published = told.published;
        self.messages = told.messages;
    }

    /// It didn't start, and ended with this status.
    fn stay(&mut self, status: u8, time: u64, ledger: &mut Ledger) {
        self.host.due = time.saturating_add(1_000);
        if self.has_relapsed {
            self.is_refused = true;
            self.host.due = u64::MAX;
        } else {
            ledger.violate(Violation::NotStarted(self.own(), status));
        }
    }
}

impl<'a, P: Drop> Member<'a, P> {
    /// A fault happens to it. Returns whether it ran.
    pub(crate) fn fail(&mut self, world: &RefCell<World>, time: u64, stroke: &Stroke) -> bool {
        if self.process.is_none() {
            return false;
        }
        if self.host.fail(world, time, stroke) {
            self.end();
        }
        true
    }

    /// Its process ends, and its sockets are closed.
    fn end(&mut self) {
        self.past_messages = self.messages();
        self.messages = 0;
        self.process = None;
    }

    /// Its process ends, and is started again at this time.
    pub(crate) fn kill(&mut self, due: u64) {
        self.end();
        self.host.due = due;
    }

    /// Its process ends, and is started at this time on another folder in place of its own.
    pub(crate) fn lose(&mut self, folder: &'a MemoryFolder, due: u64) {
        self.kill(due);
        self.host.folder = folder;
        self.host.published = 0;
    }

    /// Loses its folder to another one, into which some files are copied, as the plan says.
    pub(crate) fn relapse(&mut self, how: Relapse, folder: &'a MemoryFolder, due: u64) {
        self.end();
        if let Relapse::Tape | Relapse::Gone = how {
            copy_file(self.host.folder, folder, FileName::Farm);
            copy_file(self.host.folder, folder, FileName::Heard);
        }
        self.lose(folder, due);
        self.has_relapsed = how.is_refused();
    }
}

impl<'a, P: Running<'a> + Drop> Member<'a, P> {
    /// Takes a turn if it is due or a socket may be ready; starts the process if that is due.
    /// Returns whether it took a turn.
    pub(crate) fn turn<R: Eprint>(
        &mut self,
        machine: &Machine<'_, R>,
        world: &'a RefCell<World>,
        names: &Names,
        dice: &mut Dice,
        ledger: &mut Ledger,
    ) -> bool {
        let time = machine.millis();
        if self.process.is_none() {
            if self.host.due <= time && !self.is_refused {
                self.host.turn_on(world, dice.bits());
                self.start(machine, world, names, ledger);
            }
            return false;
        }
        if self.host.is_busy(time) {
            return false;
        }
        let mut tokens = [0usize; MOST_READY];
        let count = self.host.take_ready(world, &mut tokens);
        if count == 0 && time < self.host.due {
            return false;
        }
        let is_over = self.step(machine, tokens.get(..count).unwrap_or(&[]), ledger);
        self.host.count_failure();
        if let Some(back) = self.host.take_cut() {
            self.kill(back);
        } else if is_over {
            self.kill(time);
        }
        true
    }

    /// The process takes a turn for these sockets. Returns whether it is to end.
    fn step<R: Eprint>(
        &mut self,
        machine: &Machine<'_, R>,
        ready: &[usize],
        ledger: &mut Ledger,
    ) -> bool {
        let time = machine.millis();
        let clock = self.host.clock(time);
        let own = self.own();
        let Some(process) = &mut self.process else {
            return false;
        };
        machine.set_millis(clock);
        self.host.begin(time);
        if !process.take_turn(machine, ready, clock) {
            ledger.violate(Violation::Ended(own));
        }
        let over = self.host.end(time);
        machine.set_millis(time);
        let told = process.tell(own, self.host.published, self.host.clock(over), ledger);
        self.host.due = over.saturating_add(told.patience.max(1));
        self.host.published = told.published;
        self.messages = told.messages;
        self.has_tape = told.has_tape;
        told.is_over
    }

    /// Starts the process.
    fn start<R: Eprint>(
        &mut self,
        machine: &Machine<'_, R>,
        world: &'a RefCell<World>,
        names: &Names,
        ledger: &mut Ledger,
    ) {
        let time = machine.millis();
        let clock = self.host.clock(time);
        match P::launch(machine, world, names, &self.host, clock) {
            Ok(process) => {
                let told = process.tell(self.own(), 0, clock, ledger);
                self.process = Some(process);
                self.begin(time, told, ledger);
            }
            Err(status) => self.stay(status, time, ledger),
        }
    }
}

/// Copies a file from a folder into another.
fn copy_file(from: &MemoryFolder, to: &MemoryFolder, file: FileName) {
    let mut source = MemoryStore::new(from);
    let mut target = MemoryStore::new(to);
    if let Ok(Some(bytes)) = source.read(file, usize::MAX) {
        let _ = target.replace(file, bytes);
    }
    drop(source);
    drop(target);
}
