//! A play: a farm, its clients, and what goes wrong, from one moment to the next.

use crate::judging::{clients_of, is_counted, is_sound, violation_of};
use crate::member::{Member, Running};
use crate::node::{NodeOnHost, make_folder};
use crate::replica::ReplicaOnFolder;
use std::alloc::{AllocError, Global};
use std::cell::RefCell;
use wf_simulation::{Counts, Faults, World};
use wf_store::MemoryFolder;
use wf_test_scene::{
    Client, Dice, Fault, JOINER_BITS, Lag, Ledger, MOST_STRANGERS, Machine, Names, Plan, Process,
    REPLICA_ROLES, ROLES, Relapse, Scene, Schedule, Strangers, Stroke, Tally, Violation,
};
use wf_test_table::Transcript;

/// The most moments of a play.
const MOST_MOMENTS: u64 = 10_000_000;

/// For how long a farm heals at most once all faults are over, in milliseconds.
const HEALING_MILLIS: u64 = 5_000;

/// For how long it heals at most where connections are dead in silence, which only silence tells,
/// or where a folder joins.
const SILENT_MILLIS: u64 = 12_000;

/// For how long replicas heal at most once the nodes are healed, in milliseconds.
const REPLICA_MILLIS: u64 = 5_000;

/// For how long stopped clients are kept at most, in milliseconds: for ten seconds the rest of a
/// request is waited for, for ten more an answer is to be taken, and one is for parting.
const LEAVING_MILLIS: u64 = 25_000;

/// The most lines of the log that a connection gives reason for, and a start or a fault.
const LINES_OF_CONNECTION: u64 = 2;

const LINES_OF_EVENT: u64 = 20;

/// The stream of the generator: another one than that of the network.
const STREAM: u64 = 7;

/// A play as far as it is, of nodes and replicas.
#[derive(Drop)]
struct Play<'a, R, P, Q> {
    machine: &'a Machine<'a, R>,
    world: &'a RefCell<World>,
    names: &'a Names,
    folders: &'a [MemoryFolder],
    plan: Plan,
    dice: Dice,
    schedule: Schedule,
    members: Vec<Member<'a, P>>,
    replicas: Vec<Member<'a, Q>>,
    clients: Vec<Client<'a>>,
    strangers: Strangers<'a>,
    ledger: Ledger,
    // how often each fault happened
    faults: [u64; 11],
    turns: u64,
}

/// What a play showed.
#[derive(Clone, Copy)]
pub(crate) struct Outcome {
    pub(crate) tally: Tally,
    pub(crate) digest: u64,
    pub(crate) violated: usize,
}

/// Plays, and writes a line behind these words for each violation.
pub(crate) fn run_play<R: Eprint>(
    rt: &R,
    alloc: Global,
    plan: Plan,
    before: &str,
    answer: &mut Transcript,
) -> Result<Outcome, AllocError> {
    let lag = Lag::new();
    let machine = Machine::new(rt, alloc, &lag, plan.is_printed);
    let world = RefCell::new(World::new(
        alloc,
        plan.seed,
        plan.network,
        plan.hosts() as usize,
        connections(&plan),
    )?);
    let names = Names::new(alloc, plan.nodes, plan.hosts())?;
    let folders = folders_of(alloc, &plan)?;
    let play: Play<'_, R, NodeOnHost<'_>, ReplicaOnFolder<'_>> = Play::new(
        &machine,
        &world,
        &names,
        folders.as_slice(),
        plan,
    );
    play.run_to_end(before, answer)
}

/// The most connections of the network: one from each node to each other, and eight for the clients
/// of each, of which four are at most; and eight for each replica, of which three are its clients.
/// Where clients stop, as many more of each may have; and strangers have theirs.
fn connections(plan: &Plan) -> usize {
    let nodes = plan.nodes as usize;
    let processes = nodes.saturating_add(plan.replicas as usize);
    let stopped = processes.saturating_mul(if plan.has_stops() { 4 } else { 0 });
    let strangers = if plan.has_strangers() {
        MOST_STRANGERS
    } else {
        0
    };
    nodes
        .saturating_mul(nodes.saturating_add(7))
        .saturating_add(8)
        .saturating_add((plan.replicas as usize).saturating_mul(8))
        .saturating_add(stopped)
        .saturating_add(strangers)
}

/// A folder for each host, that of the clients for node 0 later, and one for a replica then.
fn folders_of(alloc: Global, plan: &Plan) -> Result<Vec<MemoryFolder>, AllocError> {
    let mut folders = Vec::new(alloc);
    for _ in 0..(plan.hosts() as usize).saturating_add(1) {
        folders.push(MemoryFolder::new(alloc, plan.nodes)?)?;
    }
    Ok(folders)
}

// Only what starts or steps a process names the trait of one: the types of its calls are dear.
impl<'a, R: Eprint, P: Running<'a> + Drop, Q: Running<'a> + Drop> Play<'a, R, P, Q> {
    /// Plays, and writes a line behind these words for each violation.
    fn run_to_end(mut self, before: &str, answer: &mut Transcript) -> Result<Outcome, AllocError> {
        self.run();
        let outcome = self.finish(before, answer);
        drop(self);
        outcome
    }

    /// Plays: faults happen for the plan's time, and then the nodes heal, and then the replicas. At
    /// last the clients go.
    fn run(&mut self) {
        if self.populate().is_err() {
            self.ledger.cut();
        }
        let end = self.plan.seconds.saturating_mul(1_000);
        let middle = end / 2;
        self.run_until(middle);
        self.save();
        self.lose_replica(middle);
        self.run_until(end);
        self.relapse(end);
        self.heal(end);
        self.run_healing(end.saturating_add(self.patience()), false);
        let healed = self.machine.millis();
        self.run_healing(healed.saturating_add(REPLICA_MILLIS), true);
        self.judge();
        self.leave();
    }

    /// The clients go, and then those that have stopped, whose connections were given back by then.
    fn leave(&mut self) {
        let time = self.machine.millis();
        for client in self.clients.iter_mut() {
            client.leave(time);
        }
        self.run_leaving(time.saturating_add(LEAVING_MILLIS), false);
        self.judge_slots();
        for client in self.clients.iter_mut() {
            client.go();
        }
        let time = self.machine.millis();
        self.run_leaving(time.saturating_add(LEAVING_MILLIS), true);
        self.judge_connections();
        self.judge_lines();
    }

    /// Goes on until that moment, while faults happen.
    fn run_until(&mut self, end: u64) {
        for _ in 0..MOST_MOMENTS {
            if end <= self.machine.millis() {
                return;
            }
            self.fail_by_chance();
            self.step(end);
        }
    }

    /// Goes on until that moment at the latest, or until all nodes are healed, or all processes.
    fn run_healing(&mut self, latest: u64, of_replicas: bool) {
        for _ in 0..MOST_MOMENTS {
            if latest <= self.machine.millis() || self.is_healed(of_replicas) {
                return;
            }
            self.step(latest);
        }
    }

    /// Goes on until that moment at the latest, or until all connections of clients are given back.
    fn run_leaving(&mut self, latest: u64, has_none: bool) {
        for _ in 0..MOST_MOMENTS {
            if latest <= self.machine.millis() || self.is_given_back(has_none) {
                return;
            }
            self.step(latest);
        }
    }

    /// Goes on to the next moment at which something is due: all do what they have to do.
    fn step(&mut self, latest: u64) {
        let time = self.next_moment().min(latest);
        self.machine.set_millis(time);
        let is_news = self.advance(time);
        self.turn_processes(is_news);
        self.turn_clients(is_news);
    }

    /// Each process for which there may be news takes its turn, the first one by chance.
    fn turn_processes(&mut self, is_news: bool) {
        let nodes = self.members.len();
        let count = nodes.saturating_add(self.replicas.len());
        let first = self.dice.index(count);
        for offset in 0..count {
            let index = first.saturating_add(offset).checked_rem(count).unwrap_or(0);
            if index < nodes {
                self.turn_member(index, is_news);
            } else {
                self.turn_replica(index.saturating_sub(nodes), is_news);
            }
        }
    }

    /// A node takes its turn.
    fn turn_member(&mut self, index: usize, is_news: bool) {
        if let Some(member) = self.members.get_mut(index) {
            if !is_news && self.machine.millis() < member.due() {
                return;
            }
            let taken = member.turn(
                self.machine,
                self.world,
                self.names,
                &mut self.dice,
                &mut self.ledger,
            );
            if taken {
                self.turns = self.turns.saturating_add(1);
            }
        }
    }

    /// A replica takes its turn.
    fn turn_replica(&mut self, index: usize, is_news: bool) {
        if let Some(replica) = self.replicas.get_mut(index) {
            if !is_news && self.machine.millis() < replica.due() {
                return;
            }
            let taken = replica.turn(
                self.machine,
                self.world,
                self.names,
                &mut self.dice,
                &mut self.ledger,
            );
            if taken {
                self.turns = self.turns.saturating_add(1);
            }
        }
    }
}

impl<'a, R: Eprint, P: Drop, Q: Drop> Play<'a, R, P, Q> {
    /// Makes the folder of each node, the replicas, and the clients of each.
    fn populate(&mut self) -> Result<(), AllocError> {
        let folders = self.folders;
        for (number, folder) in (0..self.plan.nodes).zip(folders) {
            folder.set_bits(self.dice.bits());
            let start = self.dice.millis(0, 500);
            make_folder(self.machine, folder, number, self.plan.nodes, false);
            self.members.push(Member::new(
                Process::Node(number),
                folder,
                self.machine.lag(),
                start,
            ))?;
            for role in ROLES {
                let start = self.plan.beginning(self.dice.millis(500, 2_000));
                self.clients
                    .push(Client::new(Process::Node(number), role, start))?;
            }
        }
        for (host, folder) in (0..self.plan.hosts()).zip(folders) {
            if self.plan.client_host() < host {
                self.add_replica(host, folder)?;
            }
        }
        Ok(())
    }

    /// Adds the replica of a host, and its clients.
    fn add_replica(&mut self, host: u8, folder: &'a MemoryFolder) -> Result<(), AllocError> {
        let start = self.dice.millis(0, 500);
        self.replicas.push(Member::new(Process::Replica(host), folder, self.machine.lag(), start))?;
        for role in REPLICA_ROLES {
            let start = self.plan.beginning(self.dice.millis(500, 2_000));
            self.clients
                .push(Client::new(Process::Replica(host), role, start))?;
        }
        Ok(())
    }

    /// Kills all nodes, and puts another folder in the place of that of node 0, as the plan says.
    fn relapse(&mut self, time: u64) {
        if self.plan.kills_all {
            for member in self.members.iter_mut() {
                member.kill(time);
            }
        }
        if self.plan.relapse == Relapse::Nothing {
            return;
        }
        let spare = self.spare();
        if let (Some(member), Some(spare)) = (self.members.get_mut(0), spare) {
            if self.plan.relapse == Relapse::Replaced {
                spare.set_bits(JOINER_BITS);
                make_folder(self.machine, spare, 0, self.plan.nodes, true);
            }
            member.relapse(self.plan.relapse, spare, time);
        }
    }
}

impl<'a, R, P: Drop, Q: Drop> Play<'a, R, P, Q> {
    /// A fault happens, if one is due.
    fn fail_by_chance(&mut self) {
        if let Some(stroke) = self.schedule.take(self.machine.millis()) {
            if self.fail(&stroke) {
                if let Some(count) = self.faults.get_mut(stroke.kind) {
                    *count = count.saturating_add(1);
                }
            }
        }
    }

    /// A fault happens. Returns whether it could.
    fn fail(&mut self, stroke: &Stroke) -> bool {
        match stroke.fault {
            Fault::Alone => self.cut_off(stroke.host, stroke.until),
            Fault::OneWay => self.block(stroke.host, stroke.other, stroke.until),
            Fault::Stop => self.stop(stroke),
            Fault::Strangers => return self.let_come(stroke),
            _ => return self.fail_process(stroke),
        }
        true
    }

    /// A fault happens to a process. Returns whether it ran.
    fn fail_process(&mut self, stroke: &Stroke) -> bool {
        let time = self.machine.millis();
        if let Some(member) = self.members.get_mut(stroke.host) {
            return member.fail(self.world, time, stroke);
        }
        let first = self.members.len().saturating_add(1);
        match self.replicas.get_mut(stroke.host.saturating_sub(first)) {
            Some(replica) => replica.fail(self.world, time, stroke),
            None => false,
        }
    }

    /// The first replica begins on an empty folder, if the plan says so.
    fn lose_replica(&mut self, time: u64) {
        if !self.plan.loses_replica {
            return;
        }
        let folders = self.folders;
        if let (Some(replica), Some(spare)) = (self.replicas.get_mut(0), folders.last()) {
            replica.lose(spare, time);
        }
    }
}

impl<'a, R, P, Q> Play<'a, R, P, Q> {
    /// A play that begins, without nodes.
    fn new(
        machine: &'a Machine<'a, R>,
        world: &'a RefCell<World>,
        names: &'a Names,
        folders: &'a [MemoryFolder],
        plan: Plan,
    ) -> Self {
        let alloc = machine.alloc();
        Play {
            machine,
            world,
            names,
            folders,
            plan,
            dice: Dice::new(plan.seed, STREAM),
            schedule: Schedule::new(plan),
            members: Vec::new(alloc),
            replicas: Vec::new(alloc),
            clients: Vec::new(alloc),
            strangers: Strangers::new(alloc),
            ledger: Ledger::new(alloc),
            faults: [0; 11],
            turns: 0,
        }
    }

    /// Whether each process says that it has no client, and no reader but a replica; or no
    /// connection is left of any client.
    fn is_given_back(&self, has_none: bool) -> bool {
        if has_none {
            return self.connection_count() <= self.connections_left();
        }
        for client in &self.clients {
            if is_counted(&self.plan, client) && clients_of(client) != 0 {
                return false;
            }
        }
        self.reader_count() <= u32::from(self.plan.replicas)
    }

    /// How many readers all processes say that they have.
    fn reader_count(&self) -> u32 {
        let mut count = 0u32;
        for client in &self.clients {
            if let Some((_, readers)) = client.open() {
                count = count.saturating_add(readers);
            }
        }
        count
    }

    /// How many connections are there.
    fn connection_count(&self) -> usize {
        match self.world.try_borrow() {
            Ok(world) => world.count(),
            Err(_) => 0,
        }
    }

    /// How many connections are there without clients: one of each node to each other, and one of
    /// each replica.
    fn connections_left(&self) -> usize {
        let nodes = self.plan.nodes as usize;
        nodes
            .saturating_mul(nodes.saturating_sub(1))
            .saturating_add(self.plan.replicas as usize)
    }

    /// For how long the farm may heal.
    fn patience(&self) -> u64 {
        if self.plan.network.losses == 0 && self.plan.relapse != Relapse::Replaced {
            HEALING_MILLIS
        } else {
            SILENT_MILLIS
        }
    }

    /// What is due on the network happens. Returns whether anything was.
    fn advance(&self, time: u64) -> bool {
        let Ok(mut world) = self.world.try_borrow_mut() else {
            return false;
        };
        let is_news = match world.due() {
            Some(due) => due <= time,
            None => false,
        };
        world.advance(time);
        is_news
    }

    /// The next moment at which something is due.
    fn next_moment(&self) -> u64 {
        let mut due = self.schedule.due();
        if let Ok(world) = self.world.try_borrow() {
            due = due.min(world.due().unwrap_or(u64::MAX));
        }
        for member in &self.members {
            due = due.min(member.due());
        }
        for replica in &self.replicas {
            due = due.min(replica.due());
        }
        for client in &self.clients {
            due = due.min(client.due());
        }
        due.max(self.machine.millis().saturating_add(1))
    }

    /// Each client does what it has to do.
    fn turn_clients(&mut self, is_news: bool) {
        let scene = self.scene_at(self.plan.client_host() as usize);
        self.strangers.turn(scene.time);
        for client in self.clients.iter_mut() {
            if is_news || client.due() <= scene.time {
                client.turn(&scene, &mut self.dice, &mut self.ledger);
            }
        }
    }

    /// Where and when something is done now, at this host.
    fn scene_at(&self, host: usize) -> Scene<'a> {
        Scene {
            alloc: self.machine.alloc(),
            world: self.world,
            host,
            time: self.machine.millis(),
        }
    }

    /// A client stops at its next request.
    fn stop(&mut self, stroke: &Stroke) {
        for client in self.clients.iter_mut() {
            client.stop(stroke);
        }
    }

    /// One stranger or many come to a node. Returns whether the host is a node's.
    fn let_come(&mut self, stroke: &Stroke) -> bool {
        let nodes = self.plan.nodes as usize;
        if nodes <= stroke.host {
            return false;
        }
        let is_one = stroke.older == 0 || nodes == 1;
        let (host, count) = if is_one {
            (self.plan.client_host() as usize, 1)
        } else {
            (
                stroke
                    .host
                    .saturating_add(1)
                    .checked_rem(nodes)
                    .unwrap_or(0),
                MOST_STRANGERS,
            )
        };
        let scene = self.scene_at(host);
        let node = stroke.host.min(63) as u8;
        if self
            .strangers
            .come(&scene, node, count, stroke.until)
            .is_err()
        {
            self.ledger.cut();
        }
        true
    }

    /// A process and all others don't reach each other until then. Its clients do.
    fn cut_off(&self, host: usize, until: u64) {
        for other in 0..self.plan.hosts() {
            if other != self.plan.client_host() {
                self.block(host, other as usize, until);
                self.block(other as usize, host, until);
            }
        }
    }

    /// What a host sends to another doesn't come until then.
    fn block(&self, from: usize, to: usize, until: u64) {
        if let Ok(mut world) = self.world.try_borrow_mut() {
            world.block(from, to, until);
        }
    }

    /// Copies the files of node 0, if they are to be put back later.
    fn save(&self) {
        if self.plan.relapse.is_copied() {
            if let (Some(member), Some(spare)) = (self.members.first(), self.spare()) {
                member.copy_into(spare);
            }
        }
    }

    /// The folder that takes the place of that of node 0, if one does.
    fn spare(&self) -> Option<&'a MemoryFolder> {
        self.folders.get(self.plan.client_host() as usize)
    }

    /// All faults are over: each process that was ended is started, all reach each other, and the
    /// clients begin anew.
    fn heal(&mut self, time: u64) {
        self.schedule.end();
        if let Ok(mut world) = self.world.try_borrow_mut() {
            world.set_faults(Faults::NONE);
        }
        for host in 0..self.plan.hosts() {
            for other in 0..self.plan.hosts() {
                self.block(host as usize, other as usize, 0);
            }
        }
        for member in self.members.iter_mut() {
            member.heal(time);
        }
        for replica in self.replicas.iter_mut() {
            replica.heal(time);
        }
        self.strangers.go();
        for client in self.clients.iter_mut() {
            client.heal(time, self.plan.relapse == Relapse::Replaced);
        }
    }

    /// Whether each sound node has published as many sequences as any, and its clients were served,
    /// and any other is refused; and whether each replica has and its were, if that is asked.
    fn is_healed(&self, of_replicas: bool) -> bool {
        let most = self.ledger.published();
        for client in &self.clients {
            let counts = of_replicas || !client.process().is_replica();
            if counts && is_sound(&self.plan, client.process()) && !client.is_served() {
                return false;
            }
        }
        for replica in &self.replicas {
            if of_replicas && replica.published() as usize != most {
                return false;
            }
        }
        for member in &self.members {
            if violation_of(&self.plan, &self.ledger, member, most).is_some() {
                return false;
            }
        }
        true
    }

    /// Notes what wasn't healed, and compares all reports.
    fn judge(&mut self) {
        let most = self.ledger.published();
        for client in &self.clients {
            if is_sound(&self.plan, client.process()) && !client.is_served() {
                self.ledger.violate(Violation::NotHealed(client.process()));
            }
        }
        for replica in &self.replicas {
            if replica.published() as usize != most {
                self.ledger.violate(Violation::NotEqual(replica.own(), replica.published(), most));
            }
        }
        for member in &self.members {
            if let Some(violation) = violation_of(&self.plan, &self.ledger, member, most) {
                self.ledger.violate(violation);
            }
        }
        self.ledger.compare_reports();
    }

    /// Notes which processes have connections of clients that have gone or stopped.
    fn judge_slots(&mut self) {
        let readers = self.reader_count();
        if u32::from(self.plan.replicas) < readers {
            self.ledger.violate(Violation::ReadersNotGivenBack(readers, self.plan.replicas));
        }
        for client in &self.clients {
            let clients = clients_of(client);
            if is_counted(&self.plan, client) && clients != 0 {
                self.ledger
                    .violate(Violation::NotGivenBack(client.process(), clients));
            }
        }
    }

    /// Notes whether connections are left that nobody has.
    fn judge_connections(&mut self) {
        let count = self.connection_count();
        let left = self.connections_left();
        if left < count {
            self.ledger.violate(Violation::ConnectionsLeft(count, left));
        }
    }

    /// Notes whether more lines were logged than what happened gives reason for: so many for each
    /// connection, start and fault, and for each second of each process.
    fn judge_lines(&mut self) {
        let network = self.network_counts();
        let processes = self.members.len().saturating_add(self.replicas.len()) as u64;
        let mut events = processes;
        for count in self.faults {
            events = events.saturating_add(count);
        }
        let seconds = self.machine.millis() / 1_000;
        let most = network
            .opened
            .saturating_add(network.refused)
            .saturating_mul(LINES_OF_CONNECTION)
            .saturating_add(events.saturating_mul(LINES_OF_EVENT))
            .saturating_add(seconds.saturating_mul(processes));
        let lines = self.machine.lines();
        if most < lines {
            self.ledger.violate(Violation::TooManyLines(lines, most));
        }
    }

    /// Writes a line behind these words for each violation. Returns what happened.
    fn finish(&self, before: &str, answer: &mut Transcript) -> Result<Outcome, AllocError> {
        self.ledger.write(before, answer);
        if self.ledger.is_cut() {
            return Err(AllocError);
        }
        Ok(Outcome {
            tally: self.tally(),
            digest: self.ledger.digest(),
            violated: self.ledger.violated(),
        })
    }

    /// How often what happened, in the order of the words of a tally.
    fn tally(&self) -> Tally {
        let answers = self.ledger.answers;
        let network = self.network_counts();
        let [alone, one_way, kills, cuts, _, jumps, _, _, _, strangers, _] = self.faults;
        let mut messages = 0u64;
        let mut disks = 0u64;
        let mut cut_calls = 0u64;
        let mut learned = 0u64;
        for member in &self.members {
            messages = messages.saturating_add(member.messages());
            disks = disks.saturating_add(member.failed());
            cut_calls = cut_calls.saturating_add(member.cuts());
        }
        for replica in &self.replicas {
            disks = disks.saturating_add(replica.failed());
            cut_calls = cut_calls.saturating_add(replica.cuts());
            learned = learned.saturating_add(u64::from(replica.published()));
        }
        Tally::of([
            self.ledger.published() as u64,
            self.ledger.reported() as u64,
            answers.accepted,
            answers.documents,
            answers.pictures,
            answers.pages,
            answers.replies,
            answers.rejected,
            answers.failed,
            self.turns,
            messages,
            self.machine.lines(),
            self.replicas.len() as u64,
            learned,
            alone,
            one_way,
            kills,
            cuts,
            cut_calls,
            disks,
            self.machine.lag().refused(),
            jumps,
            self.machine.lag().count(),
            answers.stopped,
            strangers,
            network.opened,
            network.refused,
            network.unanswered,
            network.resets,
            network.answers,
            network.losses,
            network.pieces,
            network.waits,
            self.machine.millis(),
        ])
    }

    /// How often what happened on the network.
    fn network_counts(&self) -> Counts {
        match self.world.try_borrow() {
            Ok(world) => world.counts(),
            Err(_) => Counts::default(),
        }
    }
}
