//! What a play is, by the words of its case.

use wf_simulation::Faults;
use wf_test_table::{CaseWords, Unanswered};

/// What goes wrong at a time, once.
#[derive(Clone, Copy)]
pub enum Fault {
    /// A process and all others don't reach each other, in silence, for a time.
    Alone,
    /// What a process sends to another, or to the clients, doesn't come for a time.
    OneWay,
    /// A process is killed, and started again.
    Kill,
    /// Its power is cut, and it is started again.
    Cut,
    /// A call of its disks fails.
    Disk,
    /// Its clock jumps ahead.
    Jump,
    /// Each sync of its disks takes time, for a while.
    SlowSync,
    /// A client of it stops within its next request, or takes no byte of the response.
    Stop,
    /// Its power is cut at a call of its disks, within a turn, and it is started again.
    CutCall,
    /// There is no room on its disks for a time: each write fails.
    FullDisk,
    /// One stranger from an address that isn't listed, or more from the host of a peer than there
    /// are slots for, connect to it as peers do, and stay for a time.
    Strangers,
}

/// Each of them, with its word, and the word that leaves it out.
pub const FAULTS: [(&str, &str, Fault); 11] = [
    ("alone", "no-alone", Fault::Alone),
    ("one-way", "no-one-way", Fault::OneWay),
    ("kills", "no-kills", Fault::Kill),
    ("cuts", "no-cuts", Fault::Cut),
    ("disks", "no-disks", Fault::Disk),
    ("jumps", "no-jumps", Fault::Jump),
    ("slow-syncs", "no-slow-syncs", Fault::SlowSync),
    ("stops", "no-stops", Fault::Stop),
    ("full-disks", "no-full-disks", Fault::FullDisk),
    ("strangers", "no-strangers", Fault::Strangers),
    ("cut-calls", "no-cut-calls", Fault::CutCall),
];

/// What takes the place of the folder of node 0 once the faults are over. The node has to be
/// refused then, unless its folder joins.
#[derive(Clone, Copy, PartialEq)]
pub enum Relapse {
    /// Its folder stays.
    Nothing,
    /// An empty folder.
    Lost,
    /// All of its files as they were in the middle of the play.
    Older,
    /// Its tape as it was then; the other files stay.
    Tape,
    /// No tape; the other files stay.
    Gone,
    /// An empty folder that joins in its place, to which the other nodes agree.
    Replaced,
}

impl Relapse {
    /// Whether files of the middle of the play are put back.
    pub fn is_copied(self) -> bool {
        matches!(self, Relapse::Older | Relapse::Tape)
    }

    /// Whether the node has to be refused: its peers have to suspend it, or it may not start.
    pub fn is_refused(self) -> bool {
        self == Relapse::Older || self.is_unstartable()
    }

    /// Whether the node may not start.
    pub fn is_unstartable(self) -> bool {
        matches!(self, Relapse::Lost | Relapse::Tape | Relapse::Gone)
    }
}

/// How many nodes a farm has whose case doesn't say it, by its seed.
const NODES: [u8; 8] = [3, 5, 4, 5, 7, 5, 3, 2];

/// How many replicas a farm has whose case leaves that to its seed.
const REPLICAS: [u8; 8] = [0, 2, 0, 1, 0, 3, 0, 1];

/// The most replicas of a farm.
const MOST_REPLICAS: u32 = 3;

/// A play: its seed, how many nodes and replicas, for how long, and what goes wrong.
#[derive(Clone, Copy)]
pub struct Plan {
    pub seed: u64,
    pub nodes: u8,
    pub replicas: u8,
    /// Whether their number is the seed's.
    pub has_any_replicas: bool,
    pub seconds: u64,
    pub network: Faults,
    /// Between two faults there are so many milliseconds at most.
    pub pause: u32,
    /// How often each fault is drawn, in the order of `FAULTS`, and whether none of a kind happens.
    pub weights: [u32; 11],
    pub skips: [bool; 11],
    /// The first and the last of the drawn faults that happen, counted from 1.
    pub first: u32,
    pub last: u32,
    /// What becomes of the folder of node 0, and whether all nodes are killed then.
    pub relapse: Relapse,
    pub kills_all: bool,
    /// Whether the first replica loses its folder in the middle.
    pub loses_replica: bool,
    /// Whether no client comes before the faults are over.
    pub is_quiet: bool,
    /// Whether the log is printed.
    pub is_printed: bool,
}

impl Plan {
    /// The plan of `NODES SECONDS [KIND NUMBER]..`, whose seed is 0.
    pub fn parse(words: &mut CaseWords<'_>) -> Result<Plan, Unanswered> {
        let mut plan = Plan {
            seed: 0,
            nodes: words.byte()?,
            replicas: 0,
            has_any_replicas: false,
            seconds: u64::from(words.number()?),
            network: Faults::NONE,
            pause: 1_500,
            weights: [0; 11],
            skips: [false; 11],
            first: 1,
            last: u32::MAX,
            relapse: Relapse::Nothing,
            kills_all: false,
            loses_replica: false,
            is_quiet: false,
            is_printed: false,
        };
        for _ in 0..u32::MAX {
            if words.is_empty() {
                break;
            }
            let kind = words.word();
            let number = words.number()?;
            plan.set(kind, number)?;
        }
        Ok(plan)
    }

    /// The play of a seed by this plan. A plan of 0 nodes leaves their number to the seed, and so
    /// does one of more than 3 replicas.
    pub fn of_seed(&self, seed: u64) -> Plan {
        let mut plan = *self;
        plan.seed = seed;
        if plan.nodes == 0 {
            let index = seed.checked_rem(8).unwrap_or(0) as usize;
            plan.nodes = NODES.get(index).copied().unwrap_or(3);
        }
        if plan.has_any_replicas {
            let index = (seed / 8).checked_rem(8).unwrap_or(0) as usize;
            plan.replicas = REPLICAS.get(index).copied().unwrap_or(0);
        }
        plan
    }

    /// How many hosts there are: those of the nodes, that of the clients, and those of the
    /// replicas.
    pub fn hosts(&self) -> u8 {
        self.nodes.saturating_add(1).saturating_add(self.replicas)
    }

    /// When a client begins for which this time was drawn.
    pub fn beginning(&self, drawn: u64) -> u64 {
        if self.is_quiet {
            self.seconds.saturating_mul(1_000)
        } else {
            drawn
        }
    }

    /// The host of the clients.
    pub fn client_host(&self) -> u8 {
        self.nodes
    }

    /// The host of the process of this index, that of a node or of a replica.
    pub fn host_at(&self, index: usize) -> usize {
        index.saturating_add((self.nodes as usize <= index) as usize)
    }

    /// Sets how much there is of a kind.
    fn set(&mut self, kind: &str, number: u32) -> Result<(), Unanswered> {
        match kind_at(kind) {
            Some((index, true)) => if let Some(weight) = self.weights.get_mut(index) {
                *weight = number;
            },
            Some((index, false)) => if let Some(skips) = self.skips.get_mut(index) {
                *skips = number != 0;
            },
            None => return self.set_other(kind, number),
        }
        Ok(())
    }

    /// Sets how much there is of what is none of `FAULTS`.
    fn set_other(&mut self, kind: &str, number: u32) -> Result<(), Unanswered> {
        match kind {
            "pause" => self.pause = number,
            "first" => self.first = number,
            "last" => self.last = number,
            "lost" => self.relapse = Relapse::Lost,
            "older" => self.relapse = Relapse::Older,
            "tape" => self.relapse = Relapse::Tape,
            "gone" => self.relapse = Relapse::Gone,
            "replaced" => self.relapse = Relapse::Replaced,
            "all" => self.kills_all = number != 0,
            "replicas" => self.set_replicas(number),
            "emptied" => self.loses_replica = number != 0,
            "quiet" => self.is_quiet = number != 0,
            "log" => self.is_printed = number != 0,
            _ => return set_network(&mut self.network, kind, number),
        }
        Ok(())
    }

    /// Sets how many replicas there are.
    fn set_replicas(&mut self, number: u32) {
        self.has_any_replicas = MOST_REPLICAS < number;
        self.replicas = u8::try_from(number.min(MOST_REPLICAS)).unwrap_or(0);
    }

    /// Whether the fault of this number, counted from 1, and of this kind happens.
    pub fn has(&self, number: u32, kind: usize) -> bool {
        let is_skipped = self.skips.get(kind).copied().unwrap_or(false);
        self.first <= number && number <= self.last && !is_skipped
    }

    /// Whether clients may stop.
    pub fn has_stops(&self) -> bool {
        let [_, _, _, _, _, _, _, stops, _, _, _] = self.weights;
        stops != 0
    }

    /// Whether strangers may come.
    pub fn has_strangers(&self) -> bool {
        let [_, _, _, _, _, _, _, _, _, strangers, _] = self.weights;
        strangers != 0
    }

    /// The index of the fault for a number that is drawn below the sum of all weights.
    pub fn fault_at(&self, drawn: u32) -> usize {
        let mut rest = drawn;
        for (index, weight) in self.weights.iter().enumerate() {
            if rest < *weight {
                return index;
            }
            rest = rest.saturating_sub(*weight);
        }
        0
    }

    /// The sum of all weights.
    pub fn total(&self) -> u32 {
        let mut total = 0u32;
        for weight in self.weights {
            total = total.saturating_add(weight);
        }
        total
    }
}

/// The index of the fault with this word, and whether the word is its own or leaves it out.
fn kind_at(word: &str) -> Option<(usize, bool)> {
    for (index, (own, without, _)) in FAULTS.iter().enumerate() {
        if *own == word {
            return Some((index, true));
        }
        if *without == word {
            return Some((index, false));
        }
    }
    None
}

/// Sets how much there is of a kind of fault of a network.
fn set_network(network: &mut Faults, kind: &str, number: u32) -> Result<(), Unanswered> {
    match kind {
        "delay" => network.delay = number,
        "room" => network.least_room = number,
        "resets" => network.resets = number,
        "losses" => network.losses = number,
        "refusals" => network.refusals = number,
        "silences" => network.silences = number,
        "false-events" => network.false_events = number,
        _ => return Err(Unanswered::BadWords),
    }
    Ok(())
}
