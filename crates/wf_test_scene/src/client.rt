//! A client of a process: it publishes and asks what has become of that, or looks at maps, or is an
//! operator or a reader of the history. It may stop on a connection, and goes on by others.

use crate::dice::Dice;
use crate::exchange::{Ending, Exchange, Stage, head_of, number_behind, text_of};
use crate::ledger::{Ledger, Seen};
use crate::names::{Port, address_at};
use crate::process::Process;
use crate::requests::{
    AGREE, BEGIN, CAPABILITIES, METRICS, READINESS, STATUS, bytes_of, picture_request,
    publish_request, question,
};
use crate::scene::Scene;
use crate::schedule::Stroke;
use std::alloc::{AllocError, Global};
use std::mem::replace;
use std::net::SocketAddr;
use wf_reader::{Reply, decode_reply};

/// The time after which a running proposal is asked for again, in milliseconds.
const ASKING_MILLIS: u64 = 50;

/// The time after which an operator looks again whether all is healed, in milliseconds.
const LOOKING_MILLIS: u64 = 200;

/// The time after which it looks again whether connections were given back, in milliseconds.
const COUNTING_MILLIS: u64 = 500;

/// The pixels of a picture each way: of an ordinary one, and of one that no connection has room
/// for.
const SIDE: u32 = 8;

const LARGE_SIDE: u32 = 160;

/// What a client does.
#[derive(Clone, Copy, PartialEq)]
pub enum Role {
    /// It publishes.
    Publisher,
    /// It asks for capabilities and pictures.
    Viewer,
    /// It asks at the operator's port whether the node is ready, and for its metrics.
    Operator,
    /// It asks at the readers' port for what is published.
    Reader,
}

/// Each of them.
pub const ROLES: [Role; 4] = [Role::Publisher, Role::Viewer, Role::Operator, Role::Reader];

/// Those of the clients of a replica.
pub const REPLICA_ROLES: [Role; 3] = [Role::Viewer, Role::Operator, Role::Reader];

/// How a client stops: it sends half of a request, or a whole one and takes no byte of the
/// response.
#[derive(Clone, Copy, PartialEq)]
enum Stop {
    Within,
    Behind,
}

/// How far the play is.
#[derive(Clone, Copy, PartialEq)]
enum Period {
    /// Faults happen.
    Faults,
    /// They are over.
    Healing,
    /// All is healed: clients go, and operators count connections.
    Leaving,
    /// They have gone.
    Gone,
}

/// What a client wants to know.
#[derive(Clone, Copy)]
enum Goal {
    /// Nothing yet.
    Nothing,
    /// Whether a map is accepted.
    Publish { map: u32 },
    /// Whether a map that was accepted for a sequence is published.
    Status { map: u32, sequence: u16 },
    /// What the capabilities are.
    Capabilities,
    /// What the picture at a sequence is, of so many pixels each way.
    Picture { sequence: u16, side: u32 },
    /// Whether the node is ready.
    Readiness,
    /// What the metrics are.
    Metrics,
    /// That a folder joins in the place of that of node 0.
    Replacement,
    /// What is published next.
    Reply,
}

/// A client of a process.
#[derive(Drop)]
pub struct Client<'a> {
    process: Process,
    role: Role,
    goal: Goal,
    exchange: Option<Exchange<'a>>,
    next: u64,
    period: Period,
    // how its next request stops, and the last one that has, whose connection is kept
    stop: Option<Stop>,
    stopped: Option<Exchange<'a>>,
    // how many connections of clients and of readers were open, as it was told since all is healed
    open: Option<(u32, u32)>,
    // whether it has had an answer since all faults are over
    is_served: bool,
    // whether a folder joins then
    has_joiner: bool,
    // the last sequence that it was told of, and, of a reader, the digest up to that
    told: u16,
    digest: [u8; 32],
}

impl<'a> Client<'a> {
    /// A client that begins at this time.
    pub fn new(process: Process, role: Role, next: u64) -> Self {
        Client {
            process,
            role,
            goal: Goal::Nothing,
            exchange: None,
            next,
            period: Period::Faults,
            stop: None,
            stopped: None,
            open: None,
            is_served: false,
            has_joiner: false,
            told: 0,
            digest: [0; 32],
        }
    }

    /// The process of which it is.
    pub fn process(&self) -> Process {
        self.process
    }

    /// Whether it has had the answer that it wants since all faults are over.
    pub fn is_served(&self) -> bool {
        self.is_served
    }

    /// When it does something next where no bytes come.
    pub fn due(&self) -> u64 {
        match &self.exchange {
            Some(exchange) => exchange.deadline(),
            None => if self.is_at_rest() {
                u64::MAX
            } else {
                self.next
            },
        }
    }

    /// Whether it is an operator.
    pub fn is_operator(&self) -> bool {
        self.role == Role::Operator
    }

    /// How many connections of clients and of readers its process had, as it was told since all is
    /// healed. None: it wasn't.
    pub fn open(&self) -> Option<(u32, u32)> {
        self.open
    }

    /// Whether it wants nothing more. An operator goes on, since a node may be suspended after it
    /// was ready, and where a folder joins a publisher too, since that needs more maps.
    fn is_at_rest(&self) -> bool {
        match self.period {
            Period::Faults => false,
            Period::Healing => self.is_served && !self.goes_on(),
            Period::Leaving => !self.is_operator(),
            Period::Gone => true,
        }
    }

    /// Whether it goes on once it was served.
    fn goes_on(&self) -> bool {
        match self.role {
            Role::Operator => true,
            Role::Publisher => self.has_joiner,
            Role::Viewer | Role::Reader => false,
        }
    }

    /// A fault happens: if it is the client that is meant, its next request stops.
    pub fn stop(&mut self, stroke: &Stroke) {
        if self.process.host() as usize == stroke.host && is_role_at(self.role, stroke.kept) {
            self.stop = Some(if stroke.older == 0 {
                Stop::Within
            } else {
                Stop::Behind
            });
        }
    }

    /// All faults are over: it begins anew, at once. A folder joins then, or doesn't.
    pub fn heal(&mut self, time: u64, has_joiner: bool) {
        self.end();
        self.goal = Goal::Nothing;
        self.next = time;
        self.stop = None;
        self.is_served = false;
        self.period = Period::Healing;
        self.has_joiner = has_joiner && !self.process.is_replica();
    }

    /// All is healed: it goes, but for the connection on which it has stopped. An operator counts
    /// connections.
    pub fn leave(&mut self, time: u64) {
        self.end();
        self.goal = Goal::Nothing;
        self.next = time;
        self.period = Period::Leaving;
    }

    /// It goes, and closes the connection on which it has stopped.
    pub fn go(&mut self) {
        self.end();
        drop(self.stopped.take());
        self.period = Period::Gone;
    }

    /// Closes its connection, if it has one.
    pub fn end(&mut self) {
        drop(self.exchange.take());
    }

    /// Begins a request if it is time to, and goes on with one that has begun.
    pub fn turn(&mut self, scene: &Scene<'a>, dice: &mut Dice, ledger: &mut Ledger) {
        self.send_stopped();
        match self.exchange.take() {
            Some(exchange) => self.go_on(exchange, scene, dice, ledger),
            None => if self.next <= scene.time && !self.is_at_rest() {
                self.begin(scene, dice, ledger);
            },
        }
    }

    /// The request that has stopped is sent as far as it goes.
    fn send_stopped(&mut self) {
        if let Some(stopped) = &mut self.stopped {
            stopped.send();
        }
    }

    /// Begins the next request.
    fn begin(&mut self, scene: &Scene<'a>, dice: &mut Dice, ledger: &mut Ledger) {
        self.next = scene.time.saturating_add(ASKING_MILLIS);
        self.goal = self.next_goal(dice, ledger);
        let (address, ending) = self.target();
        match request_for(scene.alloc, self.process, self.goal, self.told, self.digest) {
            Ok(request) => {
                let exchange = Exchange::begin(scene, address, ending, request);
                self.hold(exchange, ledger);
            }
            Err(_) => ledger.cut(),
        }
    }

    /// It has this exchange from now on; or, if that stops, keeps its connection beside that of the
    /// next one.
    fn hold(&mut self, exchange: Option<Exchange<'a>>, ledger: &mut Ledger) {
        match self.stop.take() {
            Some(stop) => self.stop_on(exchange, stop, ledger),
            None => self.keep(exchange),
        }
    }

    /// It stops on the connection of an exchange, and closes the one on which it had stopped.
    fn stop_on(&mut self, exchange: Option<Exchange<'a>>, stop: Stop, ledger: &mut Ledger) {
        let Some(mut exchange) = exchange else {
            return;
        };
        if stop == Stop::Within {
            exchange.halve();
        }
        ledger.answers.stopped = ledger.answers.stopped.saturating_add(1);
        drop(replace(&mut self.stopped, Some(exchange)));
    }

    /// It has this exchange from now on.
    fn keep(&mut self, exchange: Option<Exchange<'a>>) {
        drop(replace(&mut self.exchange, exchange));
    }

    /// Goes on with an exchange.
    fn go_on(
        &mut self,
        exchange: Exchange<'a>,
        scene: &Scene<'a>,
        dice: &mut Dice,
        ledger: &mut Ledger,
    ) {
        let mut exchange = exchange;
        match exchange.turn(scene.time) {
            Stage::Waiting => {
                self.keep(Some(exchange));
                return;
            }
            Stage::Answered => {
                self.rest(scene.time, dice);
                self.take(exchange.response(), scene, ledger);
            }
            Stage::Failed => {
                self.rest(scene.time, dice);
                self.give_up(ledger);
            }
        }
        drop(exchange);
    }

    /// It begins the next request later.
    fn rest(&mut self, time: u64, dice: &mut Dice) {
        let pause = match (self.period, self.role) {
            (Period::Healing, Role::Operator) => LOOKING_MILLIS,
            (Period::Leaving, Role::Operator) => COUNTING_MILLIS,
            (Period::Faults, Role::Publisher) => dice.millis(10, 300),
            (Period::Faults, Role::Viewer) => dice.millis(50, 1_000),
            (Period::Faults, _) => dice.millis(500, 3_000),
            _ => ASKING_MILLIS,
        };
        self.next = time.saturating_add(pause);
    }

    /// Nothing answered: whether a map was accepted isn't known.
    fn give_up(&mut self, ledger: &mut Ledger) {
        ledger.answers.failed = ledger.answers.failed.saturating_add(1);
        if let Goal::Publish { .. } = self.goal {
            self.goal = Goal::Nothing;
        }
    }

    /// Where it asks, and by what the response is known to be whole.
    fn target(&self) -> (SocketAddr, Ending) {
        let host = self.process.host();
        match self.role {
            Role::Publisher | Role::Viewer => (address_at(host, Port::Http), Ending::Close),
            Role::Operator => (address_at(host, Port::Admin), Ending::Close),
            Role::Reader => (address_at(host, Port::Readers), Ending::Length),
        }
    }

    /// What it wants to know next.
    fn next_goal(&self, dice: &mut Dice, ledger: &mut Ledger) -> Goal {
        match self.role {
            Role::Publisher => match self.goal {
                Goal::Status { map, sequence } => Goal::Status { map, sequence },
                _ => Goal::Publish {
                    map: ledger.take_map(),
                },
            },
            Role::Viewer => {
                if self.told == 0 || self.period == Period::Healing || dice.below(2) == 0 {
                    Goal::Capabilities
                } else {
                    Goal::Picture {
                        sequence: self.told,
                        side: self.side(),
                    }
                }
            }
            Role::Operator => match (self.period, self.has_joiner, dice.below(2)) {
                (Period::Faults, _, 0) | (Period::Leaving, _, _) => Goal::Metrics,
                (Period::Healing, true, 0) => Goal::Replacement,
                _ => Goal::Readiness,
            },
            Role::Reader => Goal::Reply,
        }
    }

    /// The pixels of its next picture each way: many, if it takes no byte of that.
    fn side(&self) -> u32 {
        match self.stop {
            Some(Stop::Behind) => LARGE_SIDE,
            _ => SIDE,
        }
    }

    /// Takes a response.
    fn take(&mut self, response: &[u8], scene: &Scene<'a>, ledger: &mut Ledger) {
        match self.goal {
            Goal::Nothing => {}
            Goal::Publish { map } => self.take_accepted(response, map, scene.time, ledger),
            Goal::Status { map, sequence } => {
                self.take_status(response, map, sequence, scene.time, ledger);
            }
            Goal::Capabilities => self.take_document(response, ledger),
            Goal::Picture { sequence, .. } => self.take_picture(response, sequence, ledger),
            Goal::Readiness | Goal::Metrics | Goal::Replacement => self.take_page(response, ledger),
            Goal::Reply => self.take_reply(response, scene.alloc, ledger),
        }
    }

    /// Takes the response to a publish.
    fn take_accepted(&mut self, response: &[u8], map: u32, time: u64, ledger: &mut Ledger) {
        let answers = &mut ledger.answers;
        match sequence_behind(text_of(response), "accepted for ") {
            Some(sequence) => {
                answers.accepted = answers.accepted.saturating_add(1);
                self.goal = Goal::Status { map, sequence };
                self.next = time.saturating_add(ASKING_MILLIS);
            }
            None => {
                answers.rejected = answers.rejected.saturating_add(1);
                self.goal = Goal::Nothing;
            }
        }
    }

    /// Takes the response that says what has become of a map.
    fn take_status(
        &mut self,
        response: &[u8],
        map: u32,
        sequence: u16,
        time: u64,
        ledger: &mut Ledger,
    ) {
        let text = text_of(response);
        if text.contains("proposal running") {
            self.next = time.saturating_add(ASKING_MILLIS);
            return;
        }
        self.goal = Goal::Nothing;
        if sequence_behind(text, "proposal published ") == Some(sequence) {
            self.is_served = true;
            ledger.note_report(sequence, map);
        }
    }

    /// Takes a document of capabilities.
    fn take_document(&mut self, response: &[u8], ledger: &mut Ledger) {
        match sequence_behind(text_of(response), "updateSequence=\"") {
            Some(sequence) => {
                self.is_served = true;
                self.told = sequence;
                ledger.answers.documents = ledger.answers.documents.saturating_add(1);
                ledger.note_answer(self.process, sequence, Seen::Capabilities, response);
            }
            None => ledger.answers.rejected = ledger.answers.rejected.saturating_add(1),
        }
    }

    /// Takes the picture at a sequence. A replica that lost its tape may not have it any more.
    fn take_picture(&mut self, response: &[u8], sequence: u16, ledger: &mut Ledger) {
        if has_succeeded(response) && !is_exception(response) {
            ledger.answers.pictures = ledger.answers.pictures.saturating_add(1);
            ledger.note_answer(self.process, sequence, Seen::Picture, response);
        } else {
            ledger.answers.rejected = ledger.answers.rejected.saturating_add(1);
        }
    }

    /// Takes a page of the operator's port. A node that isn't ready says so.
    fn take_page(&mut self, response: &[u8], ledger: &mut Ledger) {
        ledger.answers.pages = ledger.answers.pages.saturating_add(1);
        if self.period == Period::Leaving {
            self.open = open_in(text_of(response));
        }
        if has_succeeded(response) {
            self.is_served = true;
        } else if text_of(response).contains("suspended: ") {
            self.is_served = true;
            ledger.note_suspended(self.process.host());
        }
    }

    /// Takes what is published next.
    fn take_reply(&mut self, response: &[u8], alloc: Global, ledger: &mut Ledger) {
        match decode_reply(alloc, response) {
            Ok(reply) => {
                self.take_answer(&reply, ledger);
                drop(reply);
            }
            Err(_) => ledger.answers.rejected = ledger.answers.rejected.saturating_add(1),
        }
    }

    /// Takes an answer to a reader. Once it has all, it asks for what comes then.
    fn take_answer(&mut self, reply: &Reply, ledger: &mut Ledger) {
        let Reply::Answer(answer) = reply else {
            ledger.answers.rejected = ledger.answers.rejected.saturating_add(1);
            return;
        };
        ledger.answers.replies = ledger.answers.replies.saturating_add(1);
        self.is_served = true;
        let mut sequence = self.told;
        for canon in answer.definitions() {
            sequence = sequence.saturating_add(1);
            ledger.note_text(self.process, sequence, canon.text());
        }
        if sequence == answer.published().number() {
            self.told = sequence;
            self.digest = answer.digest();
        }
    }
}

/// The request by which a client learns what it wants to.
fn request_for(
    alloc: Global,
    process: Process,
    goal: Goal,
    told: u16,
    digest: [u8; 32],
) -> Result<Vec<u8>, AllocError> {
    match goal {
        Goal::Nothing | Goal::Status { .. } => bytes_of(alloc, STATUS),
        Goal::Publish { map } => publish_request(alloc, map),
        Goal::Capabilities => bytes_of(alloc, CAPABILITIES),
        Goal::Picture { sequence, side } => picture_request(alloc, sequence, side),
        Goal::Readiness => bytes_of(alloc, READINESS),
        Goal::Metrics => bytes_of(alloc, METRICS),
        Goal::Replacement => bytes_of(alloc, if process.host() == 0 { BEGIN } else { AGREE }),
        Goal::Reply => question(alloc, told, digest),
    }
}

/// Whether a role is the one at this index, which goes round.
fn is_role_at(role: Role, index: usize) -> bool {
    match ROLES.get(index.checked_rem(ROLES.len()).unwrap_or(0)) {
        Some(found) => *found == role,
        None => false,
    }
}

/// How many connections of clients and of readers are open, by metrics.
fn open_in(text: &str) -> Option<(u32, u32)> {
    let clients = number_behind(text, "gauge\nwfarm_open_clients ")?;
    let readers = number_behind(text, "gauge\nwfarm_open_readers ")?;
    Some((clients, readers))
}

/// Whether a response says that the request succeeded.
fn has_succeeded(response: &[u8]) -> bool {
    match head_of(response) {
        Some(head) => head.starts_with("HTTP/1.1 200 "),
        None => false,
    }
}

/// Whether a response is an error of the map service, which has the status of success.
fn is_exception(response: &[u8]) -> bool {
    text_of(response).contains("<ServiceException")
}

/// The sequence that stands behind the first of these marks in a text.
fn sequence_behind(text: &str, mark: &str) -> Option<u16> {
    // (`try_from`, and its `ok`, take many times as long to prove)
    let number = number_behind(text, mark)?;
    if number <= u32::from(u16::MAX) {
        Some(number as u16)
    } else {
        None
    }
}
