//! A request of a client, and its response.

use crate::scene::Scene;
use std::net::SocketAddr;
use wf_reader::reply_length;
use wf_simulation::{Offline, SimulatedConnection, SimulatedNetwork};
use wf_sockets::{Connection, Moved, Network};

/// How long a response is waited for, in milliseconds.
const PATIENCE_MILLIS: u64 = 1_500;

/// The most bytes of one read.
const PIECE_BYTES: usize = 1_024;

/// The most reads or writes of a turn.
const MOST_CALLS: u32 = 64;

/// How far an exchange is.
#[derive(Clone, Copy, PartialEq)]
pub enum Stage {
    /// The response isn't whole.
    Waiting,
    /// It is.
    Answered,
    /// The connection failed, or nothing came in time.
    Failed,
}

/// By what a response is known to be whole.
#[derive(Clone, Copy)]
pub enum Ending {
    /// The connection ends behind it, and its head says how long it is.
    Close,
    /// Its first four bytes say how long it is.
    Length,
}

/// A connection on which a request is sent, and its response read.
#[derive(Drop)]
pub struct Exchange<'a> {
    connection: SimulatedConnection<'a>,
    request: Vec<u8>,
    sent: usize,
    response: Vec<u8>,
    ending: Ending,
    deadline: u64,
}

impl<'a> Exchange<'a> {
    /// Begins a request to an address. None: no connection is free.
    pub fn begin(
        scene: &Scene<'a>,
        address: SocketAddr,
        ending: Ending,
        request: Vec<u8>,
    ) -> Option<Exchange<'a>> {
        match SimulatedNetwork::new(scene.world, scene.host).connect(&Offline, address) {
            Some(connection) => Some(Exchange {
                connection,
                request,
                sent: 0,
                response: Vec::new(scene.alloc),
                ending,
                deadline: scene.time.saturating_add(PATIENCE_MILLIS),
            }),
            None => {
                drop(request);
                None
            }
        }
    }

    /// What came of the response.
    pub fn response(&self) -> &[u8] {
        self.response.as_slice()
    }

    /// When it fails if nothing comes.
    pub fn deadline(&self) -> u64 {
        self.deadline
    }

    /// The second half of the request is never sent.
    pub fn halve(&mut self) {
        self.request.truncate(self.request.len() / 2);
    }

    /// Writes as much as can be now, and reads nothing.
    pub fn send(&mut self) {
        let _ = self.write_all();
    }

    /// Writes and reads as much as can be now.
    pub fn turn(&mut self, time: u64) -> Stage {
        let written = self.write_all();
        let stage = match written {
            Moved::Failed => Stage::Failed,
            _ => self.read_all(),
        };
        if stage == Stage::Waiting && self.deadline <= time {
            return Stage::Failed;
        }
        stage
    }

    /// Writes until nothing is taken.
    fn write_all(&mut self) -> Moved {
        for _ in 0..MOST_CALLS {
            match write_rest(&mut self.connection, &self.request, self.sent) {
                Moved::Bytes(count) => self.sent = self.sent.saturating_add(count),
                moved => return moved,
            }
        }
        Moved::Blocked
    }

    /// Reads until nothing comes.
    fn read_all(&mut self) -> Stage {
        let mut piece = [0u8; PIECE_BYTES];
        for _ in 0..MOST_CALLS {
            match self.connection.read(&mut piece) {
                Moved::Bytes(count) => {
                    if self
                        .response
                        .extend_from_slice(piece.split_at(count).0)
                        .is_err()
                    {
                        return Stage::Failed;
                    }
                }
                Moved::Blocked => return self.paused(),
                Moved::Closed => return self.ended(),
                Moved::Failed => return Stage::Failed,
            }
        }
        Stage::Waiting
    }

    /// The stage where no more comes now.
    fn paused(&self) -> Stage {
        let response = self.response.as_slice();
        match (self.ending, reply_length(response)) {
            (Ending::Length, Ok(length)) if length <= response.len() => Stage::Answered,
            _ => Stage::Waiting,
        }
    }

    /// The stage at the end of the response: a node that was killed within it has sent a part.
    fn ended(&self) -> Stage {
        match (self.ending, length_of(self.response.as_slice())) {
            (Ending::Close, Some(length)) if length == self.response.len() => Stage::Answered,
            _ => Stage::Failed,
        }
    }
}

/// Writes what is left of a request of which so many bytes were sent.
fn write_rest(connection: &mut SimulatedConnection<'_>, request: &[u8], sent: usize) -> Moved {
    connection.write(request.split_at(sent.min(request.len())).1)
}

/// The number of bytes of a response, by its head.
fn length_of(response: &[u8]) -> Option<usize> {
    let head = head_of(response)?;
    let body = number_behind(head, "Content-Length: ")? as usize;
    Some(head.len().saturating_add(body))
}

/// The head of a response, with the empty line behind it.
pub fn head_of(response: &[u8]) -> Option<&str> {
    for count in 0..response.len() {
        let (head, _) = response.split_at(count.saturating_add(1).min(response.len()));
        if head.ends_with(b"\r\n\r\n") {
            return str::from_utf8(head).ok();
        }
    }
    None
}

/// The text of a response; an empty one if it is none.
pub fn text_of(response: &[u8]) -> &str {
    // (an `unwrap_or` takes many times as long to prove)
    match str::from_utf8(response) {
        Ok(text) => text,
        Err(_) => "",
    }
}

/// The number that stands behind the first of these marks in a text.
pub fn number_behind(text: &str, mark: &str) -> Option<u32> {
    let (_, rest) = text.split_once(mark)?;
    let mut number = None;
    for byte in rest.as_bytes() {
        match *byte {
            b'0'..=b'9' => {
                let before: u32 = number.unwrap_or(0);
                number = Some(
                    before
                        .saturating_mul(10)
                        .saturating_add(u32::from(*byte - b'0')),
                );
            }
            _ => return number,
        }
    }
    number
}
