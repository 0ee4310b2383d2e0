//! Whom a replica asks.

ghost use Rattle.std.specs.Prelude.{◌≡◌, length, true};
ghost use Rattle.std.specs.Option.{ForSome};
ghost use Rattle.wf_replica.specs.Refusals.{all_refuse};

use crate::heard::HeardLog;
use crate::source_connection::SourceConnection;
use std::net::SocketAddr;
use wf_reader::{Answerer, QuestionRejection};
use wf_replica::{Asking, Refusals};
use wf_sockets::Network;

/// Whom a replica asks, and what it has heard of the farm.
#[derive(Drop)]
pub(crate) struct Upstream<N: Network> {
    pub(crate) sources: Vec<SocketAddr>,
    pub(crate) asking: Asking,
    pub(crate) source: Option<SourceConnection<N::Connection>>,
    // the one to which the connection is, and whether the log's last line about a source says that
    // one is asked: where it goes on to the next one it says nothing
    pub(crate) of: usize,
    pub(crate) is_named: bool,
    pub(crate) heard: HeardLog<N::Connection>,
    pub(crate) refusals: Refusals,
    pub(crate) answerer: Answerer,
    pub(crate) received: u16,
    // it began with no map, and hasn't yet had all that a source has
    pub(crate) is_new: bool,
    // why the replica has to end: all of its sources refuse it
    pub(crate) end: Option<QuestionRejection>,
    ghost each: { length refusals ≡ length sources.items },
    ghost refused: { ForSome end (λ _. all_refuse refusals ≡ true) },
}
