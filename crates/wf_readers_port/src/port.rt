ghost use Rattle.wf_readers_port.specs.Readers.{AreReplied};
ghost use Rattle.wf_readers_port.specs.ReadersTheorems.{are_replied_prop};

use crate::reader::Reader;
use wf_digest::Digests;
use wf_learner::History;
use wf_past::Past;
use wf_reader::Answerer;
use wf_sockets::{Network, SystemNetwork};

/// What the port is given of the process: who it is, its history and the digests of that, to be
/// read only.
#[derive(Drop)]
pub struct PortView<'a> {
    pub own: &'a Answerer,
    pub history: &'a History,
    pub digests: &'a Digests,
}

/// A reader's history that differed: up to which sequence, and when it was found.
#[derive(Clone, Copy)]
pub(crate) struct Difference {
    pub(crate) sequence: u16,
    pub(crate) time: u64,
}

/// The readers' port: a listener, and slots of its own. A clause sees a log that only proofs read:
/// each question that a reader asked, with the reply. What comes and is sent on a reader's
/// connection is what its exchanges say.
#[derive(Drop)]
pub struct ReadersPort<N: Network = SystemNetwork> {
    pub(crate) listener: Option<N::Listener>,
    pub(crate) slots: Vec<Option<Reader<N::Connection>>>,
    // the token of slot 0
    pub(crate) first: usize,
    pub(crate) difference: Option<Difference>,
    pub(crate) exchanges: Past<Vec<u8>, Vec<u8>>,
    ghost replied: { AreReplied N.Connection.Connection
        exchanges.items slots.items } by { are_replied_prop
            N.Connection.Connection exchanges.items slots.items },
}
