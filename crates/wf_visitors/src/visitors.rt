ghost use Rattle.wf_visitors.specs.Responses.{AreResponses};
ghost use Rattle.wf_visitors.specs.ResponsesTheorems.{are_responses_prop};

use crate::counts::Counts;
use crate::socket::ClientConnection;
use wf_client::Client;
use wf_past::Past;
use wf_sockets::{Network, SystemNetwork};

/// Clients with their connections: that of slot i at index i. A clause sees a log that only proofs
/// read: each client that was answered, as it was then, with what had come of its request and with
/// the whole response. What comes and is sent on a client's connection is what its request and its
/// response say.
#[derive(Drop)]
pub struct Visitors<N: Network = SystemNetwork> {
    pub(crate) listener: Option<N::Listener>,
    pub(crate) connections: Vec<Option<ClientConnection<N::Connection>>>,
    pub(crate) slots: Vec<Option<Client>>,
    // the token of slot 0
    pub(crate) first: usize,
    // the slot that is served first
    pub(crate) next: usize,
    // what is read comes through it
    pub(crate) piece: Vec<u8>,
    pub(crate) counts: Counts,
    pub(crate) responses: Past<Client, usize>,
    ghost answered: { AreResponses N.Connection.Connection
        responses.items connections.items slots.items } by { are_responses_prop
            N.Connection.Connection responses.items connections.items slots.items },
}
