//! The slots of clients: a connection at an index, and the client at the same index of another
//! vector.
ghost use Rattle.std.specs.Prelude.{◌≡◌, ℕ, List, None, Some, IfOk, IfSome, replicate, slice_index_or, slice_set};
ghost use Rattle.wf_client.specs.Client.{Client as ClientValue};
ghost use Rattle.wf_visitors.specs.Responses.{AreResponses, MayRespondOn};

use crate::socket::ClientConnection;
use std::alloc::{AllocError, Global};
use wf_client::Client;
use wf_sockets::Connection;

/// That many free slots.
#[tactic(auto, using(crate::proofs::Answered::one_more_free))]
pub(crate) fn free_slots<T: Drop>(alloc: Global, count: usize) -> Result<Vec<Option<T>>, AllocError>
    ensures { IfOk result (λ slots. slots.items ≡ replicate count None) }
{
    let mut slots = Vec::new(alloc);
    for _ in 0..count {
        slots.push(None)?;
    }
    Ok(slots)
}

/// Takes what is in a slot.
fn take_one<T: Drop>(slots: &mut Vec<Option<T>>, index: usize) -> Option<T>
    ensures slots { slots.new.items ≡ slice_set slots.old.items index None }
    ensures taken { result ≡ slice_index_or slots.old.items index None }
{
    if index < slots.len() {
        slots[index].take()
    } else {
        None
    }
}

/// Puts something into a slot, in the place of what is there.
fn put_one<T: Drop>(slots: &mut Vec<Option<T>>, index: usize, one: T)
    ensures { slots.new.items ≡ slice_set slots.old.items index (Some one) }
{
    if index < slots.len() {
        slots[index] = Some(one);
    } else {
        drop(one);
    }
}

/// Takes a client and its connection out of a slot. Where one of both isn't there, none is from
/// then on.
#[tactic(auto, using(crate::proofs::Answered::taken_at, crate::proofs::Answered::left_at))]
pub(crate) fn take_out<C: Connection + Drop>(
    connections: &mut Vec<Option<ClientConnection<C>>>,
    slots: &mut Vec<Option<Client>>,
    index: usize,
) -> Option<(ClientConnection<C>, Client)>
    ensures kept { (responses : List (ClientValue × ℕ))
        → AreResponses C.Connection responses connections.old.items slots.old.items
        → AreResponses C.Connection responses connections.new.items slots.new.items }
    ensures given { (responses : List (ClientValue × ℕ))
        → AreResponses C.Connection responses connections.old.items slots.old.items
        → IfSome result (λ found. MayRespondOn C.Connection responses found.0 found.1) }
{
    match (take_one(connections, index), take_one(slots, index)) {
        (Some(connection), Some(client)) => Some((connection, client)),
        _ => None,
    }
}

/// Puts a client and its connection into a slot.
#[tactic(auto, using(crate::proofs::Answered::put_at))]
pub(crate) fn put_in<C: Connection + Drop>(
    connections: &mut Vec<Option<ClientConnection<C>>>,
    slots: &mut Vec<Option<Client>>,
    index: usize,
    connection: ClientConnection<C>,
    client: Client,
)
    ensures { (responses : List (ClientValue × ℕ))
        → AreResponses C.Connection responses connections.old.items slots.old.items
        → MayRespondOn C.Connection responses connection client
        → AreResponses C.Connection responses connections.new.items slots.new.items }
{
    put_one(connections, index, connection);
    put_one(slots, index, client);
}
