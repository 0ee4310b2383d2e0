//! What a client's turn reads and writes.
ghost use Rattle.std.specs.Prelude.{◌≡◌};
ghost use Rattle.wf_visitors.specs.Responses.{GoesOnFrom};
ghost use Rattle.wf_visitors.specs.Turn.{IfGoesOn, IfHere, IsGiving, IsReceiving};

use crate::socket::ClientConnection;
use wf_client::Client;
use wf_sockets::{Connection, Moved, Network};

/// The most bytes of a piece.
pub(crate) const PIECE_BYTES: usize = 8_192;

/// The most pieces that one client's turn reads.
const MOST_PIECES: usize = 16;

/// What a turn of a client leaves.
#[derive(Clone, Copy, PartialEq, Eq)]
pub(crate) enum ClientTurn {
    /// It stays.
    Here,
    /// It has gone.
    Gone,
}

/// Reads what came of a request, a bounded part of it, and puts it behind what had come. Nothing is
/// promised of a client that has gone.
#[tactic(auto, using(crate::proofs::Answered::received_nothing, crate::proofs::Answered::receiving_twice, crate::proofs::Answered::receiving_watched))]
pub(crate) fn receive<N: Network>(
    network: &N,
    connection: &mut ClientConnection<N::Connection>,
    client: &mut Client,
    piece: &mut [u8],
    token: usize,
) -> ClientTurn
    ensures { IfHere result (IsReceiving
        (N.Connection.came connection.old.connection) (N.Connection.sent connection.old.connection)
        client.old
        (N.Connection.came connection.new.connection) (N.Connection.sent connection.new.connection)
        client.new) }
{
    for _ in 0..MOST_PIECES {
        match receive_piece(&mut connection.connection, client, piece) {
            Step::More => {}
            Step::Done(left) => return left,
        }
    }
    if connection.watch_again(network, token) {
        ClientTurn::Here
    } else {
        ClientTurn::Gone
    }
}

/// Whether more may be read or written.
#[derive(Clone, Copy, PartialEq, Eq)]
enum Step {
    More,
    Done(ClientTurn),
}

/// Reads a piece of a request. No more is read where all that has come was, and may be the whole
/// request: if it isn't, its client's next turn reads on.
#[tactic(auto, using(crate::proofs::Answered::received, crate::proofs::Answered::received_none))]
fn receive_piece<C: Connection>(connection: &mut C, client: &mut Client, piece: &mut [u8]) -> Step
    ensures { IfGoesOn result (IsReceiving
        (C.came connection.old) (C.sent connection.old) client.old
        (C.came connection.new) (C.sent connection.new) client.new) }
{
    match connection.read(piece) {
        Moved::Bytes(count) => {
            if client.incoming.take_in(&piece[..count]).is_err() {
                return Step::Done(ClientTurn::Gone);
            }
            if count < piece.len() && client.incoming.may_be_whole() {
                Step::Done(ClientTurn::Here)
            } else {
                Step::More
            }
        }
        Moved::Blocked => Step::Done(ClientTurn::Here),
        Moved::Closed => {
            client.incoming.close();
            Step::Done(ClientTurn::Here)
        }
        Moved::Failed => Step::Done(ClientTurn::Gone),
    }
}

/// Writes what a client takes of its answer. Nothing is promised of a client that has gone.
#[tactic(auto, using(crate::proofs::Answered::given_nothing, crate::proofs::Answered::giving_twice, crate::proofs::Answered::giving_before))]
pub(crate) fn give<C: Connection>(connection: &mut C, client: &mut Client) -> ClientTurn
    ensures { IfHere result (IsGiving
        (C.came connection.old) (C.sent connection.old) client.old
        (C.came connection.new) (C.sent connection.new) client.new) }
{
    for _ in 0..u64::MAX {
        match give_piece(connection, client) {
            Step::More => {}
            Step::Done(left) => return left,
        }
    }
    ClientTurn::Here
}

/// Writes once what a client takes of its answer.
#[tactic(auto, using(crate::proofs::Answered::given, crate::proofs::Answered::given_none, crate::proofs::Answered::given_nothing))]
fn give_piece<C: Connection>(connection: &mut C, client: &mut Client) -> Step
    ensures { IfGoesOn result (IsGiving
        (C.came connection.old) (C.sent connection.old) client.old
        (C.came connection.new) (C.sent connection.new) client.new) }
{
    if client.outgoing.is_taken() {
        return Step::Done(ClientTurn::Here);
    }
    match connection.write(client.outgoing.rest()) {
        Moved::Bytes(count) => {
            client.outgoing.advance(count);
            Step::More
        }
        Moved::Blocked => Step::Done(ClientTurn::Here),
        Moved::Closed | Moved::Failed => Step::Done(ClientTurn::Gone),
    }
}

/// Drops what a client still sends; nothing is sent.
#[tactic(auto, using(crate::proofs::Answered::goes_on_from_itself, crate::proofs::Answered::goes_on_from_read))]
pub(crate) fn drop_rest<C: Connection>(connection: &mut C, piece: &mut [u8]) -> ClientTurn
    ensures came { GoesOnFrom (C.came connection.new) (C.came connection.old) }
    ensures sent { C.sent connection.new ≡ C.sent connection.old }
{
    for _ in 0..MOST_PIECES {
        match connection.read(piece) {
            Moved::Bytes(_) => {}
            Moved::Blocked => return ClientTurn::Here,
            Moved::Closed | Moved::Failed => return ClientTurn::Gone,
        }
    }
    ClientTurn::Gone
}
