//! How clients come, ask, are answered and go.
ghost use Rattle.std.specs.Prelude.{◌≡◌, ℕ, List, [], IfOk, IfSome, false};
ghost use Rattle.wf_client.specs.Client.{Client as ClientValue};
ghost use Rattle.wf_client.specs.Slots.{NoneIsFree};
ghost use Rattle.wf_visitors.specs.Responses.{AreResponses, GoesOnFrom, MayRespondOn};
ghost use Rattle.wf_visitors.specs.Turn.{IfHere};
ghost use Rattle.wf_visitors.specs.Visitors.{responses_of, AnswersOne, IsResponding};

use crate::clock::micros;
use crate::context::Context;
use crate::counts::Counts;
use crate::event::Visit;
use crate::request_line::{request_line, said_to};
use crate::server::{Server, ServerReply};
use crate::slots::{free_slots, put_in, take_out};
use crate::socket::ClientConnection;
use crate::turn::{ClientTurn, PIECE_BYTES, drop_rest, give, receive};
use crate::visitors::Visitors;
use std::alloc::{AllocError, Global};
use std::net::SocketAddr;
use std::time::Clock;
use wf_client::{BUDGET_BYTES, Client, ClientPhase, Outgoing, first_free, slot_index, weight};
use wf_past::Past;
use wf_sockets::{Connection, Network};

/// The most connections accepted in one turn.
const MOST_ACCEPTED: usize = 64;

/// The least status of a rejection.
const LEAST_REJECTION: u16 = 400;

impl<N: Network> Visitors<N> {
    /// That many free slots, with the tokens from the first one on. The only error is allocation
    /// failure.
    #[tactic(auto, using(crate::proofs::Answered::none_responses))]
    pub fn new(
        alloc: Global,
        count: usize,
        listener: Option<N::Listener>,
        first: usize,
    ) -> Result<Self, AllocError>
        ensures { IfOk result (λ visitors. responses_of visitors ≡ []) }
    {
        let connections = free_slots(alloc, count)?;
        let slots = free_slots(alloc, count)?;
        let piece = vec![in alloc; 0u8; PIECE_BYTES]?;
        let responses = Past::new();
        Ok(Visitors {
            listener,
            connections,
            slots,
            first,
            next: 0,
            piece,
            counts: Counts::new(alloc),
            responses,
        })
    }

    /// Where clients come.
    pub fn address(&self, network: &N) -> Option<SocketAddr> {
        match &self.listener {
            Some(listener) => network.address(listener),
            None => None,
        }
    }

    /// The number of slots.
    pub fn count(&self) -> usize {
        self.slots.len().min(self.connections.len())
    }

    /// The number of slots that are taken.
    pub fn taken_slots(&self) -> usize {
        self.slots.iter().filter(|slot| slot.is_some()).count()
    }

    /// How many requests were answered.
    pub fn counts(&self) -> &Counts {
        &self.counts
    }

    /// Always, of each client with its connection: as long as its request isn't whole, that is all
    /// that came on the connection, and nothing was sent on it. From then on what was sent is a
    /// beginning of the client's response, as long as what is noted as taken. It is the response
    /// that one of the answered clients was sent, and what came begins with what had come of that
    /// client's request. The call does nothing.
    pub fn always_responded(&self)
        ensures { AreResponses N.Connection.Connection (responses_of self.now)
            self.now.connections.items self.now.slots.items }
    {
        let _ = &self.responses;
    }

    /// Accepts connections, as long as there are some, slots for them, and room in the budget.
    pub fn accept<R: Clock + Eprint + AllocGlobal>(&mut self, context: &Context<'_, '_, R, N>)
        ensures { responses_of self.new ≡ responses_of self.old }
    {
        for _ in 0..MOST_ACCEPTED {
            let Some(index) = slot_index(self.slots.as_slice()) else {
                return;
            };
            if !self.accept_into(context, index) {
                return;
            }
        }
    }

    /// Accepts one connection, if there is one, a free slot for it, and room in the budget. Returns
    /// whether one came. Where no slot is free nobody is displaced: the newcomer waits.
    pub fn accept_next<R: Clock + Eprint + AllocGlobal>(
        &mut self,
        context: &Context<'_, '_, R, N>,
    ) -> bool
        ensures responses { responses_of self.new ≡ responses_of self.old }
        ensures full { NoneIsFree self.old.slots.items → result ≡ false }
        ensures same { NoneIsFree self.old.slots.items → self.new ≡ self.old }
    {
        match first_free(self.slots.as_slice()) {
            Some(index) => self.accept_into(context, index),
            None => false,
        }
    }

    /// Accepts one connection into a slot, in the place of the client there, if there is one, and
    /// room in the budget. Returns whether one came.
    fn accept_into<R: Clock + Eprint + AllocGlobal>(
        &mut self,
        context: &Context<'_, '_, R, N>,
        index: usize,
    ) -> bool
        ensures { responses_of self.new ≡ responses_of self.old }
    {
        if !self.has_room() {
            return false;
        }
        let Some(connection) = self.accept_one(context.network) else {
            return false;
        };
        self.admit(context, connection, index);
        true
    }

    /// Closes the port: nobody is accepted any more, and whoever is there is closed, answered or
    /// not.
    pub fn close(&mut self)
        ensures { responses_of self.new ≡ responses_of self.old }
    {
        self.listener = None;
        self.dismiss();
    }

    /// Closes whoever is there, answered or not. The port stays open.
    pub fn dismiss(&mut self)
        ensures { responses_of self.new ≡ responses_of self.old }
    {
        for index in 0..self.count() {
            drop(self.take(index));
        }
    }

    /// The next connection, if there is one.
    fn accept_one(&mut self, network: &N) -> Option<ClientConnection<N::Connection>>
        ensures responses { responses_of self.new ≡ responses_of self.old }
        ensures came { IfSome result (λ found. N.Connection.came found.connection ≡ []) }
        ensures sent { IfSome result (λ found. N.Connection.sent found.connection ≡ []) }
    {
        match &mut self.listener {
            Some(listener) => match network.accept(listener) {
                Ok((connection, address)) => Some(ClientConnection::new(connection, address)),
                Err(_) => None,
            },
            None => None,
        }
    }

    /// Puts a newcomer into a slot, in the place of the client there, and reads what has come of
    /// its request.
    #[tactic(auto, using(crate::proofs::Answered::may_new))]
    fn admit<R: Clock + Eprint + AllocGlobal>(
        &mut self,
        context: &Context<'_, '_, R, N>,
        connection: ClientConnection<N::Connection>,
        index: usize,
    )
        requires came { N.Connection.came connection.connection ≡ [] }
        requires sent { N.Connection.sent connection.connection ≡ [] }
        ensures { responses_of self.new ≡ responses_of self.old }
    {
        if let Some((older, client)) = self.take(index) {
            drop(older);
            context.log.write(&Visit::Unanswered {
                millis: context.time.saturating_sub(client.since()),
            });
            drop(client);
        }
        let client = Client::new(context.alloc(), context.time);
        self.put(index, connection, client);
        self.on_ready(context, index);
    }

    /// The token of the connection in a slot.
    fn token(&self, index: usize) -> usize {
        self.first.saturating_add(index)
    }

    /// Takes the client and its connection out of a slot.
    fn take(&mut self, index: usize) -> Option<(ClientConnection<N::Connection>, Client)>
        ensures responses { responses_of self.new ≡ responses_of self.old }
        ensures may { IfSome result (λ found.
            MayRespondOn N.Connection.Connection (responses_of self.old) found.0 found.1) }
    {
        take_out(&mut self.connections, &mut self.slots, index)
    }

    /// Puts a client and its connection into a slot.
    fn put(&mut self, index: usize, connection: ClientConnection<N::Connection>, client: Client)
        requires { MayRespondOn N.Connection.Connection (responses_of self.old) connection client }
        ensures { responses_of self.new ≡ responses_of self.old }
    {
        put_in(
            &mut self.connections,
            &mut self.slots,
            index,
            connection,
            client,
        );
    }

    /// What came for the client in a slot, or was taken by it.
    pub fn on_ready<R: AllocGlobal>(&mut self, context: &Context<'_, '_, R, N>, index: usize)
        ensures { responses_of self.new ≡ responses_of self.old }
    {
        let Some((mut connection, mut client)) = self.take(index) else {
            return;
        };
        let token = self.token(index);
        match proceed(
            context,
            &mut connection,
            &mut client,
            self.piece.as_mut_slice(),
            token,
        ) {
            ClientTurn::Here => self.put_back(context, connection, client, index),
            ClientTurn::Gone => {}
        }
    }

    /// Puts a client back into its slot. One that has taken its answer parts.
    fn put_back<R: AllocGlobal>(
        &mut self,
        context: &Context<'_, '_, R, N>,
        connection: ClientConnection<N::Connection>,
        client: Client,
        index: usize,
    )
        requires { MayRespondOn N.Connection.Connection (responses_of self.old) connection client }
        ensures { responses_of self.new ≡ responses_of self.old }
    {
        match client.phase() {
            ClientPhase::Taking => {
                if client.outgoing.is_taken() {
                    self.part(context, connection, client, index);
                } else {
                    self.keep(context, connection, client, index);
                }
            }
            ClientPhase::Asking | ClientPhase::Lingering => self.keep(
                context, connection, client, index,
            ),
        }
    }

    /// Puts a client back into its slot. Unless its request is to be answered, an event of it is
    /// waited for; where the system doesn't let it be registered, it is closed.
    #[tactic(auto, using(crate::proofs::Answered::may_same))]
    fn keep<R>(
        &mut self,
        context: &Context<'_, '_, R, N>,
        mut connection: ClientConnection<N::Connection>,
        client: Client,
        index: usize,
    )
        requires { MayRespondOn N.Connection.Connection (responses_of self.old) connection client }
        ensures { responses_of self.new ≡ responses_of self.old }
    {
        if waits(&client) || connection.watch(context.network, self.token(index)) {
            self.put(index, connection, client);
        }
    }

    /// Lets a client part that has taken its answer. A connection that is closed over unread bytes,
    /// or before more bytes come, is reset, which can cost the client the end of its answer (RFC
    /// 9112, section 9.6). A request that was fulfilled was read whole, and nothing more is due
    /// from its client: it is closed at once, after what came meanwhile is read. One that was
    /// rejected may still be on its way: the writing direction is ended, and what comes is dropped
    /// until the client closes or its time is over.
    #[tactic(auto, using(crate::proofs::Answered::may_same, crate::proofs::Answered::may_drop))]
    fn part<R: AllocGlobal>(
        &mut self,
        context: &Context<'_, '_, R, N>,
        mut connection: ClientConnection<N::Connection>,
        mut client: Client,
        index: usize,
    )
        requires may { MayRespondOn N.Connection.Connection
            (responses_of self.old) connection client }
        requires takes { client.phase ≡ ClientPhase.Taking }
        ensures { responses_of self.new ≡ responses_of self.old }
    {
        let is_rejection = client.incoming.len() != 0;
        if is_rejection {
            connection.connection.end_writing();
        }
        part(context, &mut client);
        if drop_rest(&mut connection.connection, self.piece.as_mut_slice()) == ClientTurn::Gone
            || !is_rejection
        {
            drop(client);
            return;
        }
        self.keep(context, connection, client, index);
    }

    /// The next slot whose request is to be answered now, in turn; None if there is none, or the
    /// budget is used up.
    pub fn next(&mut self) -> Option<usize>
        ensures { responses_of self.new ≡ responses_of self.old }
    {
        if !self.has_room() {
            return None;
        }
        let index = self.waiting()?;
        self.next = index.saturating_add(1);
        Some(index)
    }

    /// Whether a request waits for its answer.
    pub fn waits(&self) -> bool {
        self.waiting().is_some()
    }

    /// Whether a request waits for its answer, and the budget allows one.
    pub fn is_busy(&self) -> bool {
        self.has_room() && self.waits()
    }

    /// The first slot from the next one on whose request is to be answered.
    fn waiting(&self) -> Option<usize> {
        let count = self.count();
        let next = self.next.min(count);
        match self.waiting_within(next, count) {
            Some(index) => Some(index),
            None => self.waiting_within(0, next),
        }
    }

    /// The first slot from one on, before another, whose request is to be answered.
    fn waiting_within(&self, first: usize, end: usize) -> Option<usize> {
        for index in first..end {
            if self.is_to_be_served(index) {
                return Some(index);
            }
        }
        None
    }

    /// Whether the request in a slot is to be read now.
    fn is_to_be_served(&self, index: usize) -> bool {
        match self.slots.get(index) {
            Some(Some(client)) => waits(client),
            _ => false,
        }
    }

    /// Whether the budget allows an answer.
    fn has_room(&self) -> bool {
        weight(self.slots.as_slice()) < BUDGET_BYTES
    }

    /// Lets a server answer the request in a slot, if it is whole, and writes what the client takes
    /// of the response. Returns whether a response was given.
    pub fn serve<R: Clock + Eprint + AllocGlobal, S: Server>(
        &mut self,
        context: &Context<'_, '_, R, N>,
        server: &mut S,
        index: usize,
    ) -> bool
        ensures { AnswersOne S.Server
            server.old (responses_of self.old) result server.new (responses_of self.new) }
    {
        let is_answered = self.answer(context, server, index);
        self.on_ready(context, index);
        is_answered
    }
}

impl<N: Network> Visitors<N> {
    /// Lets a server answer the request in a slot, if it is whole; the next
    /// [`on_ready`](Visitors::on_ready) of the client writes what it takes of the response. Returns
    /// whether a response was given.
    #[tactic(auto, using(crate::proofs::Answered::may_ask))]
    pub fn answer<R: Clock + Eprint + AllocGlobal, S: Server>(
        &mut self,
        context: &Context<'_, '_, R, N>,
        server: &mut S,
        index: usize,
    ) -> bool
        ensures { AnswersOne S.Server
            server.old (responses_of self.old) result server.new (responses_of self.new) }
    {
        let Some((connection, mut client)) = self.take(index) else {
            return false;
        };
        if !client.is_asking() {
            self.put(index, connection, client);
            return false;
        }
        let begun = micros(context.rt);
        match respond(context.alloc(), server, &mut client) {
            ServerReply::Lacks(count) => {
                client.incoming.lack(count);
                self.put(index, connection, client);
                false
            }
            ServerReply::Nothing => false,
            ServerReply::Sent { status, bytes } => {
                self.responses = self.responses.and(&client, &0);
                self.note(
                    context,
                    &client,
                    Sent {
                        address: connection.address(),
                        status,
                        bytes,
                        begun,
                    },
                );
                settle(context, &mut client, status);
                self.put(index, connection, client);
                true
            }
        }
    }

    /// Counts the request of a client that was answered, and writes its line.
    fn note<R: Clock + Eprint>(
        &mut self,
        context: &Context<'_, '_, R, N>,
        client: &Client,
        sent: Sent,
    )
        ensures { responses_of self.new ≡ responses_of self.old }
    {
        let Sent {
            address,
            status,
            bytes,
            begun,
        } = sent;
        let line = request_line(client.incoming.bytes());
        let duration = micros(context.rt).saturating_sub(begun);
        self.counts.add(line.path, status, duration);
        if context.log.is_on() {
            context.log.write(&Visit::Answered {
                address,
                said: said_to(line.method, client.outgoing.bytes()),
                method: line.method,
                path: line.path,
                status,
                bytes,
                millis: context.time.saturating_sub(client.since()),
            });
        }
    }

    /// Ends the phases whose time is over: a request counts as ended, and any other client is
    /// closed.
    pub fn tick(&mut self, time: u64)
        ensures { responses_of self.new ≡ responses_of self.old }
    {
        for index in 0..self.count() {
            self.end_phase(index, time);
        }
    }

    /// Ends the phase of the client in a slot if its time is over.
    #[tactic(auto, using(crate::proofs::Answered::may_ask))]
    fn end_phase(&mut self, index: usize, time: u64)
        ensures { responses_of self.new ≡ responses_of self.old }
    {
        if self.has_time(index, time) {
            return;
        }
        if let Some((connection, mut client)) = self.take(index) {
            if client.is_asking() {
                client.incoming.close();
                self.put(index, connection, client);
            }
        }
    }

    /// Whether the client in a slot has time left, or there is none.
    fn has_time(&self, index: usize, time: u64) -> bool {
        match self.slots.get(index) {
            Some(Some(client)) => !client.is_over(time),
            _ => true,
        }
    }
}

/// A response that was written, and when it was begun, in microseconds.
#[derive(Clone, Copy)]
struct Sent {
    address: SocketAddr,
    status: u16,
    bytes: u64,
    begun: u64,
}

/// Whether the request of a client waits for its answer.
fn waits(client: &Client) -> bool {
    client.is_asking() && client.incoming.may_be_whole()
}

/// Lets the connection of a client go on in its phase.
#[tactic(auto, using(crate::proofs::Answered::may_receive, crate::proofs::Answered::may_give, crate::proofs::Answered::may_drop))]
fn proceed<R, N: Network>(
    context: &Context<'_, '_, R, N>,
    connection: &mut ClientConnection<N::Connection>,
    client: &mut Client,
    piece: &mut [u8],
    token: usize,
) -> ClientTurn
    ensures { IfHere result ((responses : List (ClientValue × ℕ))
        → MayRespondOn N.Connection.Connection responses connection.old client.old
        → MayRespondOn N.Connection.Connection responses connection.new client.new) }
{
    match client.phase() {
        ClientPhase::Asking => {
            if client.incoming.may_be_whole() {
                ClientTurn::Here
            } else {
                receive(context.network, connection, client, piece, token)
            }
        }
        ClientPhase::Taking => give(&mut connection.connection, client),
        ClientPhase::Lingering => drop_rest(&mut connection.connection, piece),
    }
}

/// Lets a server answer a client.
fn respond<S: Server>(alloc: Global, server: &mut S, client: &mut Client) -> ServerReply
    ensures { IsResponding S.Server server.old client.old result server.new client.new }
{
    let mut outgoing = Outgoing::new(alloc);
    let reply = server.answer(alloc, &client.incoming, &mut outgoing);
    // a server can have advanced it, and nothing was sent
    outgoing.restart();
    client.outgoing = outgoing;
    reply
}

/// A client that was answered is to take the response. What it asked for is kept only where the
/// response is a rejection, after which it may still send.
fn settle<R: AllocGlobal, N>(context: &Context<'_, '_, R, N>, client: &mut Client, status: u16)
    ensures phase { client.new.phase ≡ ClientPhase.Taking }
    ensures outgoing { client.new.outgoing ≡ client.old.outgoing }
{
    if status < LEAST_REJECTION {
        client.incoming.clear(context.alloc());
    }
    client.begin(ClientPhase::Taking, context.time);
}

/// A client that has taken its response parts.
fn part<R: AllocGlobal, N>(context: &Context<'_, '_, R, N>, client: &mut Client)
    ensures phase { client.new.phase ≡ ClientPhase.Lingering }
    ensures outgoing { client.new.outgoing ≡ client.old.outgoing }
{
    client.incoming.clear(context.alloc());
    client.begin(ClientPhase::Lingering, context.time);
}
