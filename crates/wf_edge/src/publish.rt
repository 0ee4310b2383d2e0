//! Publishing a map: it is parsed, made canonical, and proposed by the node.
ghost use Rattle.std.specs.Prelude.{◌≡◌, IfOk, IfErr, if◌then◌else◌};
ghost use Rattle.wf_mapfile.specs.Meaning.{Means};
ghost use Rattle.wf_block.specs.ReadContract.{is_memory};
ghost use Rattle.wf_edge.specs.Publish.{IsMapOf, IsWhyNoMap, IsProposed, IsPublished, ReportsFault, unwritten};
ghost use Rattle.wf_edge.specs.RequestEffect.{GivesPublish};

use crate::answer::{accept, write_fault};
use crate::error_report::error_of_result;
use crate::error_response::ErrorResponse;
use crate::page::Page;
use crate::publish_fault::PublishFault;
use std::alloc::Global;
use wf_codec::{Canon, CanonFault, Message};
use wf_def::MapDef;
use wf_mapfile::{MapFault, read};
use wf_node::{Input, Node, NodeFault};
use wf_tape::Tape;

// Why a body that can't be parsed isn't proposed.
fn unread(fault: MapFault) -> PublishFault
    ensures { result ≡ (if is_memory fault then PublishFault.Memory else PublishFault.Map fault) }
{
    match fault {
        MapFault::Memory => PublishFault::Memory,
        _ => PublishFault::Map(fault),
    }
}

// Why a map without a canonical text isn't proposed.
fn unwritten(fault: CanonFault) -> PublishFault
    ensures { result ≡ unwritten fault }
{
    match fault {
        CanonFault::TooBig => PublishFault::TooBig,
        CanonFault::NotCanonical | CanonFault::Memory => PublishFault::Memory,
    }
}

// The map in a body.
#[tactic(auto, using(crate::proofs::PublishTheorem::why_unread))]
fn map_in(alloc: Global, body: &[u8]) -> Result<MapDef, PublishFault>
    ensures ok { IfOk result (λ map. Means body.now map) }
    ensures err { IfErr result (IsWhyNoMap body.now) }
{
    match read(alloc, body) {
        Ok(map) => Ok(map),
        Err(fault) => Err(unread(fault)),
    }
}

// The map of a body, with its canonical text.
#[tactic(auto, using(crate::proofs::PublishTheorem::is_map, crate::proofs::PublishTheorem::why_unwritten))]
fn canon_of(alloc: Global, body: &[u8], map: MapDef) -> Result<Canon, PublishFault>
    requires { Means body.now map }
    ensures ok { IfOk result (IsMapOf body.now) }
    ensures err { IfErr result (IsWhyNoMap body.now) }
{
    match Canon::from_map(alloc, map) {
        Ok(canon) => Ok(canon),
        Err(fault) => Err(unwritten(fault)),
    }
}

// The map in a body, with its canonical text. A body that is a canonical text, as `wfarm canon`
// writes it, is scanned: that takes a fraction of the time.
#[tactic(auto, using(crate::proofs::PublishTheorem::is_scanned))]
fn canon_in(alloc: Global, body: &[u8]) -> Result<Canon, PublishFault>
    ensures ok { IfOk result (IsMapOf body.now) }
    ensures err { IfErr result (IsWhyNoMap body.now) }
{
    if let Some(canon) = Canon::scan_bytes(alloc, body) {
        return Ok(canon);
    }
    match map_in(alloc, body) {
        Ok(map) => canon_of(alloc, body, map),
        Err(fault) => Err(fault),
    }
}

// The node's step Propose.
fn propose<T: Tape>(
    alloc: Global,
    node: &mut Node<T>,
    canon: Canon,
) -> Result<Vec<Message>, NodeFault>
    ensures { IsProposed T.Tape node.old canon result node.new }
{
    node.step(alloc, Input::Propose(canon))
}

// Proposes a map. The step is the last to allocate.
#[tactic(auto, using(crate::proofs::PublishTheorem::accepted, crate::proofs::PublishTheorem::node_fails))]
fn publish_map<T: Tape>(
    alloc: Global,
    node: &mut Node<T>,
    body: &[u8],
    canon: Canon,
) -> Result<(Page, Vec<Message>), PublishFault>
    requires { IsMapOf body.now canon }
    ensures { IsPublished T.Tape body.now node.old result node.new }
{
    let page = accept(node.published());
    match propose(alloc, node, canon) {
        Ok(messages) => Ok((page, messages)),
        Err(fault) => {
            drop(page);
            Err(PublishFault::Node(fault))
        }
    }
}

/// Publishes the map in a body: performs the node's step Propose, and returns the page that reports
/// it and the messages of the step. No step is made if the body isn't a map, its canonical text is
/// too long, or an allocation fails before.
fn publish<T: Tape>(
    alloc: Global,
    node: &mut Node<T>,
    body: &[u8],
) -> Result<(Page, Vec<Message>), PublishFault>
    ensures { IsPublished T.Tape body.now node.old result node.new }
{
    match canon_in(alloc, body) {
        Ok(canon) => publish_map(alloc, node, body, canon),
        Err(fault) => Err(fault),
    }
}

/// The error response for a map that isn't proposed. Allocates nothing.
fn write_publish_fault(fault: PublishFault) -> Result<Page, ErrorResponse>
    ensures { ReportsFault fault result }
{
    match fault {
        PublishFault::Map(fault) => Ok(write_fault(fault)),
        PublishFault::TooBig => Err(ErrorResponse::TooBig),
        PublishFault::Memory => Err(ErrorResponse::Unavailable),
        PublishFault::Node(fault) => Err(error_of_result(fault)),
    }
}

/// A page or the error response in its place, and the messages that the node sends.
#[derive(Drop)]
pub(crate) struct PublishReply {
    pub(crate) answer: Result<Page, ErrorResponse>,
    pub(crate) messages: Vec<Message>,
}

/// The reply to a publish of the map in a body.
#[tactic(auto, using(crate::specs::RequestEffectTheorems::gives_published))]
pub(crate) fn reply_to_publish<T: Tape>(
    alloc: Global,
    node: &mut Node<T>,
    body: &[u8],
) -> PublishReply
    ensures { GivesPublish T.Tape body.now node.old result.answer result.messages node.new }
{
    match publish(alloc, node, body) {
        Ok((page, messages)) => PublishReply {
            answer: Ok(page),
            messages,
        },
        Err(fault) => PublishReply {
            answer: write_publish_fault(fault),
            messages: Vec::new(alloc),
        },
    }
}
