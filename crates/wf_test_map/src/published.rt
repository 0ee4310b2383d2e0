//! Requests that a node serves which has published a map.
ghost use Rattle.wf_wms.specs.CachedPictures.{AllCached};

use crate::exchange::Exchange;
use crate::maps::read_canon;
use crate::requests_in_turn::{serve_each, write};
use std::alloc::Global;
use wf_ballot::Slot;
use wf_canon::Canon;
use wf_codec::Message;
use wf_edge::serve_one_cached;
use wf_node::{Input, Node, NodeFault};
use wf_tape::{MemoryTape, Tape};
use wf_test_calls::Member;
use wf_test_table::{Answered, CaseInput, Transcript, Unanswered};
use wf_wms::Cache;

/// Appends, for each request, what becomes of it, what is written and what is sent; if wanted, of
/// one request that comes twice, by a cache of one picture. The node of the words is on an empty
/// tape, and publishes the map whose mapfile comes first in the input.
pub(crate) fn serve_published(
    mut asked: CaseInput<'_>,
    is_cached: bool,
    answer: &mut Transcript,
) -> Answered {
    match open(&mut asked) {
        Ok(mut node) => {
            let reported = publish_and_serve(asked, &mut node, is_cached, answer);
            drop(node);
            reported
        }
        Err(unanswered) => Err(unanswered),
    }
}

/// The node of the words, on an empty tape.
pub(crate) fn open(asked: &mut CaseInput<'_>) -> Result<Node<MemoryTape>, Unanswered> {
    let member = Member::parse(&mut asked.words)?;
    let tape = MemoryTape::new(Vec::new(asked.alloc));
    match Node::open(asked.alloc, tape, member.node(), member.nodes()) {
        Ok(node) => Ok(node),
        Err(refused) => {
            drop(refused);
            Err(Unanswered::Memory)
        }
    }
}

fn publish_and_serve(
    asked: CaseInput<'_>,
    node: &mut Node<MemoryTape>,
    is_cached: bool,
    answer: &mut Transcript,
) -> Answered {
    let way = Exchange::read(asked.words)?;
    let Some((mapfile, requests)) = asked.text()?.split_once('\0') else {
        return Err(Unanswered::BadWords);
    };
    publish(asked.alloc, node, mapfile)?;
    let input = requests.as_bytes();
    if is_cached {
        return serve_by_cache(CaseInput { input, ..asked }, node, way, answer);
    }
    serve_each(CaseInput { input, ..asked }, node, way, answer)
}

fn publish<T: Tape>(alloc: Global, node: &mut Node<T>, mapfile: &str) -> Answered {
    match read_canon(alloc, mapfile.as_bytes()) {
        Ok(canon) => learn(alloc, node, canon),
        Err(unanswered) => Err(unanswered),
    }
}

// The node hears that the definition is chosen for the first slot, and so publishes it.
fn learn<T: Tape>(alloc: Global, node: &mut Node<T>, canon: Canon) -> Answered {
    let Some(first) = Slot::new(1) else {
        drop(canon);
        return Err(Unanswered::BadWords);
    };
    match node.step(alloc, Input::Deliver(Message::Chosen(first, canon))) {
        Ok(messages) => {
            drop(messages);
            Ok(())
        }
        Err(NodeFault::Memory) => Err(Unanswered::Memory),
        Err(_) => Err(Unanswered::BadWords),
    }
}

fn serve_by_cache<T: Tape>(
    asked: CaseInput<'_>,
    node: &mut Node<T>,
    way: Exchange,
    answer: &mut Transcript,
) -> Answered {
    match Cache::new(asked.alloc, 1) {
        Ok(mut cache) => {
            let reported = serve_twice_by(asked, node, &mut cache, way, answer);
            drop(cache);
            reported
        }
        Err(_) => Err(Unanswered::Memory),
    }
}

// The request twice: what was kept for the first is there for the second.
fn serve_twice_by<T: Tape>(
    asked: CaseInput<'_>,
    node: &mut Node<T>,
    cache: &mut Cache,
    way: Exchange,
    answer: &mut Transcript,
) -> Answered
    requires { AllCached node.old.parts.history cache.old }
{
    write_serving_by(asked.alloc, node, cache, way, asked.input, answer)?;
    write_serving_by(asked.alloc, node, cache, way, asked.input, answer)
}

fn write_serving_by<T: Tape>(
    alloc: Global,
    node: &mut Node<T>,
    cache: &mut Cache,
    way: Exchange,
    request: &[u8],
    answer: &mut Transcript,
) -> Answered
    requires { AllCached node.old.parts.history cache.old }
    ensures { AllCached node.new.parts.history cache.new }
{
    let mut reader = way.reader(request)?;
    let mut writer = way.writer(alloc);
    let served = serve_one_cached(alloc, &mut reader, &mut writer, node, cache);
    write(&served, way, writer.inner(), answer);
    drop(served);
    drop(writer);
    drop(reader);
    Ok(())
}
