//! Orders: what a line of a script does or asks.

ghost use Rattle.std.specs.Prelude.{◌≡◌, [], OnOk, map};
ghost use Rattle.wf_script.specs.Script.{name};
ghost use Rattle.wf_script.specs.Order.{view};
ghost use Rattle.wf_script.specs.Orders.{a_kept, a_map, a_step, cut_order, definition_order, deliver_order, equal_order, get_order, numbers, order_by, order_of, proposal_order, pump_order, restart_order, some_numbers, step_by, step_order, stop_order, torn_order};
ghost use Rattle.wf_script.specs.ReadContract.{Gives};

use crate::fault::Wrong;
use crate::maps::Maps;
use crate::verb::Verb;
use crate::words::{Words, number};
use std::alloc::Global;
use wf_model::{Action, Kept};

/// An order, and the number of its line.
#[derive(Drop)]
pub struct Numbered {
    pub line: usize,
    pub order: Order,
}

/// What a line does or asks. A node, a message and a sequence are their numbers, a map is its
/// number in the script.
#[derive(Drop)]
pub enum Order {
    /// A step of the node.
    Step(usize, Action<usize, usize>),
    /// The messages go to the node, one after the other.
    Deliver(usize, Vec<usize>),
    /// The message of the second number is cut off on its way to the node, after this many bytes:
    /// it doesn't arrive. No event.
    Cut(usize, usize, usize),
    /// The node stops.
    Stop(usize),
    /// The stopped node comes back.
    Restart(usize),
    /// The node crashes within a step: before its record is on the tape, or after.
    Torn(usize, Action<usize, usize>, Kept),
    /// The messages that aren't pumped yet go to these nodes; to each, where none is named.
    Pump(Vec<usize>),
    /// All messages so far count as pumped.
    Skip,
    /// A question about the farm, which doesn't change it.
    Ask(FarmQuestion),
    /// What does the node answer to this query of a client? It changes nothing either.
    Get(usize, Vec<u8>),
    /// Do the two nodes answer this query equally?
    Equal(usize, usize, Vec<u8>),
}

/// A question about a farm.
#[derive(Clone, Copy)]
pub enum FarmQuestion {
    /// What did each node publish last?
    Published,
    /// How many messages were sent?
    Sent,
    /// What is the state of the node's proposal?
    Proposal(usize),
    /// Which map did the node publish at the sequence?
    Definition(usize, usize),
    /// Do the nodes publish the same?
    Same,
}

/// The order that a verb and all the words after it make.
#[tactic(auto, unfolding(crate::specs::Orders::order_of))]
pub(crate) fn read_order(
    alloc: Global,
    maps: &Maps,
    verb: Verb,
    words: &mut Words<'_>,
) -> Result<Order, Wrong>
    ensures { Gives (λ o. view o) result (order_of (map name maps.now.named.items) verb words.old) }
{
    let order = order_by(alloc, maps, verb, words)?;
    match words.end() {
        Ok(()) => Ok(order),
        Err(wrong) => {
            drop(order);
            Err(wrong)
        }
    }
}

/// The order that a verb and the words after it make.
#[tactic(auto, unfolding(crate::specs::Orders::order_by))]
fn order_by(alloc: Global, maps: &Maps, verb: Verb, words: &mut Words<'_>) -> Result<Order, Wrong>
    ensures { Gives (λ o. (view o, words.new)) result
        (order_by (map name maps.now.named.items) verb words.old) }
{
    match verb {
        // A map is no order.
        Verb::Map => Err(Wrong::BadLine),
        Verb::Propose | Verb::Retry | Verb::CatchUp => step_order(maps, verb, words),
        Verb::Deliver => deliver(alloc, words),
        Verb::Cut => cut(words),
        Verb::Stop => stop(words),
        Verb::Restart => restart(words),
        Verb::Torn => read_torn(maps, words),
        Verb::Pump => pump(alloc, words),
        Verb::Skip => Ok(Order::Skip),
        Verb::Published => Ok(Order::Ask(FarmQuestion::Published)),
        Verb::Sent => Ok(Order::Ask(FarmQuestion::Sent)),
        Verb::Proposal => proposal(words),
        Verb::Definition => definition(words),
        Verb::Same => Ok(Order::Ask(FarmQuestion::Same)),
        Verb::Get => get(alloc, words),
        Verb::Equal => equal(alloc, words),
    }
}

/// A node and a step of it, as `propose I NAME`.
#[tactic(auto, unfolding(crate::specs::Orders::step_order))]
fn step_order(maps: &Maps, verb: Verb, words: &mut Words<'_>) -> Result<Order, Wrong>
    ensures { Gives (λ o. (view o, words.new)) result
        (step_order (map name maps.now.named.items) verb words.old) }
{
    let node = words.number()?;
    let step = step_by(maps, verb, words)?;
    Ok(Order::Step(node, step))
}

/// `stop I`.
#[tactic(auto, unfolding(crate::specs::Orders::stop_order))]
fn stop(words: &mut Words<'_>) -> Result<Order, Wrong>
    ensures { Gives (λ o. (view o, words.new)) result (stop_order words.old) }
{
    let node = words.number()?;
    Ok(Order::Stop(node))
}

/// `restart I`.
#[tactic(auto, unfolding(crate::specs::Orders::restart_order))]
fn restart(words: &mut Words<'_>) -> Result<Order, Wrong>
    ensures { Gives (λ o. (view o, words.new)) result (restart_order words.old) }
{
    let node = words.number()?;
    Ok(Order::Restart(node))
}

/// `deliver I K ..`, with one message at least.
#[tactic(auto, unfolding(crate::specs::Orders::deliver_order))]
fn deliver(alloc: Global, words: &mut Words<'_>) -> Result<Order, Wrong>
    ensures { Gives (λ o. (view o, words.new)) result (deliver_order words.old) }
{
    let node = words.number()?;
    let messages = some_numbers(alloc, words)?;
    Ok(Order::Deliver(node, messages))
}

/// `cut I K B`.
#[tactic(auto, unfolding(crate::specs::Orders::cut_order))]
fn cut(words: &mut Words<'_>) -> Result<Order, Wrong>
    ensures { Gives (λ o. (view o, words.new)) result (cut_order words.old) }
{
    let node = words.number()?;
    let message = words.number()?;
    let bytes = words.number()?;
    Ok(Order::Cut(node, message, bytes))
}

/// `pump`, or `pump I ..`.
#[tactic(auto, unfolding(crate::specs::Orders::pump_order))]
fn pump(alloc: Global, words: &mut Words<'_>) -> Result<Order, Wrong>
    ensures { Gives (λ o. (view o, words.new)) result (pump_order words.old) }
{
    let nodes = numbers(alloc, words)?;
    Ok(Order::Pump(nodes))
}

/// `read_torn I before E` or `read_torn I after E`.
#[tactic(auto, unfolding(crate::specs::Orders::torn_order))]
fn read_torn(maps: &Maps, words: &mut Words<'_>) -> Result<Order, Wrong>
    ensures { Gives (λ o. (view o, words.new)) result
        (torn_order (map name maps.now.named.items) words.old) }
{
    let node = words.number()?;
    let kept = read_torn_kept(words)?;
    let step = step_after(maps, words)?;
    Ok(Order::Torn(node, step, kept))
}

/// What the crash leaves: `before` or `after`.
#[tactic(auto, unfolding(crate::specs::Orders::a_kept))]
fn read_torn_kept(words: &mut Words<'_>) -> Result<Kept, Wrong>
    ensures { Gives (λ kept. (kept, words.new)) result (a_kept words.old) }
{
    match words.text()? {
        "before" => Ok(Kept::Before),
        "after" => Ok(Kept::After),
        _ => Err(Wrong::BadLine),
    }
}

/// A step of a node whose number has been read.
#[tactic(auto, unfolding(crate::specs::Orders::a_step))]
fn step_after(maps: &Maps, words: &mut Words<'_>) -> Result<Action<usize, usize>, Wrong>
    ensures { Gives (λ step. (step, words.new)) result
        (a_step (map name maps.now.named.items) words.old) }
{
    match Verb::of(words.text()?) {
        Some(verb) => step_by(maps, verb, words),
        None => Err(Wrong::BadLine),
    }
}

/// The step that a verb and the words after it make.
#[tactic(auto, unfolding(crate::specs::Orders::step_by))]
fn step_by(maps: &Maps, verb: Verb, words: &mut Words<'_>) -> Result<Action<usize, usize>, Wrong>
    ensures { Gives (λ step. (step, words.new)) result
        (step_by (map name maps.now.named.items) verb words.old) }
{
    match verb {
        Verb::Propose => {
            let map = map(maps, words)?;
            Ok(Action::Propose(map))
        }
        Verb::Retry => Ok(Action::Retry),
        Verb::CatchUp => Ok(Action::CatchUp),
        Verb::Deliver => {
            let message = words.number()?;
            Ok(Action::Deliver(message))
        }
        _ => Err(Wrong::BadLine),
    }
}

/// The number of the map that the next word names.
#[tactic(auto, unfolding(crate::specs::Orders::a_map))]
fn map(maps: &Maps, words: &mut Words<'_>) -> Result<usize, Wrong>
    ensures { Gives (λ n. (n, words.new)) result (a_map (map name maps.now.named.items) words.old) }
{
    let name = words.text()?;
    match maps.number_of(name) {
        Some(number) => Ok(number),
        None => Err(Wrong::BadLine),
    }
}

/// `proposal I`.
#[tactic(auto, unfolding(crate::specs::Orders::proposal_order))]
fn proposal(words: &mut Words<'_>) -> Result<Order, Wrong>
    ensures { Gives (λ o. (view o, words.new)) result (proposal_order words.old) }
{
    let node = words.number()?;
    Ok(Order::Ask(FarmQuestion::Proposal(node)))
}

/// `definition I S`.
#[tactic(auto, unfolding(crate::specs::Orders::definition_order))]
fn definition(words: &mut Words<'_>) -> Result<Order, Wrong>
    ensures { Gives (λ o. (view o, words.new)) result (definition_order words.old) }
{
    let node = words.number()?;
    let sequence = words.number()?;
    Ok(Order::Ask(FarmQuestion::Definition(node, sequence)))
}

/// `get I QUERY`.
#[tactic(auto, unfolding(crate::specs::Orders::get_order))]
fn get(alloc: Global, words: &mut Words<'_>) -> Result<Order, Wrong>
    ensures { Gives (λ o. (view o, words.new)) result (get_order words.old) }
{
    let node = words.number()?;
    let query = words.word()?;
    Ok(Order::Get(node, Vec::from_slice(alloc, query)?))
}

/// `equal I J QUERY`.
#[tactic(auto, unfolding(crate::specs::Orders::equal_order))]
fn equal(alloc: Global, words: &mut Words<'_>) -> Result<Order, Wrong>
    ensures { Gives (λ o. (view o, words.new)) result (equal_order words.old) }
{
    let node = words.number()?;
    let other = words.number()?;
    let query = words.word()?;
    Ok(Order::Equal(node, other, Vec::from_slice(alloc, query)?))
}

/// The numbers that the words left are, one at least.
#[tactic(auto, using(crate::proofs::NumberList::none_at_all, crate::proofs::NumberList::some_found, crate::proofs::NumberList::not_even_one))]
fn some_numbers(alloc: Global, words: &mut Words<'_>) -> Result<Vec<usize>, Wrong>
    ensures value { Gives (λ v. v.items) result (some_numbers words.old) }
    ensures end { OnOk result (words.new ≡ []) }
{
    let numbers = numbers(alloc, words)?;
    if numbers.is_empty() {
        return Err(Wrong::BadLine);
    }
    Ok(numbers)
}

/// The numbers that the words left are.
#[tactic(auto, using(crate::proofs::NumberList::none_so_far, crate::proofs::NumberList::no_words, crate::proofs::NumberList::one_number))]
fn numbers(alloc: Global, words: &mut Words<'_>) -> Result<Vec<usize>, Wrong>
    ensures value { Gives (λ v. v.items) result (numbers words.old) }
    ensures end { OnOk result (words.new ≡ []) }
{
    let mut numbers = Vec::new(alloc);
    while let Some(word) = words.next() {
        numbers.push(number(word)?)?;
    }
    Ok(numbers)
}
