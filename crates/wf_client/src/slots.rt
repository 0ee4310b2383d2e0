//! The slots of clients, and which client gives way.
ghost use Rattle.std.specs.Prelude.{◌≡◌, ◌≤◌, ◌<◌, ◌^◌, ◌-◌, IfNone, IfSome, None, length, min};
ghost use Rattle.wf_client.specs.Client.{weight_at, weight_in};
ghost use Rattle.wf_client.specs.Slots.{IsBest, IsFirstFree, IsLongestWaiting, IsSlotIndex, NoneIsFree, NoneIsWaiting, waiting_since};

use crate::client::Client;

/// The first free slot.
pub fn first_free(slots: &[Option<Client>]) -> Option<usize>
    ensures some { IfSome result (IsFirstFree slots.now) }
    ensures none { IfNone result (NoneIsFree slots.now) }
{
    for (index, slot) in slots.iter().enumerate() {
        if slot.is_none() {
            return Some(index);
        }
    }
    None
}

/// A request that isn't whole: its slot, and when it began.
#[derive(Clone, Copy)]
struct PendingRequest {
    index: usize,
    since: u64,
}

/// When the request in a slot began, if it isn't whole.
#[tactic(auto, unfolding(crate::specs::Slots::waiting_since))]
fn waiting_since(slot: &Option<Client>) -> Option<u64>
    ensures { result ≡ waiting_since slot.now }
{
    match slot {
        Some(client) => {
            if client.is_asking() {
                Some(client.since())
            } else {
                None
            }
        }
        None => None,
    }
}

/// The one of both that began first; the first of them if they began at once.
fn earlier(found: Option<PendingRequest>, other: PendingRequest) -> PendingRequest
    ensures none { found ≡ None → result ≡ other }
    ensures some { IfSome found (λ one. one.since ≤ other.since → result ≡ one) }
    ensures later { IfSome found (λ one. other.since < one.since → result ≡ other) }
{
    match found {
        Some(one) => { if one.since <= other.since { one } else { other } }
        None => other,
    }
}

/// The request that has waited longest of those that aren't whole; the first of several.
#[tactic(auto, using(crate::proofs::Waits::more_without, crate::proofs::Waits::more_with))]
fn longest(slots: &[Option<Client>]) -> Option<PendingRequest>
    ensures { IsBest slots.now (length slots.now) result }
{
    let mut found: Option<PendingRequest> = None;
    for (index, slot) in slots.iter().enumerate() {
        if let Some(since) = waiting_since(slot) {
            found = Some(earlier(found, PendingRequest { index, since }));
        }
    }
    found
}

/// The slot of the request that has waited longest of those that aren't whole; the first of
/// several.
#[tactic(auto, using(crate::proofs::Waits::longest_of, crate::proofs::Waits::none_of))]
pub fn longest_waiting(slots: &[Option<Client>]) -> Option<usize>
    ensures some { IfSome result (IsLongestWaiting slots.now) }
    ensures none { IfNone result (NoneIsWaiting slots.now) }
{
    match longest(slots) {
        Some(waiting) => Some(waiting.index),
        None => None,
    }
}

/// The slot for a newcomer: the first free one, else that of the request that has waited longest of
/// those that aren't whole. None: each client is taking its answer, and the newcomer waits.
pub fn slot_index(slots: &[Option<Client>]) -> Option<usize>
    ensures { IsSlotIndex slots.now result }
{
    match first_free(slots) {
        Some(index) => Some(index),
        None => longest_waiting(slots),
    }
}

/// The bytes of the request and the answer in a slot.
fn weight_at(slot: &Option<Client>) -> usize
    ensures { result ≡ weight_at slot.now }
{
    match slot {
        Some(client) => client.weight(),
        None => 0,
    }
}

/// The bytes of all requests and answers; the greatest 64-bit number if there are more.
#[tactic(auto, using(crate::proofs::Weights::sum_more))]
pub fn weight(slots: &[Option<Client>]) -> usize
    ensures { result ≡ min (weight_in slots.now) (2 ^ 64 - 1) }
{
    let mut sum = 0usize;
    for slot in slots {
        sum = sum.saturating_add(weight_at(slot));
    }
    sum
}
