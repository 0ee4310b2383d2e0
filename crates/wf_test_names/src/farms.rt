//! Names of a farm.

use wf_farm::{
    Action, Carrier, CarrierFault, Event, Farm, FarmFault, Fused, Kept, Pumped, agreement,
    deliver_all, kept_promises, own_ballots, promised_majority, run_fused,
};
use wf_tape::MemoryTape;

/// The calls.
pub fn calls() {
    let _ = Farm::<MemoryTape>::new;
    let _ = Farm::<MemoryTape>::run;
    let _ = Farm::<MemoryTape>::refused;
    let _ = Farm::<MemoryTape>::node;
    let _ = Farm::<MemoryTape>::sent;
    let _ = Farm::<MemoryTape>::sent_count;
    let _ = Farm::<MemoryTape>::pump;
    let _ = Farm::<MemoryTape>::skip;
    let _ = Farm::<MemoryTape>::answer;
    let _ = deliver_all::<MemoryTape>;
    let _ = run_fused;
}

/// The theorems.
pub fn laws() {
    let _ = own_ballots;
    let _ = kept_promises;
    let _ = promised_majority;
    let _ = agreement;
}

/// The calls of a carrier, and those that take one.
pub fn carrier_calls<C: Carrier>() {
    let _ = C::carry;
    let _ = C::cut;
    let _ = Farm::<MemoryTape>::deliver_by::<C>;
    let _ = Farm::<MemoryTape>::pump_by::<C>;
}

/// The events.
pub fn event(event: &Event) -> u8 {
    match event {
        Event::Act(_node, Action::Propose(_canon)) => 1,
        Event::Act(_node, Action::Retry) => 2,
        Event::Act(_node, Action::CatchUp) => 3,
        Event::Act(_node, Action::Deliver(_message)) => 4,
        Event::Stop(_node) => 5,
        Event::Restart(_node) => 6,
        Event::Torn(_node, _action, Kept::Before) => 7,
        Event::Torn(_node, _action, Kept::After) => 8,
    }
}

/// The errors of a farm.
pub fn farm_fault(fault: FarmFault) -> u8 {
    match fault {
        FarmFault::Memory(_done) => 1,
        FarmFault::NoNode => 2,
        FarmFault::Carried(_done) => 3,
    }
}

/// The errors of a carrier.
pub fn carrier_fault(fault: CarrierFault) -> u8 {
    match fault {
        CarrierFault::Memory => 1,
        CarrierFault::Lost => 2,
    }
}

/// What deliveries came to.
pub fn pumped(pumped: &Pumped) -> (usize, bool) {
    (pumped.deliveries, pumped.stopped)
}

/// What a run leaves in which a tape failed.
pub fn fused(fused: &Fused) -> (&Farm<MemoryTape>, Option<(usize, Kept)>) {
    (&fused.farm, fused.torn)
}
