//! What the processes of a farm violate in the end, one by one.

use crate::member::Member;
use wf_test_scene::{Client, Ledger, Plan, Process, Violation};

/// Whether a client is the operator of a process that runs in the end.
pub(crate) fn is_counted(plan: &Plan, client: &Client<'_>) -> bool {
    let runs = !plan.relapse.is_unstartable() || client.process().host() != 0;
    client.is_operator() && runs
}

/// How many connections of clients the process of an operator said that it has; all, if it said
/// nothing.
pub(crate) fn clients_of(client: &Client<'_>) -> u32 {
    match client.open() {
        Some((clients, _)) => clients,
        None => u32::MAX,
    }
}

/// Whether a process has its own folder at the end, so that it has to heal.
pub(crate) fn is_sound(plan: &Plan, process: Process) -> bool {
    !plan.relapse.is_refused() || process.host() != 0
}

/// What a node violates at the end, where so many sequences are published: a sound one has all of
/// them and is let in by each peer, any other doesn't start or is suspended.
pub(crate) fn violation_of<P>(
    plan: &Plan,
    ledger: &Ledger,
    member: &Member<'_, P>,
    most: usize,
) -> Option<Violation> {
    let number = member.number();
    let is_suspended = ledger.is_suspended(number);
    if !is_sound(plan, member.own()) {
        let is_refused = if plan.relapse.is_unstartable() {
            member.is_refused()
        } else {
            is_suspended
        };
        return if is_refused {
            None
        } else {
            Some(Violation::NotRefused(number))
        };
    }
    if is_suspended {
        return Some(Violation::Suspended(number));
    }
    if member.published() as usize != most {
        return Some(Violation::NotEqual(member.own(), member.published(), most));
    }
    None
}
