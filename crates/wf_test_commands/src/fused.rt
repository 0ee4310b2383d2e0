//! Runs of a farm in which one call of a node's tape fails.

ghost use Rattle.std.specs.Prelude.{◌<◌};

use std::alloc::{AllocError, Global};
use wf_canon::Canon;
use wf_farm::{Action, Event, FarmFault, Fused, Kept, run_fused};
use wf_test_table::{Answered, CaseInput, Transcript, Unanswered};

/// The nodes of the farm.
const NODES: u8 = 3;

/// How many messages are delivered, each to each node: those of a publish in which nothing fails.
const MESSAGES: usize = 9;

/// `fused NODE CALL LAST`: what is left of a publish in which the node's tape fails at that call,
/// where an append keeps so many of the new bytes and the crash so many of those that aren't
/// synced: for each number from 0 to LAST in turn. Numbers that leave the same stand in one line;
/// the last line has the number of runs.
pub(crate) fn fused(mut asked: CaseInput<'_>, answer: &mut Transcript) -> Answered {
    let node = asked.words.count()?;
    let call = asked.words.count()?;
    let last = asked.words.count()?;
    if node >= 3 {
        return Err(Unanswered::BadWords);
    }
    let Ok(map) = Canon::from_bytes(asked.alloc, asked.input) else {
        return Err(Unanswered::BadWords);
    };
    let Ok(events) = publish(asked.alloc, map) else {
        return Err(Unanswered::Memory);
    };
    let reported_as = write_runs(asked.alloc, &events, node, call, last, answer);
    drop(events);
    reported_as
}

/// A proposal of node 0, and then each message to each node.
fn publish(alloc: Global, map: Canon) -> Result<Vec<Event>, AllocError> {
    let mut events = Vec::new(alloc);
    events.push(Event::Act(0, Action::Propose(map)))?;
    for number in 0..MESSAGES {
        for node in 0..NODES {
            events.push(Event::Act(node as usize, Action::Deliver(number)))?;
        }
    }
    Ok(events)
}

/// Appends what each run leaves, a line for those in turn that leave the same, and then how many
/// runs were made.
fn write_runs(
    alloc: Global,
    events: &[Event],
    node: usize,
    call: usize,
    last: usize,
    answer: &mut Transcript,
) -> Answered
    requires { node < 3 }
{
    let mut before = Transcript::new(alloc);
    let mut runs: usize = 0;
    let mut all: usize = 0;
    for length in 0..=last {
        let mut left = Transcript::new(alloc);
        match run_fused(alloc, NODES, events, node, call, length, length) {
            Ok(fused) => write_left(fused, &mut left),
            Err(fault) => write_fault(fault, &mut left),
        }
        if runs > 0 && !is_same(&before, &left) {
            write_line(runs, &before, answer);
            runs = 0;
        }
        runs = runs.saturating_add(1);
        all = all.saturating_add(1);
        drop(before);
        before = left;
    }
    write_line(runs, &before, answer);
    drop(before);
    answer.count(all);
    answer.line(" runs");
    Ok(())
}

/// Appends how many runs left this.
fn write_line(runs: usize, left: &Transcript, answer: &mut Transcript) {
    answer.count(runs);
    answer.text(": ");
    answer.append(left);
    answer.line("");
}

/// Whether two answers were written, and are the same.
fn is_same(first: &Transcript, second: &Transcript) -> bool {
    match (first.finished_text(), second.finished_text()) {
        (Ok(first), Ok(second)) => first == second,
        _ => false,
    }
}

fn write_fault(fault: FarmFault, answer: &mut Transcript) {
    answer.value(fault);
}

/// Appends what a run left: where it was torn and how, the published sequences and the number of
/// messages.
fn write_left(fused: Fused, answer: &mut Transcript) {
    let Fused { farm, torn } = fused;
    write_torn(torn, answer);
    answer.text(", published");
    for node in 0..3 {
        answer.text(" ");
        match farm.node(node) {
            Some(node) => answer.value(node.published().number()),
            None => answer.text("-"),
        }
    }
    answer.text(", sent ");
    answer.count(farm.sent_count());
    drop(farm);
}

fn write_torn(torn: Option<(usize, Kept)>, answer: &mut Transcript) {
    match torn {
        None => answer.text("not torn"),
        Some((event, kept)) => {
            answer.text("torn at event ");
            answer.count(event);
            answer.text(match kept {
                Kept::Before => ", before",
                Kept::After => ", after",
            });
        }
    }
}
