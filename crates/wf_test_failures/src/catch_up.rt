//! A node that missed maps catches up, whatever their number.
use crate::values::MAP_A;
use std::alloc::Global;
use wf_catch_up::catch_up;
use wf_farm::{Action, Event, Farm};
use wf_test_calls::canon_of;
use wf_test_table::{Answered, CaseInput, CaseWords, Transcript, Unanswered};

/// Appends the last published sequences of the three nodes, `-` for one that doesn't run.
fn write_published(farm: &Farm, answer: &mut Transcript) {
    for number in 0..3 {
        match farm.node(number) {
            Some(node) => answer.value(node.published().number()),
            None => answer.text("-"),
        }
        answer.text(" ");
    }
}

/// Node 0 proposes a map, and the messages are delivered. Whether that could be done.
fn publishes(alloc: Global, farm: &mut Farm) -> Result<bool, Unanswered> {
    let events = [Event::Act(0, Action::Propose(canon_of(alloc, MAP_A)?))];
    let proposed = farm.run(alloc, &events).is_ok();
    drop(events);
    Ok(proposed && farm.pump(alloc, &[]).is_ok())
}

/// So many maps are published while node 2 is stopped, which runs again then. Whether that could be
/// done.
fn misses(alloc: Global, farm: &mut Farm, count: u16) -> Result<bool, Unanswered> {
    let mut done = farm.run(alloc, &[Event::Stop(2)]).is_ok();
    for _ in 0..count {
        done = publishes(alloc, farm)? && done;
    }
    Ok(farm.run(alloc, &[Event::Restart(2)]).is_ok() && done)
}

/// Appends what the nodes have published once node 2 has missed so many maps, and what after they
/// caught up.
fn write_both(alloc: Global, farm: &mut Farm, count: u16, answer: &mut Transcript) -> Answered {
    let is_missed = misses(alloc, farm, count)?;
    write_published(farm, answer);
    let is_level = catch_up(alloc, farm).is_ok();
    answer.text("then ");
    write_published(farm, answer);
    answer.line(if is_missed && is_level {
        "done"
    } else {
        "failed"
    });
    Ok(())
}

/// `missed`: a node that missed maps has all of them afterwards.
pub(crate) fn missed(asked: CaseInput<'_>, answer: &mut Transcript) -> Answered {
    let count = CaseWords::of(asked.input)?.short()?;
    let Ok(mut farm) = Farm::new(asked.alloc, 3) else {
        return Err(Unanswered::Memory);
    };
    let written = write_both(asked.alloc, &mut farm, count, answer);
    drop(farm);
    written
}
