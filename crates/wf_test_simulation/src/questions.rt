//! The questions of the table.

use crate::play::run_play;
use std::alloc::{AllocError, Global};
use wf_test_scene::{NO_BYTES, Plan, Tally, digest_of};
use wf_test_table::{Answered, CaseInput, CaseWords, Transcript, Unanswered};

/// Appends what happened in the play of a seed, which is the case's input: its log, if it is to be
/// printed, goes to the standard error of a runtime.
pub fn ask_play<R: Eprint>(rt: &R, asked: CaseInput<'_>, answer: &mut Transcript) -> Answered {
    let mut asked = asked;
    let plan = Plan::parse(&mut asked.words)?;
    play_one(rt, asked.alloc, plan.of_seed(seed_of(asked.input)?), answer)?;
    Ok(())
}

/// Appends what happened in many plays, of the seeds from the case's input on, added up.
pub fn ask_plays<R: Eprint>(rt: &R, asked: CaseInput<'_>, answer: &mut Transcript) -> Answered {
    let mut asked = asked;
    let count = u64::from(asked.words.number()?);
    let words = asked.words.rest();
    let plan = Plan::parse(&mut asked.words)?;
    play_many(
        rt,
        asked.alloc,
        &plan,
        words,
        seed_of(asked.input)?,
        count,
        answer,
    )?;
    Ok(())
}

/// The seed that the input of a case is.
fn seed_of(input: &[u8]) -> Result<u64, Unanswered> {
    Ok(u64::from(CaseWords::of(input)?.number()?))
}

/// Plays a seed: a line for each violation, and then one with what happened.
fn play_one<R: Eprint>(
    rt: &R,
    alloc: Global,
    plan: Plan,
    answer: &mut Transcript,
) -> Result<(), AllocError> {
    let outcome = run_play(rt, alloc, plan, "", answer)?;
    outcome.tally.write(outcome.digest, answer);
    Ok(())
}

/// Plays so many seeds from the first one: a line for each violation, behind the words by which it
/// is played again, and then one with all that happened.
fn play_many<R: Eprint>(
    rt: &R,
    alloc: Global,
    plan: &Plan,
    words: &str,
    first: u64,
    count: u64,
    answer: &mut Transcript,
) -> Result<(), AllocError> {
    let mut sum = Tally::new();
    let mut digest = NO_BYTES;
    let mut failed = 0u64;
    for index in 0..count {
        let plan = plan.of_seed(first.saturating_add(index));
        let seed = plan.seed;
        let before = format!(in alloc; "ask play {words}, for {seed}: ")?;
        let played = run_play(rt, alloc, plan, before.as_str(), answer);
        drop(before);
        let outcome = played?;
        sum.add(&outcome.tally);
        digest = digest_of(digest, &outcome.digest.to_be_bytes());
        if outcome.violated != 0 {
            failed = failed.saturating_add(1);
        }
    }
    answer.text("plays ");
    answer.value(count);
    answer.text(", violate ");
    answer.value(failed);
    answer.text(", ");
    sum.write(digest, answer);
    Ok(())
}
