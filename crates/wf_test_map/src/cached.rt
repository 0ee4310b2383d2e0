//! Requests that are answered by a cache of pictures.
ghost use Rattle.wf_wms.specs.CachedPictures.{AllCached};

use crate::maps::{is_same, learn_next, letter_of, read_canon};
use std::alloc::Global;
use wf_learner::History;
use wf_test_table::{Answered, CaseInput, Transcript, Unanswered};
use wf_wms::{Answer as Given, Cache, answer as answer_query, answer_cached};

fn publish(alloc: Global, history: &mut History, mapfile: &[u8]) -> Answered {
    match read_canon(alloc, mapfile) {
        Ok(canon) => Ok(learn_next(history, canon)?),
        Err(unanswered) => Err(unanswered),
    }
}

// Publishes the maps one after the other; a percent sign separates two.
fn publish_all(alloc: Global, history: &mut History, mapfiles: &[u8]) -> Answered {
    for mapfile in mapfiles.split(|byte| *byte == b'%') {
        publish(alloc, history, mapfile)?;
    }
    Ok(())
}

// The first pixel of a tile's picture as a letter.
fn write_first(file: &[u8], answer: &mut Transcript) -> Answered {
    match file.strip_prefix(b"P6\n256 256\n255\n".as_slice()) {
        Some([r, g, b, ..]) => {
            answer.text(letter_of(&[*r, *g, *b]));
            Ok(())
        }
        _ => Err(Unanswered::BadWords),
    }
}

fn write_cached(cached: &Given, plain: &Given, answer: &mut Transcript) -> Answered {
    write_first(&cached.bytes, answer)?;
    answer.line(if is_same(cached, plain) {
        ", as without a cache"
    } else {
        ", another than without a cache"
    });
    Ok(())
}

// Appends an answer by the cache beside the one without it.
fn write_beside(
    alloc: Global,
    history: &History,
    query: &[u8],
    cached: &Given,
    answer: &mut Transcript,
) -> Answered {
    match answer_query(alloc, history.published().number(), history, query) {
        Ok(plain) => {
            let reported = write_cached(cached, &plain, answer);
            drop(plain);
            reported
        }
        Err(_) => Err(Unanswered::Memory),
    }
}

// Asks by the cache, and without it.
fn write(
    alloc: Global,
    cache: &mut Cache,
    history: &History,
    query: &[u8],
    answer: &mut Transcript,
) -> Answered
    requires { AllCached history.now.definitions cache.old }
    ensures { AllCached history.now.definitions cache.new }
{
    match answer_cached(alloc, cache, history.published().number(), history, query) {
        Ok(cached) => {
            let reported = write_beside(alloc, history, query, &cached, answer);
            drop(cached);
            reported
        }
        Err(_) => Err(Unanswered::Memory),
    }
}

fn write_all(
    alloc: Global,
    cache: &mut Cache,
    history: &History,
    queries: &str,
    answer: &mut Transcript,
) -> Answered
    requires { AllCached history.now.definitions cache.old }
{
    for query in queries.split(' ') {
        write(alloc, cache, history, query.as_bytes(), answer)?;
    }
    Ok(())
}

fn ask_all(alloc: Global, history: &History, queries: &str, answer: &mut Transcript) -> Answered {
    match Cache::new(alloc, 1) {
        Ok(mut cache) => {
            let reported = write_all(alloc, &mut cache, history, queries, answer);
            drop(cache);
            reported
        }
        Err(_) => Err(Unanswered::Memory),
    }
}

fn ask_published(asked: CaseInput<'_>, history: &mut History, answer: &mut Transcript) -> Answered {
    publish_all(asked.alloc, history, asked.input)?;
    ask_all(asked.alloc, history, asked.words.rest(), answer)
}

/// `cached QUERY ..`: what is answered to the queries in turn by one cache of one picture, at the
/// last sequence of the maps of the input, which are published one after the other: of each the
/// first pixel as a letter, and whether it is what is answered without a cache.
pub(crate) fn cached(asked: CaseInput<'_>, answer: &mut Transcript) -> Answered {
    match History::new(asked.alloc) {
        Ok(mut history) => {
            let reported = ask_published(asked, &mut history, answer);
            drop(history);
            reported
        }
        Err(_) => Err(Unanswered::Memory),
    }
}
