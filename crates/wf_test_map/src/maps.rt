//! Requests to a server that publishes one map.
ghost use Rattle.wf_wms.specs.CachedPictures.{AllCached};

use crate::requests::write_summary;
use std::alloc::{AllocError, Global};
use wf_canon::{Canon, CanonFault};
use wf_def::MapDef;
use wf_learner::History;
use wf_mapfile::MapFault;
use wf_test_table::{Answered, CaseInput, Transcript, Unanswered, unescape};
use wf_wms::{Answer as Given, Cache, answer as answer_query, answer_cached};

/// Map `sq`: in 0 0 4 4, in metres, a red square from 1 1 to 3 3.
const MAP_SQ: &str =
    "MAP EXTENT 0 0 4 4 PROJECTION \"init=epsg:3857\" END LAYER NAME sq TYPE POLYGON \
CLASS STYLE COLOR 255 0 0 END END FEATURE POINTS 1 1 3 1 3 3 1 3 END END END END";

fn canon_of(alloc: Global, map: MapDef) -> Result<Canon, Unanswered> {
    let canon = Canon::of(alloc, &map);
    drop(map);
    match canon {
        Ok(canon) => Ok(canon),
        Err(CanonFault::Memory) => Err(Unanswered::Memory),
        Err(_) => Err(Unanswered::BadWords),
    }
}

pub(crate) fn read_canon(alloc: Global, mapfile: &[u8]) -> Result<Canon, Unanswered> {
    match wf_mapfile::read(alloc, mapfile) {
        Ok(map) => canon_of(alloc, map),
        Err(MapFault::Memory) => Err(Unanswered::Memory),
        Err(_) => Err(Unanswered::BadWords),
    }
}

/// Publishes the definition under the next sequence, if there is one.
pub(crate) fn learn_next(history: &mut History, canon: Canon) -> Result<(), AllocError> {
    let Some(slot) = history.next_slot() else {
        drop(canon);
        return Ok(());
    };
    match history.learn(slot, canon) {
        Ok(_) => Ok(()),
        Err(error) => Err(error),
    }
}

pub(crate) fn is_same(a: &Given, b: &Given) -> bool {
    a.kind == b.kind && a.media == b.media && a.bytes == b.bytes
}

// Whether the cache gives the same answer.
fn is_cached(
    alloc: Global,
    cache: &mut Cache,
    history: &History,
    query: &[u8],
    plain: &Given,
) -> Result<bool, AllocError>
    requires { AllCached history.now.definitions cache.old }
    ensures { AllCached history.now.definitions cache.new }
{
    match answer_cached(alloc, cache, history.published().number(), history, query) {
        Ok(cached) => {
            let same = is_same(&cached, plain);
            drop(cached);
            Ok(same)
        }
        Err(error) => Err(error),
    }
}

// Whether a cache gives the same answer, where it is empty and once more.
fn is_cached_twice(
    alloc: Global,
    history: &History,
    query: &[u8],
    plain: &Given,
) -> Result<bool, AllocError> {
    match Cache::new(alloc, 1) {
        Ok(mut cache) => {
            let first = is_cached(alloc, &mut cache, history, query, plain);
            let again = is_cached(alloc, &mut cache, history, query, plain);
            drop(cache);
            Ok(first? && again?)
        }
        Err(error) => Err(error),
    }
}

// The answer to a query at the last sequence; none where a cache gives another.
fn ask_published(
    alloc: Global,
    history: &History,
    query: &[u8],
) -> Result<Option<Given>, AllocError> {
    match answer_query(alloc, history.published().number(), history, query) {
        Ok(plain) => match is_cached_twice(alloc, history, query, &plain) {
            Ok(true) => Ok(Some(plain)),
            Ok(false) => {
                drop(plain);
                Ok(None)
            }
            Err(error) => {
                drop(plain);
                Err(error)
            }
        },
        Err(error) => Err(error),
    }
}

fn ask_history(
    alloc: Global,
    history: &mut History,
    canon: Canon,
    query: &[u8],
) -> Result<Option<Given>, AllocError> {
    match learn_next(history, canon) {
        Ok(()) => ask_published(alloc, history, query),
        Err(error) => Err(error),
    }
}

// The answer to a query at update sequence 1, where the map is published.
fn ask_canon(alloc: Global, canon: Canon, query: &[u8]) -> Result<Option<Given>, AllocError> {
    match History::new(alloc) {
        Ok(mut history) => {
            let given = ask_history(alloc, &mut history, canon, query);
            drop(history);
            given
        }
        Err(error) => {
            drop(canon);
            Err(error)
        }
    }
}

fn ask_map(alloc: Global, mapfile: &[u8], query: &[u8]) -> Result<Given, Unanswered> {
    match read_canon(alloc, mapfile) {
        Ok(canon) => match ask_canon(alloc, canon, query) {
            Ok(Some(given)) => Ok(given),
            Ok(None) => Err(Unanswered::BadWords),
            Err(_) => Err(Unanswered::Memory),
        },
        Err(unanswered) => Err(unanswered),
    }
}

/// `get`: the kind, the media type and the length of the answer to a query at update sequence 1,
/// where map `sq` is published.
pub(crate) fn get(asked: CaseInput<'_>, answer: &mut Transcript) -> Answered {
    match ask_map(asked.alloc, MAP_SQ.as_bytes(), asked.input) {
        Ok(given) => write_summary(given, answer),
        Err(unanswered) => return Err(unanswered),
    }
    Ok(())
}

pub(crate) fn letter_of(pixel: &[u8]) -> &'static str {
    match pixel {
        [255, 255, 255] => "W",
        [255, 0, 0] => "R",
        [0, 0, 255] => "B",
        [0, 0, 0] => "K",
        _ => "?",
    }
}

// A row of pixels as letters, on a line of its own.
fn write_row(row: &[u8], answer: &mut Transcript) {
    for pixel in row.chunks(3) {
        answer.text(letter_of(pixel));
    }
    answer.line("");
}

// A picture of 4 by 4 pixels: its head, and its pixels as letters.
fn write_picture(bytes: &[u8], answer: &mut Transcript) -> Answered {
    let Some(pixels) = bytes.strip_prefix(b"P6\n4 4\n255\n".as_slice()) else {
        return Err(Unanswered::BadWords);
    };
    for row in pixels.chunks(12) {
        write_row(row, answer);
    }
    Ok(())
}

fn write_drawn(asked: CaseInput<'_>, query: &Transcript, answer: &mut Transcript) -> Answered {
    match ask_map(asked.alloc, asked.input, query.finished_text()?) {
        Ok(given) => {
            let reported = write_picture(&given.bytes, answer);
            drop(given);
            reported
        }
        Err(unanswered) => Err(unanswered),
    }
}

/// `drawn QUERY`: the pixels, as letters, of the picture of 4 by 4 pixels that the query gets at
/// update sequence 1, where the map of the input is published. QUERY is spelled with escapes.
pub(crate) fn drawn(asked: CaseInput<'_>, answer: &mut Transcript) -> Answered {
    let mut query = Transcript::new(asked.alloc);
    let reported = match unescape(asked.words.rest(), &mut query) {
        Ok(()) => write_drawn(asked, &query, answer),
        Err(unanswered) => Err(unanswered),
    };
    drop(query);
    reported
}
