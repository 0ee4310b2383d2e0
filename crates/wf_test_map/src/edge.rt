//! What clients of a node's HTTP edge ask. The input is what a client sends.
//!
//! ```text
//! hear                       what was read of the request, or what became of it, and the bytes
//!                            that are written
//! hear by N                  the same, where a read gives at most N bytes
//! hear by N failing at K     the same, where the K-th read fails, as one whose connection is
//!                            reset; `interrupted`, `timed-out` or `out-of-memory` in place of
//!                            `failing`: it fails so. The reads after it go on
//! hear by N HOW each K       the same, where K reads fail before each one that doesn't, and how
//!                            many reads were tried
//! hear by N HOW always       the same, where each read fails
//! hear room N                the same, where the writer takes N bytes and then fails
//! hear writing N             the same, where a write takes at most N bytes, and how many writes
//!                            were tried
//! hear writing N HOW at K    the same, where the K-th write fails; HOW is one of the words above.
//!                            The writes after it go on. `each K` and `always` as above
//! serve NODE of NODES [WAY]  what a new node NODE, of NODES, answers to the request, and the
//!                            messages that it sends. Bytes of 0 separate several requests; each is
//!                            read and answered in the same way: `by N`, `by N failing at K` and so
//!                            on, `room N`, `writing N` and so on
//! refuse NODE of NODES [WAY] the same, where the node's tape fails
//! serve_alone NODE of NODES [WAY]        the same, where the node hears the first message that
//!                                        it sends, and the first of its answers in turn, before
//!                                        the next request comes
//! serve_published NODE of NODES [WAY]    the same of a node that has published a map: its mapfile
//!                                        and a byte of 0 come first
//! serve_cached NODE of NODES [WAY]       the same of one request that comes twice, by a
//!                                        cache of one picture
//! ```
use crate::alone;
use crate::broken::BrokenTape;
use crate::exchange::{Exchange, write_received};
use crate::published::serve_published;
use crate::requests_in_turn::serve;
use wf_tape::MemoryTape;
use wf_test_table::{Answered, CaseInput, Transcript};

/// `receive`: what is read of a request, or what became of it.
pub(crate) fn receive(asked: CaseInput<'_>, answer: &mut Transcript) -> Answered {
    write_received(asked, Exchange::read(asked.words)?, answer)
}

/// `serve`: what a new node answers.
pub(crate) fn serve_one(asked: CaseInput<'_>, answer: &mut Transcript) -> Answered {
    serve(asked, MemoryTape::new(Vec::new(asked.alloc)), answer)
}

/// `reject`: what a new node answers whose tape fails.
pub(crate) fn reject(asked: CaseInput<'_>, answer: &mut Transcript) -> Answered {
    serve(asked, BrokenTape::new(), answer)
}

/// `serve_alone`: what a new node answers that hears its own messages.
pub(crate) fn serve_alone(asked: CaseInput<'_>, answer: &mut Transcript) -> Answered {
    alone::serve_alone(asked, answer)
}

/// `serve_published`: what a node answers that has published a map.
pub(crate) fn serve_map(asked: CaseInput<'_>, answer: &mut Transcript) -> Answered {
    serve_published(asked, false, answer)
}

/// `serve_cached`: the same, by a cache of one picture.
pub(crate) fn serve_cached(asked: CaseInput<'_>, answer: &mut Transcript) -> Answered {
    serve_published(asked, true, answer)
}
