//! Scripts that play a farm of nodes in memory: a line for each event, and for each question about
//! the farm.
//!
//! A [`Script`] is read whole before its first order is performed. A line feed ends a line, and a
//! carriage return before it is dropped. Empty lines and lines that begin with `#` are skipped, but
//! not within a map. Spaces separate words. The first line is `nodes N`. A number has 1 to 9
//! digits.
//!
//! ```text
//! map NAME, lines, endmap                names a map definition; NAME is 1 to 32 letters and
//!                                        digits
//! propose I NAME, retry I, catchup I     a step of node I
//! deliver I K ..                         message K to node I, for each K in turn
//! cut I K B                              message K is cut off on its way to node I after B bytes:
//!                                        no event
//! stop I, restart I                      node I stops, or comes back
//! torn I before E, torn I after E        node I crashes within E: propose NAME, retry, catchup or
//!                                        deliver K
//! pump, pump I ..                        messages that aren't pumped yet go to each node, or to
//!                                        those named
//! skip                                   all messages so far count as pumped
//! published, sent, proposal I, definition I S, same
//! get I QUERY                            what the map service of node I answers to a client: its
//!                                        kind and size
//! equal I J QUERY                        whether nodes I and J answer the same; QUERY is one word
//! ```
//!
//! A text is read in stages: `lines`, `words` of a line, the `verb` that is the first word, the
//! `order` that the other words make, and `draft`, which collects maps and orders. `wf_play` plays
//! what is read here.
//!
//! Contracts see a script as its number of nodes, its maps with their names and definitions, and
//! its orders with their lines.
//!
//! [`Script::read`] returns exactly the script that the text is, or exactly the error for which it
//! is none, with its line, unless allocation fails (`script_of` of `specs/Text.antt`). An
//! allocation failure is reported at a line of the text, and never hides that a text is over a
//! limit. [`a_beginning_is_examined_alike`]: the first bytes of a long input, one more than a
//! script may have, are judged as the whole input is.
#![tactic(auto)]

mod draft;
mod fault;
mod limit;
mod lines;
mod maps;
mod order;
mod script;
mod theorem;
mod verb;
mod words;

pub use fault::ScriptFault;
pub use limit::{MOST_LINES, MOST_SCRIPT_BYTES};
pub use maps::MOST_MAPS;
pub use order::{FarmQuestion, Numbered, Order};
pub use script::Script;
pub use theorem::a_beginning_is_examined_alike;
