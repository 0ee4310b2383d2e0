//! Calls and their answers as text: what the programs of test cases about a farm share.
//!
//! A script names maps and then makes calls, one a line (`script`). A call's arguments are read
//! word by word (`words`, `message`). Answers are appended as lines: single values, maps, messages,
//! records, tapes, and the state of a proposal. `member` is a node of a farm.
//!
//! Its functions are proved to be safe and to return, and nothing more: no contract says how a
//! value is written in a table of cases.
#![tactic(auto)]

mod hexadecimal;
mod lines;
mod member;
mod message;
mod script;
mod words;
mod words_of_map;
mod words_of_message;
mod words_of_proposal_state;
mod words_of_record;
mod words_of_tape;

pub use hexadecimal::push_hexadecimal;
pub use lines::{
    write_bytes, write_done, write_field, write_left, write_none, write_printed, write_read,
    write_rejected, write_whether,
};
pub use member::Member;
pub use message::Spoken;
pub use script::{CallMaps, CallScript, Definitions, canon_of, read_script};
pub use words::{read_ballot, read_node, read_sequence, read_slot};
pub use words_of_map::{write_at, write_map};
pub use words_of_message::write_message;
pub use words_of_proposal_state::write_proposal_state;
pub use words_of_record::{record_sent, write_head, write_step};
pub use words_of_tape::{bytes_on, tape_of, write_length};
