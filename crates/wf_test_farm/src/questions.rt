//! The questions.
use crate::{acceptor, history, message, node, number, open_cases, proposer, tape, tries};
use wf_test_table::{Answered, CaseInput, Transcript, Unanswered};

/// Asks a question about a farm's numbers, messages, acceptors, proposers, histories, tapes and
/// nodes: a subject, then the question about it.
///
/// ```text
/// majority                  2 of 4                  yes, no
/// node number               63                      the number, none
/// node bytes                63                      its bytes
/// node read                 bytes                   the node, none
/// node split                bytes                   the node and how many bytes follow it, none
/// ```
///
/// and so of `sequence` (not `split`), `slot`, `round` (`split` alone) and `ballot`, whose number
/// is a round and a node. Further:
///
/// ```text
/// slot of                   a sequence's number     the sequence of its slot, none
/// ballot next               a round and a node      the ballot of the next round, none
/// ballot compare            1 0 1 2                 whether the first is below the second, above
///                                                   it or equal
/// message decode            bytes                   how many bytes the message has, and it in
///                                                   words; or the error
/// message followed          bytes                   the same with one more byte after them, each
///                                                   of the 256 in turn
/// message beginnings        bytes                   how many of their proper beginnings are short
/// message copy              bytes                   the bytes of a copy of the message
/// message fed N             bytes                   what an inbox returns for each piece of N
///                                                   bytes; how many bytes it keeps
/// message cuts              bytes                   cut in two at how many places they give the
///                                                   same messages
/// message encode KIND ..    a definition's text     `message ` and the bytes of the message
/// message fault             the name of an error    the error as it is printed
/// acceptor NODE             a script                what the node's acceptor answers to each call
/// proposer NODE of NODES    a script                the same of a proposer, in a farm of NODES
///                                                   nodes; its proposal's state
/// history                   a script                the same of a node's history
/// tape open                 bytes                   the records in words, or the error; how many
///                                                   bytes are left
/// tape torn N               bytes                   how many beginnings from N bytes on open with
///                                                   N bytes left
/// tape published N          a definition's text     how many records and bytes a tape of N
///                                                   Published opens with
/// whole_node NODE of NODES  a script                what a whole node answers to each call, in a
///                                                   farm of NODES nodes
/// open NODE of NODES        bytes                   what the node has published that opens on a
///                                                   tape of these bytes, or the error; and how
///                                                   many bytes are on the tape then
/// ```
///
/// `wf_test_calls` has what a script is, `acceptor`, `proposer`, `history` and `node` the calls.
pub fn ask(question: &str, asked: CaseInput<'_>, answer: &mut Transcript) -> Answered {
    match question {
        "majority" => tries::majority(asked, answer),
        "node" => number::ask_node(asked, answer),
        "sequence" => number::ask_sequence(asked, answer),
        "slot" => number::ask_slot(asked, answer),
        "round" => tries::ask_round(asked, answer),
        "ballot" => tries::ask_ballot(asked, answer),
        "message" => message::ask(asked, answer),
        "acceptor" => acceptor::ask(asked, answer),
        "proposer" => proposer::ask(asked, answer),
        "history" => history::ask(asked, answer),
        "tape" => tape::ask(asked, answer),
        "whole_node" => node::ask(asked, answer),
        "open" => open_cases::ask(asked, answer),
        _ => Err(Unanswered::UnknownQuestion),
    }
}
