//! The questions.
use crate::serve::ThreeNodes;
use crate::{catch_up, connections, disk, farm, limits, many, records, tape};
use std::fs::File;
use std::net::{Net, TcpListener, TcpStream};
use std::rt::Files;
use std::time::Clock;
use wf_test_table::{Answered, CaseInput, Transcript, Unanswered};

/// Asks a question about this machine's files, connections and clocks. Clients send their requests
/// before a server accepts, on one thread.
///
/// ```text
/// added             KEPT BACK   whether a tape has the records that were added to it, and at most
///                               one more, whichever call of its disk fails; KEPT bytes of what
///                               that was given are kept, then the power is cut, after which a file
///                               is the one that it was BACK replacements before
/// failed_sync                   how many of three records are added where a sync fails, and how
///                               many to the tape that is opened after it
/// opened_after_cut              whether a node opens after a cut, whichever call failed
/// file_tape ROUND.. a file      how many records the file has before a record of each round is
///                               added, and its bytes then. It isn't there where the input is empty
/// file_beside       a file      the same of one record, where a longer file is in the way of the
///                               second file that a replacement writes
/// folder_beside     a file      the same where a folder is in its way
/// no_folder                     how a tape opens in a folder that isn't there
/// copied                        whether a copy of each kind of record is made
/// listed            COUNT       whether the listing of a tape of so many records has each of them
/// published_first               how many deliveries a first map takes, from one of three new nodes
/// delivered         COUNT       how many deliveries are made of so many messages
/// missed            COUNT       what three nodes have published of which one missed so many maps,
///                               before it catches up and after
/// crossed           a map       the bytes of its Chosen that cross a connection; what comes out
/// unopened                      what becomes of a message where no connection opens
/// broken                        what becomes of three, where the first connection takes nothing
/// cut_off                       what becomes of three, before the last of which one is cut off
/// two_clients WORD.. a request  how often the clock is read, and the responses: to a client that
///                               sends the input, and to one that asks the next node for its
///                               status. The WORDs are what the clock does when it is read: `now`,
///                               how many seconds it is ahead, or how it fails
/// starts WORD..                 the responses to the clients of three nodes that start as often on
///                               a folder; a WORD is what the first client asks, `publish` or
///                               `status`; the others ask for the status
/// shortened         a tape      the responses of three nodes that start on such tapes, and the
///                               tapes then
/// taken                         whether three nodes start where the port or the folder is taken
/// foreign                       whether they start on a folder that isn't theirs
/// forty NODES                   what forty connections to so many nodes are answered, and one more
/// tiles PICTURES                how many pictures a cache for so many draws for sixteen tiles of
///                               two pictures in turn, and how many tiles it cuts out of them
/// ```
pub fn ask<
    R: Files<File = File>
        + Net<Listener = TcpListener, Stream = TcpStream>
        + Clock
        + Eprint
        + AllocGlobal,
>(rt: &R, question: &str, asked: CaseInput<'_>, answer: &mut Transcript) -> Answered {
    match question {
        "added" => disk::added(asked, answer),
        "failed_sync" => disk::failed_sync(asked, answer),
        "opened_after_cut" => disk::opened_after_cut(asked, answer),
        "copied" => records::copied(asked, answer),
        "listed" => records::listed(asked, answer),
        "published_first" => farm::published_first(asked, answer),
        "delivered" => farm::delivered(asked, answer),
        "missed" => catch_up::missed(asked, answer),
        _ => ask_machine(rt, question, asked, answer),
    }
}

/// Asks a question about files or connections.
fn ask_machine<
    R: Files<File = File>
        + Net<Listener = TcpListener, Stream = TcpStream>
        + Clock
        + Eprint
        + AllocGlobal,
>(rt: &R, question: &str, asked: CaseInput<'_>, answer: &mut Transcript) -> Answered {
    match question {
        "file_tape" => tape::file_tape(rt, asked, answer),
        "file_beside" => tape::file_beside(rt, asked, answer),
        "folder_beside" => tape::folder_beside(rt, asked, answer),
        "no_folder" => tape::no_folder(rt, asked, answer),
        "crossed" => connections::crossed(rt, asked, answer),
        "unopened" => connections::unopened(asked, answer),
        "broken" => connections::broken(rt, asked, answer),
        "cut_off" => connections::cut_off(rt, asked, answer),
        "two_clients" => limits::two_clients(rt, asked, answer),
        "starts" => ThreeNodes { rt }.starts(asked, answer),
        "shortened" => ThreeNodes { rt }.shortened(asked, answer),
        "taken" => ThreeNodes { rt }.taken(asked, answer),
        "foreign" => ThreeNodes { rt }.foreign(asked, answer),
        "forty" => many::forty(rt, asked, answer),
        "tiles" => many::tiles(rt, asked, answer),
        _ => Err(Unanswered::UnknownQuestion),
    }
}
