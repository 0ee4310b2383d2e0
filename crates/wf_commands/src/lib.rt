//! The commands of the program `wfarm`. They answer a Web Map Service request about a mapfile,
//! write its canonical text, check it, play a script of a farm of servers, also with its messages
//! crossing a connection, list what a node's tape holds, and serve a farm's nodes over HTTP; and
//! they run the processes of a farm, nodes and replicas.
//!
//! The crate is thin. [`line`] of `wf_line` parses the command line's arguments to a [`Line`];
//! [`run_line`] runs the commands about standard input, over any reader and writer; [`run_tape`]
//! lists the tape in a file or the tapes in a folder, which a [`Tapes`] has, or writes a map on a
//! tape; [`run_serve`] runs `serve` by a [`NodeServer`], which serves nodes. [`Host`] is both: the
//! machine's files, and its nodes over HTTP. A [`wf_farm::Carrier`] brings the messages of `wire`
//! to their nodes: [`wf_link::Connection`], over a connection of the machine. [`run_words`] is the
//! program over any words, reader, writer, server and carrier, and [`run_process`] connects it to
//! the process. A [`RunFault`] is the error of a run, an [`Ending`] what is left to print, with the
//! exit status. Readers and writers are [`wf_stream::Source`] and [`wf_stream::Sink`], which count
//! failed calls; [`wf_stream::Stream`] makes them of std's.
//!
//! [`run_line`] promises, about a mapfile:
//! - after Ok, exactly the output of the command for the one map that the input means is written:
//!   of `caps` the answer at that sequence to that query, of `draw` the answer to that query of a
//!   server that has published only this map, of `canon` the canonical text
//! - an error of the map or of its canonical text is returned only for its cause
//! - before a write error a prefix of the output is written, before any other error nothing
//! - at most one byte more than the longest mapfile has is read
//! - `check` writes nothing where the input is a map that a farm publishes, else a report of its
//!   first error, which is then the error of the run and isn't printed again; it reads at most
//!   16,777,217 bytes
//!
//! About a script:
//! - if the input isn't a script, nothing is written
//! - if it is played to its end, the whole input is within the limits of scripts
//! - before an error a prefix of what its orders write is written
//! - at most 1,048,577 bytes are read
//! - `run` never loses a message on its way; `wire` does and writes what `run` does and writes,
//!   whatever the carrier, or returns that a message was lost
//!
//! Of these: a read error is returned only if a read has failed, a write error iff a write has; and
//! a failed write is the last call of the writer, so that no text is written once more.
//!
//! [`run_tape`] promises: after Ok exactly the listing of the file's bytes is written (wf_listing
//! defines it), or of a folder those of exactly the tapes in it, in order, each after its name, and
//! one last line of what a start on it would do, by the bytes that are listed; or the text of the
//! map that the tape has as published. Before a write error a prefix of it is written, before any
//! other error nothing. A file with known content is listed unless it is too long or an allocation
//! fails. A folder is a `Store` of `wf_store`, and the listing goes by its calls: which tapes are
//! there was seen, its file `farm` was read, and then each of just these tapes, whole; none of the
//! calls changes a file ([`run_folder`], `specs/Folder.antt`). No text is the listing of both a
//! file and a folder ([`listings_are_distinct`]).
//!
//! [`run_words`] promises that exactly the command of that line was run, or none: for `serve`, that
//! the server was called with the line's numbers of nodes, connections and pictures, its port and
//! its folder, or none if it has none, and whether it asks for a log. The error of the run is the
//! one to be printed, unless a write failed, and the exit status is 0 without an error and 1 with
//! one. What serving means is the server's; of [`Host`] it is `wf_serve`'s contract: if the nodes
//! were served, there were as many as the line asks for, new ones if it names no folder, each with
//! a cache for its number of pictures; they served its number of connections, and what the headline
//! says holds of them. [`run_process`] promises that of the process, and of a command about a
//! process of a farm, which [`wf_line::process_command`] parses, the contract of
//! [`wf_node_command::run`] or [`wf_replica_command::run`].
//!
//! No contract says what standard input holds, what happens to the bytes after standard output,
//! what text an error prints, or that the process hands its own words, input and output on; the
//! stored run of `wfarm` shows these.
#![tactic(auto)]

mod fault;
mod folder;
mod folder_start;
mod folder_state;
mod map_check;
mod program;
mod run;
mod server;
mod tapes;

pub use fault::RunFault;
pub use folder::{listings_are_distinct, run_folder};
pub use map_check::run_check;
pub use program::{Ending, rejection_status, run_process, run_serve, run_words};
pub use run::{
    limits_are_as_defined, run_canon, run_caps, run_draw, run_line, run_script, wire_script,
};
pub use server::{Host, NodeServer};
pub use tapes::{Tapes, run_tape};
pub use wf_line::{Line, line};
pub use wf_serve::ServeFault;
