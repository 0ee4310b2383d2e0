//! A script of `wf_script` is played on a farm of nodes in memory.
//!
//! A [`Session`] is the farm on which a script is played, order by order. [`run_script`] reads and
//! plays a script over any reader and writer.
//!
//! Messages come to their nodes by a carrier of `wf_farm`, or are copied to them
//! (`wf_farm::Copies`).
//!
//! Contracts see a session as its script and its farm.
//!
//! [`Session::perform`]:
//! - The order changes the farm as the model says, whatever the carrier. A step, a stop, a restart
//!   or a crash within a step is one event; deliveries are one event each, in turn; a pump is the
//!   farm's pump; `skip`, questions and messages that are cut off leave the world as it is.
//! - Its output is the rejection of an event or the answer to a question (`Writes` of
//!   `specs/Report.antt`).
//! - Its errors are allocation failure, at exactly the order's line, and a message that the carrier
//!   doesn't bring. That comes only of an order that carries messages, and never of a faithful
//!   carrier. No other order uses the carrier.
//! - Whatever the order and the result, the farm has made some events of the model, no node's list
//!   lost a map, and the nodes agree. The theorems beneath agreement hold too: ballots belong to
//!   their nodes, promises are kept, and each Accept has a majority of promises for it.
//!
//! [`Session::differ`]: two running nodes never publish different maps under one sequence.
//! [`Session::equal`]: two nodes at one sequence, or asked for one map, answer a client equally.
//!
//! [`run_script`]:
//! - It returns a read error only where a read failed, and a write error exactly where a write
//!   failed.
//! - Where it returns an error of the script other than allocation failure, nothing is written, and
//!   the error is the input's own.
//! - Where an allocation fails at an order, the error names its line, and what the orders before it
//!   write is written, as where a message isn't carried; where a write fails, that is written, and
//!   a beginning of what one order more writes (`WritesBeginning` of `specs/PlayEnd.antt`).
//! - After Ok the whole input is a script, each of its orders was performed in turn on a new farm,
//!   and exactly their output was written (`PlaysInput` of `specs/ScriptRun.antt`).
#![tactic(auto)]

mod answer;
mod event;
mod fault;
mod message_orders;
mod request;
mod run;
mod session;
mod theorem;

pub use fault::PlayFault;
pub use run::run_script;
pub use session::Session;
