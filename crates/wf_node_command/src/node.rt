//! `wfarm node`.
ghost use Rattle.wf_line.specs.NodeLine.{IsNodeInRange};
ghost use Rattle.wf_node_command.specs.Done.{IsNodeDone};

use crate::serve::serve;
use std::fs::File;
use std::net::Net;
use std::rt::Files;
use std::time::Clock;
use wf_line::NodeLine;
use wf_node_folder::{CommandFault, start_node};
use wf_store::Store;

/// Serves a node for this many turns. The folder is handed back.
#[tactic(auto, using(crate::proofs::Served::served_by, crate::proofs::Served::fresh_by))]
pub(crate) fn node<R: Files<File = File> + Clock + Eprint + Net + AllocGlobal, S: Store>(
    rt: &R,
    store: S,
    line: &NodeLine<'_>,
    turns: u64,
) -> (Result<(), CommandFault>, S)
    requires { IsNodeInRange line.now }
    ensures { IsNodeDone S.Tape.Tape line.now (S.calls store) (S.calls result.1) result.0 }
{
    let mut store = store;
    match start_node(rt, &mut store, line) {
        Ok(ready) => serve(rt, store, line, ready, turns),
        Err(fault) => (Err(fault), store),
    }
}
