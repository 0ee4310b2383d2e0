//! Runs a parsed command line.
ghost use Rattle.wf_line.specs.NodeLine.{IsNodeCommandInRange};
ghost use Rattle.wf_node_command.specs.Done.{IsCommandDone};

use crate::node::node;
use std::fs::File;
use std::net::Net;
use std::rt::Files;
use std::time::Clock;
use wf_line::NodeCommand;
use wf_node_folder::{CommandFault, clear_folder, init_folder};
use wf_store::Store;

/// Runs a command on its folder, which is handed back: `init` makes the folder of a node, `node`
/// serves it for this many turns, or until a peer tells it that it has to end, and `clear` ends a
/// suspension; only `node` takes turns. A turn waits until a socket is ready, 0.1 seconds at most.
/// Err: the cause, whose text is the line for standard error. After an error of `init` the folder
/// may have a file without being a node's; it begins on no such folder.
pub fn run<R: Files<File = File> + Clock + Eprint + Net + AllocGlobal, S: Store>(
    rt: &R,
    store: S,
    command: &NodeCommand<'_>,
    turns: u64,
) -> (Result<(), CommandFault>, S)
    requires { IsNodeCommandInRange command.now }
    ensures { IsCommandDone S.Tape.Tape command.now (S.calls store) (S.calls result.1) result.0 }
{
    let mut store = store;
    match command {
        NodeCommand::Init(line) => {
            let made = init_folder(rt, &mut store, line);
            (made, store)
        }
        NodeCommand::Node(line) => node(rt, store, line, turns),
        NodeCommand::Clear(_) => {
            let cleared = clear_folder(rt.alloc(), &mut store);
            (cleared, store)
        }
    }
}
