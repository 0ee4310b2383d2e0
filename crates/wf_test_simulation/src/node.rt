//! A node of a simulated farm while it runs, as `wfarm node` starts and steps it.

use crate::member::{Running, Told};
use std::cell::RefCell;
use wf_loop::Log;
use wf_node_command::{RunningNode, run};
use wf_simulation::{SimulatedNetwork, World};
use wf_store::{MemoryFolder, MemoryStore};
use wf_test_scene::{Host, Ledger, Machine, Names, Process, SlowStore, init_line};

/// A node that runs.
#[derive(Drop)]
pub(crate) struct NodeOnHost<'a> {
    process: RunningNode<SlowStore<'a>, SimulatedNetwork<'a>>,
}

impl<'a> Running<'a> for NodeOnHost<'a> {
    fn launch<R: Eprint>(
        machine: &Machine<'_, R>,
        world: &'a RefCell<World>,
        names: &Names,
        host: &Host<'a>,
        clock: u64,
    ) -> Result<Self, u8> {
        let number = host.number as usize;
        let network = SimulatedNetwork::new(world, number);
        let line = names.node_line(number);
        match RunningNode::start(machine, network, host.store(world), &line, clock) {
            Ok(process) => Ok(NodeOnHost { process }),
            Err((why, store)) => {
                drop(store);
                Err(why.status())
            }
        }
    }

    fn take_turn<R: Eprint>(
        &mut self,
        machine: &Machine<'_, R>,
        ready: &[usize],
        clock: u64,
    ) -> bool {
        self.process
            .run_once(machine, &Log::new(machine, true), ready, clock);
        true
    }

    fn tell(&self, own: Process, noted: u16, clock: u64, ledger: &mut Ledger) -> Told {
        Told {
            published: ledger.note_list(own, self.process.process().node().history(), noted),
            messages: self.process.message_count(),
            patience: self.process.patience(clock),
            has_tape: true,
            is_over: self.process.is_over(),
        }
    }
}

/// Makes the folder of a node of so many, as an operator does: one that joins, if it replaces
/// another.
pub(crate) fn make_folder<R: Eprint>(
    machine: &Machine<'_, R>,
    folder: &MemoryFolder,
    number: u8,
    nodes: u8,
    replaces: bool,
) {
    let line = init_line(number, nodes, replaces);
    let (_, store) = run(machine, MemoryStore::new(folder), &line, 0);
    drop(store);
}
