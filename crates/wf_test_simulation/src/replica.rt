//! A replica of a simulated farm while it runs, as `wfarm replica` starts and steps it.

use crate::member::{Running, Told};
use std::cell::RefCell;
use wf_loop::Log;
use wf_replica_command::{RunningReplica, Turn, start_replica};
use wf_simulation::{SimulatedNetwork, World};
use wf_test_scene::{Host, Ledger, Machine, Names, Process, SlowStore, SlowTape};

/// A replica that runs, and its folder as it has locked it.
#[derive(Drop)]
pub(crate) struct ReplicaOnFolder<'a> {
    process: RunningReplica<SlowTape<'a>, SimulatedNetwork<'a>>,
    store: SlowStore<'a>,
}

impl<'a> Running<'a> for ReplicaOnFolder<'a> {
    fn launch<R: Eprint>(
        machine: &Machine<'_, R>,
        world: &'a RefCell<World>,
        names: &Names,
        host: &Host<'a>,
        clock: u64,
    ) -> Result<Self, u8> {
        let number = host.number as usize;
        let network = SimulatedNetwork::new(world, number);
        let mut store = host.store(world);
        let line = names.replica_line(number);
        match start_replica(machine, network, &mut store, &line, clock) {
            Ok(process) => Ok(ReplicaOnFolder { process, store }),
            Err(why) => {
                drop(store);
                Err(why.status())
            }
        }
    }

    // Its sources are nodes of its farm, so it never has to end.
    fn take_turn<R: Eprint>(
        &mut self,
        machine: &Machine<'_, R>,
        ready: &[usize],
        clock: u64,
    ) -> bool {
        self.process
            .run_once(machine, &Log::new(machine, true), ready, clock)
            == Turn::On
    }

    fn tell(&self, own: Process, noted: u16, clock: u64, ledger: &mut Ledger) -> Told {
        Told {
            published: ledger.note_list(own, self.process.history(), noted),
            messages: 0,
            patience: self.process.patience(clock),
            has_tape: self.process.has_tape(),
            is_over: false,
        }
    }
}
