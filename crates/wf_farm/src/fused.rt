//! Runs of a farm in which one call of a node's tape fails.

ghost use Rattle.std.specs.Prelude.{◌≡◌, ◌<◌, ◌≤◌, length, map, IfOk, IfErr};
ghost use Rattle.wf_def.specs.Equality.{definition_eq};
ghost use Rattle.wf_model.specs.World.{start, steps};
ghost use Rattle.wf_farm.specs.Event.{view};
ghost use Rattle.wf_farm.specs.Farm.{Refines, size};
ghost use Rattle.wf_farm.specs.Fused.{FailsWithin, IsStepOfNode, NoneFails, RunsOrTears, with_torn};

use crate::carrier::Copies;
use crate::event::Event;
use crate::farm::Farm;
use crate::fate::{CrashWatch, Ran};
use crate::fault::FarmFault;
use std::alloc::Global;
use wf_model::Kept;
use wf_tape::MemoryTape;

/// What a run leaves in which one call of a node's tape fails.
#[derive(Drop)]
pub struct Fused {
    /// The farm. No tape of it fails any more.
    pub farm: Farm<MemoryTape>,
    /// The number of the event within whose step the tape failed, counted from 0, and what the
    /// crash left of the node; None if the tape didn't fail within a step.
    pub torn: Option<(usize, Kept)>,
}

/// Applies the events in order to a new farm of n nodes, where the `call`-th call of the tape of
/// node `node` fails: that `read`, `append`, `sync` or `replace`, counted from 1 after the farm's
/// start. A failing append keeps `kept` bytes of the new ones, at most all; a failing replace keeps
/// the old content for 0, and has the new one otherwise; a failing read or sync changes nothing.
///
/// If that call is within the step of an event, the node crashes there: `crash` bytes of those that
/// aren't synced are kept. It is opened again, and the run goes on. The farm is then the model's
/// world after the same events, but for that event a crash within its step and a restart of the
/// node. If the call is one of a restart, the node is opened once more. Then, and if the call isn't
/// reached, the farm is the world after the events. Err: F1 with the number of events done if an
/// allocation fails.
#[tactic(auto, using(crate::proofs::TriedEvents::fails_at_once))]
pub fn run_fused(
    alloc: Global,
    n: u8,
    events: &[Event],
    node: usize,
    call: usize,
    kept: usize,
    crash: usize,
) -> Result<Fused, FarmFault>
    requires some { 1 ≤ n }
    requires most { n ≤ 64 }
    requires node { node < n }
    ensures done { IfOk result (λ fused. Refines fused.farm
        (steps definition_eq (start n) (with_torn (map view events.now) fused.torn))) }
    ensures torn { IfOk result (λ fused. IsStepOfNode node (map view events.now) fused.torn) }
    ensures fuse { IfOk result (λ fused. NoneFails fused.farm.hosts) }
    ensures size { IfOk result (λ fused. size fused.farm ≡ n) }
    ensures memory { IfErr result (FailsWithin (length events.now)) }
{
    match Farm::new(alloc, n) {
        Ok(farm) => match run_failing(alloc, farm, events, node, call, kept, crash) {
            Ok(fused) => Ok(fused),
            Err(fault) => Err(fault),
        },
        Err(fault) => Err(fault),
    }
}

/// Applies the events in order to a farm, where the `call`-th call of the tape of node `node`
/// fails, as [`run_fused`] does. Err, and the farm is lost: F1 with the number of events that were
/// applied before one wasn't.
#[tactic(auto, using(crate::proofs::TriedEvents::none_fails, crate::proofs::TriedEvents::fails_at, crate::proofs::Worlds::members_of, crate::proofs::Worlds::sturdy_of))]
fn run_failing(
    alloc: Global,
    farm: Farm<MemoryTape>,
    events: &[Event],
    node: usize,
    call: usize,
    kept: usize,
    crash: usize,
) -> Result<Fused, FarmFault>
    ensures done { IfOk result (λ fused.
        RunsOrTears node (map view events.now) fused.torn farm fused.farm) }
    ensures fuse { IfOk result (λ fused. NoneFails fused.farm.hosts) }
    ensures size { IfOk result (λ fused. size fused.farm ≡ size farm) }
    ensures memory { IfErr result (FailsWithin (length events.now)) }
{
    let Farm {
        mut cluster,
        pumped,
        refused: _,
        complete,
    } = farm;
    let watch = CrashWatch {
        node: Some(node),
        keep: crash,
    };
    cluster.arm(node, call, kept);
    let mut copies = Copies;
    match cluster.run(alloc, &mut copies, events, watch) {
        Ok(Ran { why, torn }) => {
            cluster.disarm(Some(node));
            let farm = Farm {
                cluster,
                pumped,
                refused: why,
                complete,
            };
            Ok(Fused { farm, torn })
        }
        Err((done, _)) => {
            drop(cluster);
            Err(FarmFault::Memory(done))
        }
    }
}
