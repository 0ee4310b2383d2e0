//! The targets of a pump.

ghost use Rattle.std.specs.Prelude.{◌≡◌, ◌<◌, [], length, IfOk};
ghost use Rattle.wf_delivery.specs.Rounds.{AreTargets};

use std::alloc::{AllocError, Global};

/// The named nodes, each once, ascending; every node of n if none is named.
pub(crate) fn targets_of(alloc: Global, names: &[usize], n: usize) -> Result<Vec<usize>, AllocError>
    requires { 0 < n }
    ensures targets { IfOk result (λ targets. AreTargets n names.now targets.items) }
    ensures some { IfOk result (λ targets. 0 < length targets.items) }
{
    if names.is_empty() {
        return every_node(alloc, n);
    }
    let mut targets = Vec::from_slice(alloc, names)?;
    targets.sort_unstable();
    targets.dedup();
    Ok(targets)
}

/// Every node of n, ascending.
#[tactic(auto, using(wf_delivery::proofs::UpTo::none_up_to, wf_delivery::proofs::UpTo::one_up_to))]
fn every_node(alloc: Global, n: usize) -> Result<Vec<usize>, AllocError>
    ensures targets { IfOk result (λ targets. AreTargets n [] targets.items) }
    ensures size { IfOk result (λ targets. length targets.items ≡ n) }
{
    let mut nodes = Vec::new(alloc);
    for node in 0..n {
        nodes.push(node)?;
    }
    Ok(nodes)
}
