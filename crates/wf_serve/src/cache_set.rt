//! The caches of the nodes.
ghost use Rattle.std.specs.Prelude.{◌≡◌, ◌≤◌, ◌+◌, length, IfOk, OnOk};
ghost use Rattle.wf_farm.specs.Nodes.{nodes_in};
ghost use Rattle.wf_serve.specs.CacheSet.{AreEmpty, AreCached, HaveRoom};
ghost use Rattle.wf_wms.specs.CachedPictures.{most_cached};

use std::alloc::{AllocError, Global};
use wf_farm::Farm;
use wf_tape::Tape;
use wf_wms::Cache;

/// Returns a cache for each node, of `capacity` pictures at most, all empty.
pub(crate) fn caches_for<T: Tape>(
    alloc: Global,
    farm: &Farm<T>,
    capacity: u8,
) -> Result<Vec<Cache>, AllocError>
    requires least { 1 ≤ capacity }
    requires most { capacity ≤ most_cached }
    ensures cached { IfOk result (λ caches. AreCached (nodes_in farm.now) caches.items) }
    ensures room { IfOk result (λ caches. HaveRoom capacity caches.items) }
{
    let mut caches = Vec::new(alloc);
    for number in 0..farm.size() {
        add(alloc, &mut caches, number, capacity)?;
    }
    Ok(caches)
}

/// Appends the cache of the node of this number.
fn add(
    alloc: Global,
    caches: &mut Vec<Cache>,
    number: usize,
    capacity: u8,
) -> Result<(), AllocError>
    requires least { 1 ≤ capacity }
    requires most { capacity ≤ most_cached }
    requires next { length caches.old.items ≡ number }
    requires empty { AreEmpty caches.old.items }
    requires room { HaveRoom capacity caches.old.items }
    ensures size { OnOk result (length caches.new.items ≡ number + 1) }
    ensures empty { OnOk result (AreEmpty caches.new.items) }
    ensures room { OnOk result (HaveRoom capacity caches.new.items) }
{
    let cache = Cache::new(alloc, capacity as usize)?;
    caches.push(cache)?;
    Ok(())
}
