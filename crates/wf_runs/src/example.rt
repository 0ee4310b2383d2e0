//! An example, which shows that the premises about a folder can be met by what a program calls.

ghost use Rattle.std.specs.Prelude.{◌≡◌, ◌<◌, ◌≤◌, false, IfOk};
ghost use Rattle.wf_execution.specs.Run.{IsOpenedFrom};
ghost use Rattle.wf_disk.specs.Folder.{bytes_in};
ghost use Rattle.wf_runs.specs.Twice.{AreTwoSessions, IsOpenedAgain};

use std::alloc::{AllocError, Global};
use wf_ballot::NodeId;
use wf_canon::Canon;
use wf_disk::{MemoryDisk, a_process_ends_in_an_image};
use wf_node::{Input, Node};
use wf_serve::open_shortened;
use wf_tape::{DiskTape, Tape};

/// A tape on a disk in memory.
pub type MemoryDiskTape = DiskTape<MemoryDisk>;

/// A node on a new disk proposes a map; then the power is cut, which leaves of an earlier file,
/// `back` changes of names ago, `keep` bytes that weren't synced (`MemoryDisk::cut`); and the node
/// is opened again from what is left. Returns it. Err if an allocation fails.
pub fn run_twice(
    alloc: Global,
    map: Canon,
    back: usize,
    keep: usize,
) -> Result<Node<MemoryDiskTape>, AllocError>
    ensures { IfOk result (AreTwoSessions ⟦<MemoryDiskTape as Tape>⟧) }
{
    let id = node_0();
    let mut node = open_on(alloc, MemoryDisk::new(alloc), id, 1)?;
    match node.step(alloc, Input::Propose(map)) {
        Ok(messages) => {
            drop(messages);
            restart(alloc, node, back, keep, id, 1)
        }
        Err(_) => {
            drop(node);
            Err(AllocError)
        }
    }
}

/// The number of the only node of a farm of one.
fn node_0() -> NodeId
    ensures { result ≡ 0 }
{
    NodeId::new(0).unwrap()
}

/// Node `id` of `n`, opened on a disk and its tape shortened, as `serve` opens each of its nodes on
/// a file. Err if an allocation or the disk fails.
pub fn open_on(
    alloc: Global,
    disk: MemoryDisk,
    id: NodeId,
    n: u8,
) -> Result<Node<MemoryDiskTape>, AllocError>
    requires nodes { n ≤ 64 }
    requires member { id < n }
    ensures { IfOk result (IsOpenedFrom n id (bytes_in disk.folder.own)) }
{
    match DiskTape::over(disk) {
        Ok(tape) => match open_shortened(alloc, tape, id, n) {
            Ok((node, _)) => Ok(node),
            Err(tape) => {
                drop(tape);
                Err(AllocError)
            }
        },
        Err((disk, _)) => {
            drop(disk);
            Err(AllocError)
        }
    }
}

/// The power of a running node is cut, and it is opened again, as node `id` of `n`. Err if an
/// allocation or the disk fails.
pub fn restart(
    alloc: Global,
    node: Node<MemoryDiskTape>,
    back: usize,
    keep: usize,
    id: NodeId,
    n: u8,
) -> Result<Node<MemoryDiskTape>, AllocError>
    requires running { node.halted ≡ false }
    requires nodes { n ≤ 64 }
    requires member { id < n }
    ensures { IfOk result (IsOpenedAgain n id node) }
{
    a_process_ends_in_an_image();
    let mut disk = node.close().close();
    disk.cut(back, keep);
    open_on(alloc, disk, id, n)
}
