// Nodes over disks in memory.
ghost use Rattle.std.specs.Prelude.{◌≡◌, [], IfOk};
ghost use Rattle.sb_node.specs.Nodes.{node_state};
ghost use Rattle.sb_node.specs.Serving.{StandsFor};

use crate::calls::disks_of;
use crate::fault::CallFault;
use crate::journals::SALT;
use sb_node::Node;
use sb_outside::MemDisk;
use std::alloc::Global;

/// A node over a disk a with these bytes, which fails at these calls, and an empty disk b. A fault where it isn't
/// opened.
pub fn node_over(alloc: Global, disk: (&[u8], &[u64])) -> Result<Node<MemDisk>, CallFault>
    ensures { IfOk result (λ n. StandsFor n (node_state n) []) }
{
    let (disk_a, disk_b) = disks_of(alloc, disk)?;
    match Node::open(alloc, disk_a, disk_b, SALT) {
        Ok(node) => Ok(node),
        Err(fault) => {
            drop(fault);
            Err(CallFault::Unopened)
        }
    }
}

/// Disk a of a node that is closed.
pub fn closed(node: Node<MemDisk>) -> MemDisk {
    let (disk_a, disk_b) = node.close();
    drop(disk_b);
    disk_a
}

/// The events and the live copies that who opens these bytes finds.
pub fn found_in(alloc: Global, bytes: &[u8]) -> Result<(u64, u64), CallFault> {
    let node = node_over(alloc, (bytes, &[]))?;
    let numbers = node.summary();
    drop(closed(node));
    Ok((numbers.events, numbers.copies))
}

/// The same where a crash leaves this byte wherever it may leave any.
pub fn found_behind(alloc: Global, disk: &MemDisk, fill: u8) -> Result<(u64, u64), CallFault> {
    let image = disk.image(alloc, fill)?;
    let found = found_in(alloc, &image);
    drop(image);
    found
}
