// Opening the namespace of two disks, and the status where that fails.
ghost use Rattle.std.specs.Prelude.{◌≡◌, ◌≢◌, ◌⊎◌, [], false, None, IfOk, IfErr, string_bytes};
ghost use Rattle.sb_journal.specs.Disks.{disks_of, opened_on, AreHonest};
ghost use Rattle.sb_journal.specs.Journals.{journal_side};
ghost use Rattle.sb_journal.specs.Opened.{Stands};
ghost use Rattle.sb_journal.specs.Text.{File};
ghost use Rattle.sb_node.specs.Nodes.{node_journal, node_state, node_stopped, node_disks, IsKept};
ghost use Rattle.sb_node.specs.Serving.{node_goes_on, opened_disks, StandsFor};
ghost use Rattle.sb_app.specs.Outside.{output_of};
ghost use Rattle.sb_app.specs.Openings.{IsOpened, HasFailed};
ghost use Rattle.sb_app.specs.Tops.{IsDamageReported, letter_of};
ghost use Rattle.sb_app.specs.Tops as tops;

use crate::final_line::write_final_line;
use sb_journal::{OpenFault, OpenWhy, Side};
use sb_node::Node;
use sb_outside::{Disk, Sink};
use std::alloc::{AllocError, Global};

/// The namespace that stands on these disks. Where it can't be had, the status is 5 for a disk that
/// failed, 6 for a journal that can't be trusted, with the line that says where, and 7 for want of
/// memory; the disks come back then. The salt is that of a new journal.
pub fn open_node<D: Disk, K: Sink>(
    alloc: Global,
    disk_a: D,
    disk_b: D,
    salt: u64,
    output: &mut K,
) -> Result<Node<D>, (u8, D, D)>
    ensures opened { IfOk result (λ n. IsOpened (IsKept n) salt (disks_of D.Disk disk_a disk_b) (node_disks n) (node_state n)) }
    ensures running { IfOk result (λ n. node_stopped n ≡ None) }
    ensures stands { IfOk result (λ n. StandsFor n (node_state n) []) }
    ensures origin { IfOk result (λ n. opened_disks n ≡ node_disks n) }
    ensures rests_alone { IfOk result (λ n. node_goes_on n ≡ false) }
    ensures unsaid { IfOk result (λ _. output.new ≡ output.old) }
    ensures failed { IfErr result (λ e. HasFailed salt (disks_of D.Disk disk_a disk_b) (disks_of D.Disk e.1 e.2) (output_of K.Sink output.old) (output_of K.Sink output.new) e.0) }
    ensures counts { IfOk result (λ n. AreHonest (disks_of D.Disk disk_a disk_b) → (file : File) × (opened_on (disks_of D.Disk disk_a disk_b) salt ≡ Stands (journal_side (node_journal n)) file)) }
{
    match Node::open(alloc, disk_a, disk_b, salt) {
        Ok(node) => Ok(node),
        Err(fault) => {
            let OpenFault {
                disk_a,
                disk_b,
                why,
            } = fault;
            let status = failed_status(alloc, output, why);
            Err((status, disk_a, disk_b))
        }
    }
}

fn letter(side: Side) -> &'static str
    ensures { result.now ≡ letter_of side }
{
    match side {
        Side::A => "a",
        Side::B => "b",
    }
}

// The line of a damaged journal.
fn damage_line(alloc: Global, side: Side, place: u64) -> Result<String, AllocError>
    ensures { IfOk result (λ s. string_bytes s ≡ tops.damage_line side place) }
{
    let disk = letter(side);
    format!(in alloc; "{{\"disk\":\"{disk}\",\"place\":{place},\"refused\":\"Damaged\"}}\n")
}

// The status of an opening that failed, with the line that says so of a damaged journal.
pub(crate) fn failed_status<K: Sink>(alloc: Global, output: &mut K, why: OpenWhy) -> u8
    ensures damaged { result ≡ 6 → IsDamageReported why (output_of K.Sink output.old) (output_of K.Sink output.new) }
    ensures silent { result ≢ 6 → output.new ≡ output.old }
    ensures disk_fault { result ≡ 5 → why ≡ OpenWhy.DiskFault }
    ensures other { result ≢ 5 → why ≢ OpenWhy.DiskFault }
    ensures known { (result ≡ 5) ⊎ ((result ≡ 6) ⊎ (result ≡ 7)) }
{
    match why {
        OpenWhy::Damaged(side, place) => {
            let Ok(line) = damage_line(alloc, side, place) else {
                return 7;
            };
            write_final_line(output, line.as_str());
            6
        }
        OpenWhy::DiskFault => 5,
        OpenWhy::OutOfMemory => 7,
    }
}
