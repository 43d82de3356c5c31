// The writer of extents overflow files of HFS volumes. Any bytes will do as a row, and any as a target; nobody has to have checked them first.
#![tactic(auto)]

ghost use Rattle.std.specs.Prelude.{◌≡◌};
ghost use Rattle.btree.specs.Faults.{verdict_of};
ghost use Rattle.writing.specs.Written.{write_answer, written};
ghost use Rattle.writing.specs.Demands.{WriteSays};

use btree::fault::{Fault, Refusal};
use frame::form::of_hfs;
use header::length_right;
use leaf_rows::row_right;
use tree_writer::plan::{maps_for, planned};
use tree_writer::whole::lay;

// Lays down a fresh tree from a row of leaf records: the whole target is written; or there is a fault, and the target is as it was. The length of the target
// is judged first, then the row, and only then how many nodes are wanted.
pub fn write_tree(row: &[u8], target: &mut [u8]) -> Result<(), Fault>
    ensures equal { verdict_of result ≡ write_answer row.now target.old }
    ensures written { target.new ≡ written row.now target.old }
    ensures says { WriteSays row.now target.old target.new (verdict_of result) }
{
    if !length_right(of_hfs(), target) {
        return Err(Fault::at_node(Refusal::ImageLength, 0));
    }
    if !row_right(row) {
        return Err(Fault::at_node(Refusal::Row, 0));
    }
    let nodes = target.len() / 512;
    let maps = maps_for(nodes);
    let plan = planned(maps, row.len() / 20);
    if plan.used > nodes {
        return Err(Fault::at_node(Refusal::FewNodes, 0));
    }
    // Narrowed only here: a row too long for any target may have a plan beyond 32 bits.
    lay(
        row,
        target,
        maps as u32,
        plan.depth,
        plan.root as u32,
        plan.used as u32,
    );
    Ok(())
}
