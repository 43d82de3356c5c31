// All of a fresh tree, written into a lent target.
ghost use Rattle.std.specs.Prelude.{◌≡◌, ◌++◌, ℕ, ◌+◌, ◌-◌, ◌*◌, ◌/◌, ◌≤◌, ◌<◌, length};
ghost use Rattle.put.specs.Put.{Puts};
ghost use Rattle.btree.specs.Lists.{span};
ghost use Rattle.shape.specs.Shape.{nodes_at};
ghost use Rattle.laid.specs.Laid.{header, map_node, first_for, last_for, laid};
ghost use Rattle.level_writer.specs.Parts.{leaves_from, index_levels, levels_size};
ghost use Rattle.tree_writer.specs.Target.{FrontIn, TreeIn, TargetIn};

use super::plan::leaves_for;
use level_writer::{index_levels, leaf_level};
use map_writer::{TreeNumbers, header_node, map_nodes};

// The first leaf, which the header names.
#[tactic(auto, using(shape::proofs::Shape::start_first), unfolding(laid::specs::Laid::first_for))]
fn first_leaf(depth: u32, maps: u32) -> u32
    requires { maps ≤ 20 }
    ensures { (records : ℕ) → result ≡ first_for maps records depth }
{
    if depth == 0 { 0 } else { 1 + maps }
}

// The last leaf, which the header names too.
#[tactic(auto, using(shape::proofs::Shape::start_first), unfolding(laid::specs::Laid::last_for))]
fn last_leaf(depth: u32, maps: u32, leaves: u32) -> u32
    requires { (maps ≤ 20) × (leaves ≤ 65536) × (0 < depth → 0 < leaves) }
    ensures { (records : ℕ) → leaves ≡ nodes_at records 0 → result ≡ last_for maps records depth }
{
    if depth == 0 { 0 } else { maps + leaves }
}

// The header, and the map nodes after it.
fn lay_front(
    target: &mut [u8],
    maps: u32,
    depth: u32,
    root: u32,
    records: u32,
    leaves: u32,
    nodes: u32,
    used: u32,
) -> usize
    requires { FrontIn (length target.old) maps depth root records leaves nodes used }
    ensures { Puts target.old target.new 0 (512 + 512 * maps) (header maps records depth nodes ++ span 0 maps (map_node maps used)) result }
{
    let tree = TreeNumbers {
        maps,
        depth: depth as u16,
        root,
        records,
        first: first_leaf(depth, maps),
        last: last_leaf(depth, maps, leaves),
        nodes,
        used,
    };
    let a = header_node(target, 0, tree);
    map_nodes(target, a, maps, used)
}

// The leaves, and the index levels above them.
fn lay_tree(target: &mut [u8], at: usize, row: &[u8], maps: u32, depth: u32, leaves: u32) -> usize
    requires { TreeIn (length target.old) at (length row.now) maps depth leaves }
    ensures { Puts target.old target.new at (512 * leaves + levels_size (depth - 1) leaves) (leaves_from row.now (1 + maps) 0 leaves ++ index_levels row.now (depth - 1) 2 (1 + maps) leaves 440) result }
{
    let a = leaf_level(target, at, row, 1 + maps, leaves);
    index_levels(target, a, row, depth.saturating_sub(1), 1 + maps, leaves)
}

// The whole image.
pub fn lay(row: &[u8], target: &mut [u8], maps: u32, depth: u32, root: u32, used: u32)
    requires { TargetIn (length row.now) (length target.old) maps depth root used }
    ensures { target.new ≡ laid row.now (length target.old / 512) }
{
    let nodes = (target.len() / 512) as u32;
    let records = row.len() / 20;
    let leaves = leaves_for(records) as u32;
    let a = lay_front(
        target,
        maps,
        depth,
        root,
        records as u32,
        leaves,
        nodes,
        used,
    );
    let b = lay_tree(target, a, row, maps, depth, leaves);
    let rest = target.len() - b;
    put::zeros(target, b, rest);
}
