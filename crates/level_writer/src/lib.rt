// The levels of a fresh tree, written into a lent target. Each function writes at an index and returns the next.
#![tactic(auto)]

ghost use Rattle.std.specs.Prelude.{◌≡◌, ◌-◌, ◌*◌, ◌≤◌, min, length};
ghost use Rattle.put.specs.Put.{Puts};
ghost use Rattle.btree.specs.Lists.{span};
ghost use Rattle.level_writer.specs.Parts.{LeavesOf, leaves_from, LevelIn, index_at, LevelsIn, index_levels, levels_size};

use node_writer::{Children, back_link, index_node, leaf_node, link};

// Where the records of a leaf end in a row, if they start at `from`.
pub fn end_of(len: usize, from: usize) -> usize
    requires { from ≤ len }
    ensures { (from ≤ result) × (result ≤ len) × (result - from ≡ min 440 (len - from)) }
{
    if len - from <= 440 { len } else { from + 440 }
}

// The leaves of a row, one after another.
pub fn leaf_level(target: &mut [u8], at: usize, row: &[u8], first: u32, nodes: u32) -> usize
    requires { LeavesOf (length target.old) at (length row.now) first nodes }
    ensures { Puts target.old target.new at (512 * nodes) (leaves_from row.now first 0 nodes) result }
{
    let mut a = at;
    for k in 0..nodes {
        let from = 440 * (k as usize);
        let to = end_of(row.len(), from);
        let forward = link(first, k + 1, nodes);
        let back = back_link(first, k);
        a = leaf_node(target, a, forward, back, &row[from..to]);
    }
    a
}

// How many children an index node takes of those that are left.
pub fn taken(left: u32) -> u32
    ensures { result ≡ min 35 left }
{
    left.min(35)
}

// An index level of so many nodes, the first of which is node `first`, over so many children, which start with `child`. The keys of two children that follow each
// other are `step` bytes apart in the row.
#[derive(Clone, Copy)]
pub struct IndexLevel {
    pub number: u8,
    pub first: u32,
    pub nodes: u32,
    pub child: u32,
    pub children: u32,
    pub step: usize,
}

// The nodes of an index level, one after another.
pub fn index_level(target: &mut [u8], at: usize, row: &[u8], level: IndexLevel) -> usize
    requires { LevelIn (length target.old) at (length row.now) level.first level.nodes level.child level.children level.step }
    ensures { Puts target.old target.new at (512 * level.nodes) (span 0 level.nodes (index_at level.number level.first level.nodes level.child level.children level.step row.now)) result }
{
    let jump = 35 * level.step;
    let mut a = at;
    for k in 0..level.nodes {
        let forward = link(level.first, k + 1, level.nodes);
        let back = back_link(level.first, k);
        let children = Children {
            count: taken(level.children - 35 * k),
            from: (k as usize) * jump,
            step: level.step,
            child: level.child + 35 * k,
        };
        a = index_node(target, a, forward, back, level.number, row, children);
    }
    a
}

// So many index levels from level 2 up, the lowest over the leaves, which start with `child`; each is over the one before.
pub fn index_levels(
    target: &mut [u8],
    at: usize,
    row: &[u8],
    levels: u32,
    child: u32,
    children: u32,
) -> usize
    requires { (levels ≤ 8) × LevelsIn (length target.old) (length row.now) levels at child children 440 }
    ensures { Puts target.old target.new at (levels_size levels children) (index_levels row.now levels 2 child children 440) result }
{
    let mut a = at;
    let mut lower = child;
    let mut width = children;
    let mut step = 440;
    for number in 2..levels + 2 {
        let first = lower + width;
        let nodes = width.div_ceil(35);
        let level = IndexLevel {
            number: number as u8,
            first,
            nodes,
            child: lower,
            children: width,
            step,
        };
        a = index_level(target, a, row, level);
        lower = first;
        width = nodes;
        step = 35 * step;
    }
    a
}
