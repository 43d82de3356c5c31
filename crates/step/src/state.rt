// What the walk of the tree keeps, and what a node adds to it.
ghost use Rattle.std.specs.Prelude.{◌≡◌, ◌<◌, ◌≤◌};
ghost use Rattle.btree.specs.Tells.{pick};
ghost use Rattle.step.specs.State.{first_with, kept, last_at};
ghost use Rattle.step.specs.Room.{Keepable};

// What the tests at the end ask of the nodes met; which ones they are is in the lent bytes.
#[derive(Clone, Copy)]
pub struct Walk {
    // The last node met on each level, 0 for none as in a link, which this is compared with. Eight places by value: no heap.
    pub last: [u32; 8],
    // The leaves' records, and the first leaf.
    pub records: u32,
    pub first: u32,
    // How many nodes are met, with the header and the map chain.
    pub nodes: u32,
}

pub fn last_on(w: Walk, level: u32) -> u32
    requires { level < 8 }
    ensures { result ≡ last_at w level }
{
    w.last[level as usize]
}

fn first_with(leaf: bool, first: u32, node: u32) -> u32
    ensures { result ≡ first_with leaf first node }
{
    if leaf && first == 0 { node } else { first }
}

fn counted(leaf: bool, c: u32) -> u32
    ensures { (result ≡ pick leaf c 0) × (result ≤ c) }
{
    if leaf { c } else { 0 }
}

// A node that passed its tests.
pub fn kept_at(mut w: Walk, node: u32, level: u32, leaf: bool, c: u32) -> Walk
    requires { Keepable w level c }
    ensures { result ≡ kept w node level leaf c }
{
    w.last[level as usize] = node;
    w.records += counted(leaf, c);
    w.first = first_with(leaf, w.first, node);
    w.nodes += 1;
    w
}
