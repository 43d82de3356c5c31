// The numbers of a fresh tree, before any byte is written.
ghost use Rattle.std.specs.Prelude.{◌≡◌, ◌≤◌, ◌<◌};
ghost use Rattle.shape.specs.Shape.{nodes_at};
ghost use Rattle.laid.specs.Laid.{maps_for};
ghost use Rattle.tree_writer.specs.Plan.{PlanOf};

// How deep a tree is, which node is its root, and how many nodes are used with the header and the map nodes.
#[derive(Clone, Copy)]
pub struct Plan {
    pub depth: u32,
    pub root: usize,
    pub used: usize,
}

// The fewest map nodes that so many nodes need.
#[tactic(auto, unfolding(laid::specs::Laid::maps_for))]
pub fn maps_for(nodes: usize) -> usize
    requires { nodes ≤ 65536 }
    ensures { result ≡ maps_for nodes }
{
    nodes.saturating_sub(2_048).div_ceil(3_952)
}

// The leaves of so many records; no row is so long that it has 10 to the 18.
pub fn leaves_for(records: usize) -> usize
    requires { records < 1000000000000000000 }
    ensures { (result ≡ nodes_at records 0) × (result < 50000000000000000) }
{
    records.div_ceil(22)
}

// The tree of so many records after so many map nodes; its levels grow narrower until one has a single node.
pub fn planned(maps: usize, records: usize) -> Plan
    requires { (maps ≤ 20) × (records < 1000000000000000000) }
    ensures { PlanOf maps records result }
{
    let mut root = 1 + maps;
    if records == 0 {
        return Plan {
            depth: 0,
            root: 0,
            used: root,
        };
    }
    let mut n = leaves_for(records);
    for depth in 1..8 {
        if n <= 1 {
            return Plan {
                depth,
                root,
                used: root + n,
            };
        }
        root += n;
        n = n.div_ceil(35);
    }
    Plan {
        depth: 8,
        root,
        used: root + n,
    }
}
