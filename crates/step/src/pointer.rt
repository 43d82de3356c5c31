// What points at a node of the tree.
ghost use Rattle.std.specs.Prelude.{◌<◌};

use btree::Place;

// The node and where its number stands, its level, and the bytes before which the keys stand that point at it and bound its own: 0 for none, as `bound` has it.
#[derive(Clone, Copy)]
pub struct Pointer {
    pub node: u32,
    pub from: Place,
    pub level: u32,
    pub low: usize,
    pub high: usize,
    pub ghost shallow: { level < 8 },
    pub ghost low_place: { low < 1000000000000000 },
    pub ghost high_place: { high < 1000000000000000 },
}
