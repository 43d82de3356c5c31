// The header and the map nodes of a fresh tree, written into a lent target. Each function writes at an index and returns the next.
#![tactic(auto)]

ghost use Rattle.std.specs.Prelude.{◌≡◌, ◌+◌, ◌*◌, ◌≤◌, ◌<◌, length};
ghost use Rattle.put.specs.Put.{Puts};
ghost use Rattle.btree.specs.Lists.{span};
ghost use Rattle.laid.specs.Laid.{map_byte, map_part, map_node, header};
ghost use Rattle.map_writer.specs.Parts.{front, numbers, header_words, HeaderOf};

use node_writer::{Descriptor, describe, link};

// Byte k of a map whose first `used` bits are set.
pub fn map_byte(used: u32, k: u32) -> u8
    requires { k < 65536 }
    ensures { result ≡ map_byte used k }
{
    match used.saturating_sub(8 * k) {
        0 => 0,
        1 => 128,
        2 => 192,
        3 => 224,
        4 => 240,
        5 => 248,
        6 => 252,
        7 => 254,
        _ => 255,
    }
}

// So many bytes of that map, from byte `from` on.
pub fn map_part(target: &mut [u8], at: usize, used: u32, from: u32, count: u32) -> usize
    requires { (at + count ≤ length target.old) × (from + count ≤ 65536) }
    ensures { Puts target.old target.new at count (map_part used from count) result }
{
    let mut a = at;
    for k in from..from + count {
        a = put::byte(target, a, map_byte(used, k));
    }
    a
}

// Map node i, which is node i + 1.
pub fn map_node(target: &mut [u8], at: usize, maps: u32, used: u32, i: u32) -> usize
    requires { (at + 512 ≤ length target.old) × (i < 20) }
    ensures { Puts target.old target.new at 512 (map_node maps used i) result }
{
    let node = Descriptor {
        forward: link(1, i + 1, maps),
        back: 0,
        kind: 2,
        level: 0,
        count: 1,
    };
    let a = describe(target, at, node);
    let b = map_part(target, a, used, 256 + 494 * i, 494);
    let c = put::number16(target, b, 508);
    put::number16(target, c, 14)
}

// The numbers of a fresh tree that its header holds, or that those follow from.
#[derive(Clone, Copy)]
pub struct TreeNumbers {
    pub maps: u32,
    pub depth: u16,
    pub root: u32,
    pub records: u32,
    pub first: u32,
    pub last: u32,
    pub nodes: u32,
    pub used: u32,
}

// The header's first bytes, up to the number of leaf records.
pub fn header_front(target: &mut [u8], at: usize, tree: TreeNumbers) -> usize
    requires { at + 24 ≤ length target.old }
    ensures { Puts target.old target.new at 24 (front tree.maps tree.depth tree.root tree.records) result }
{
    let node = Descriptor {
        forward: link(1, 0, tree.maps),
        back: 0,
        kind: 1,
        level: 0,
        count: 3,
    };
    let a = describe(target, at, node);
    let b = put::number16(target, a, tree.depth);
    let c = put::number32(target, b, tree.root);
    put::number32(target, c, tree.records)
}

// The header's other numbers, from the first leaf on.
pub fn header_numbers(target: &mut [u8], at: usize, tree: TreeNumbers, free: u32) -> usize
    requires { at + 20 ≤ length target.old }
    ensures { Puts target.old target.new at 20 (numbers tree.first tree.last tree.nodes free) result }
{
    let a = put::number32(target, at, tree.first);
    let b = put::number32(target, a, tree.last);
    let c = put::number16(target, b, 512);
    let d = put::number16(target, c, 7);
    let e = put::number32(target, d, tree.nodes);
    put::number32(target, e, free)
}

// The header's offset words.
pub fn header_words(target: &mut [u8], at: usize) -> usize
    requires { at + 8 ≤ length target.old }
    ensures { Puts target.old target.new at 8 header_words result }
{
    let a = put::number16(target, at, 504);
    let b = put::number16(target, a, 248);
    let c = put::number16(target, b, 120);
    put::number16(target, c, 14)
}

// The header node.
pub fn header_node(target: &mut [u8], at: usize, tree: TreeNumbers) -> usize
    requires { (at + 512 ≤ length target.old) × HeaderOf tree.maps tree.records tree.depth tree.root tree.first tree.last tree.used × (tree.used ≤ tree.nodes) }
    ensures { Puts target.old target.new at 512 (header tree.maps tree.records tree.depth tree.nodes) result }
{
    let a = header_front(target, at, tree);
    let b = header_numbers(target, a, tree, tree.nodes - tree.used);
    let c = put::zeros(target, b, 204);
    let d = map_part(target, c, tree.used, 0, 256);
    header_words(target, d)
}

// The map nodes, one after another.
pub fn map_nodes(target: &mut [u8], at: usize, maps: u32, used: u32) -> usize
    requires { (at + 512 * maps ≤ length target.old) × (maps ≤ 20) }
    ensures { Puts target.old target.new at (512 * maps) (span 0 maps (map_node maps used)) result }
{
    let mut a = at;
    for i in 0..maps {
        a = map_node(target, a, maps, used, i);
    }
    a
}
