// The nodes of a fresh tree, written into a lent target. Each function writes at an index and returns the next.
#![tactic(auto)]

ghost use Rattle.std.specs.Prelude.{◌≡◌, ◌+◌, ◌-◌, ◌*◌, ◌%◌, ◌≤◌, ◌<◌, length, take, drop};
ghost use Rattle.std.proofs.Math.Decide.{dec_lt};
ghost use Rattle.put.specs.Put.{Puts};
ghost use Rattle.btree.specs.Decide.{cond};
ghost use Rattle.laid.specs.Laid.{described, offsets, back_to};
ghost use Rattle.node_writer.specs.Parts.{framed, leaf_node, Inside, indexed, index_node};

// What the first 14 bytes of a node say of it. Kind and level are the bytes that are laid down.
#[derive(Clone, Copy)]
pub struct Descriptor {
    pub forward: u32,
    pub back: u32,
    pub kind: u8,
    pub level: u8,
    pub count: u16,
}

// The first 14 bytes of a node.
pub fn describe(target: &mut [u8], at: usize, node: Descriptor) -> usize
    requires { at + 14 ≤ length target.old }
    ensures { Puts target.old target.new at 14 (described node.forward node.back node.kind node.level node.count) result }
{
    let a = put::number32(target, at, node.forward);
    let b = put::number32(target, a, node.back);
    let c = put::byte(target, b, node.kind);
    let d = put::byte(target, c, node.level);
    let e = put::number16(target, d, node.count);
    put::number16(target, e, 0)
}

// The node k places after the first, where k is below the nodes of the level, or else 0.
pub fn link(first: u32, k: u32, nodes: u32) -> u32
    requires { first + k < 4294967296 }
    ensures { result ≡ cond (dec_lt k nodes) (first + k) 0 }
{
    if k < nodes { first + k } else { 0 }
}

// The node before the one k places after the first, or 0 for the first.
#[tactic(auto, unfolding(laid::specs::Laid::back_to))]
pub fn back_link(first: u32, k: u32) -> u32
    requires { first + k < 4294967296 }
    ensures { result ≡ back_to first k }
{
    if k == 0 { 0 } else { first + (k - 1) }
}

// The offset words of so many records of a size, that of the free bytes first.
pub fn offset_words(target: &mut [u8], at: usize, size: u16, count: u16) -> usize
    requires { (count ≤ 35) × (at + (2 * count + 2) ≤ length target.old) × (14 + count * size < 65536) }
    ensures { Puts target.old target.new at (2 * count + 2) (offsets size count) result }
{
    let mut a = at;
    for k in (0..=count).rev() {
        a = put::number16(target, a, 14 + k * size);
    }
    a
}

// The rest of a node after so many records of a size: zeros, and the offset words.
pub fn node_end(target: &mut [u8], at: usize, size: u16, count: u16) -> usize
    requires { (count ≤ 35) × (count * size + 2 * (count + 1) ≤ 498) × (at + (498 - count * size) ≤ length target.old) }
    ensures { Puts target.old target.new at (498 - count * size) (framed size count) result }
{
    let gap = 498 - (count * size + 2 * (count + 1));
    let a = put::zeros(target, at, gap as usize);
    offset_words(target, a, size, count)
}

// A leaf with these records.
pub fn leaf_node(target: &mut [u8], at: usize, forward: u32, back: u32, records: &[u8]) -> usize
    requires { (length records.now ≤ 440) × (length records.now % 20 ≡ 0) × (at + 512 ≤ length target.old) }
    ensures { Puts target.old target.new at 512 (leaf_node forward back records.now) result }
{
    let count = (records.len() / 20) as u16;
    let node = Descriptor {
        forward,
        back,
        kind: 255,
        level: 1,
        count,
    };
    let a = describe(target, at, node);
    let b = put::copy(target, a, records);
    node_end(target, b, 20, count)
}

// A key of the row.
pub fn key_part(target: &mut [u8], at: usize, row: &[u8], from: usize) -> usize
    requires { (at + 8 ≤ length target.old) × (from + 8 ≤ length row.now) }
    ensures { Puts target.old target.new at 8 (take 8 (drop from row.now)) result }
{
    let end = from + 8;
    put::copy(target, at, &row[from..end])
}

// So many children of an index node: the first is node `child`, its key stands in the row at `from`, and each key after it `step` bytes on.
#[derive(Clone, Copy)]
pub struct Children {
    pub count: u32,
    pub from: usize,
    pub step: usize,
    pub child: u32,
}

// The keys of the children, each with the child's number.
pub fn index_entries(target: &mut [u8], at: usize, row: &[u8], children: Children) -> usize
    requires { (at + 12 * children.count ≤ length target.old) × (children.child + children.count < 4294967296) × Inside children.count children.from children.step (length row.now) }
    ensures { Puts target.old target.new at (12 * children.count) (indexed children.count children.from children.step children.child row.now) result }
{
    let mut a = at;
    for i in 0..children.count {
        let place = children.from + (i as usize) * children.step;
        let b = key_part(target, a, row, place);
        a = put::number32(target, b, children.child + i);
    }
    a
}

// An index node of a level, with these children.
pub fn index_node(
    target: &mut [u8],
    at: usize,
    forward: u32,
    back: u32,
    level: u8,
    row: &[u8],
    children: Children,
) -> usize
    requires { (at + 512 ≤ length target.old) × (children.count ≤ 35) × (children.child + children.count < 4294967296) × Inside children.count children.from children.step (length row.now) }
    ensures { Puts target.old target.new at 512 (index_node forward back level children.count children.from children.step children.child row.now) result }
{
    let count = children.count as u16;
    let node = Descriptor {
        forward,
        back,
        kind: 0,
        level,
        count,
    };
    let a = describe(target, at, node);
    let b = index_entries(target, a, row, children);
    node_end(target, b, 12, count)
}
