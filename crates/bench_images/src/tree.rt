// The trees of the bench images.
ghost use Rattle.std.specs.Prelude.{◌≤◌, ◌<◌};

use super::node::{Header, put_header, put_node};
use super::put::{put_words, put8, put32};

// A header and one leaf with n records.
pub fn put_leaf_tree(image: &mut [u8], n: u32, free: u32)
    requires { n ≤ 36 }
{
    let header = Header {
        depth: 1,
        root: 1,
        leaf_records: n,
        first_leaf: 1,
        last_leaf: 1,
        total: 2,
        ..Header::default()
    };
    put_header(image, header, 0xC000_0000);
    put_node(image, 1, [0, 0, 0xFF01_0000 + n], n, 20, 1, free);
}

// Leaf i of n, node i + 2, with one record.
fn put_leaf(image: &mut [u8], i: u32, n: u32)
    requires { (i < n) × (n ≤ 36) }
{
    let forward = if i + 1 < n { i + 3 } else { 0 };
    let back = if i > 0 { i + 1 } else { 0 };
    let number = (i as usize) + 2;
    put_node(
        image,
        number,
        [forward, back, 0xFF01_0001],
        1,
        20,
        i + 1,
        34,
    );
}

// A root with n index records over leaves of one record each. The map has four bytes and one more.
pub fn put_index_tree(image: &mut [u8], n: u32, free: u32, map: u32, more: u32)
    requires { n ≤ 36 }
{
    let header = Header {
        depth: 2,
        root: 1,
        leaf_records: n,
        first_leaf: 2,
        last_leaf: n + 1,
        total: n + 2,
        ..Header::default()
    };
    put_header(image, header, map);
    put8(image, 252, more);
    put_node(image, 1, [0, 0, 0x0002_0000 + n], n, 12, 1, free);
    for i in 0..n {
        put_leaf(image, i, n);
    }
}

// A header over nodes that are all free but itself.
pub fn put_empty_tree(image: &mut [u8], total: u32)
    requires { 1 ≤ total }
{
    let header = Header {
        total,
        free: total - 1,
        ..Header::default()
    };
    put_header(image, header, 0x8000_0000);
}

// A header linked to a map node, node 1, that is linked to itself.
pub fn put_map_loop(image: &mut [u8]) {
    let header = Header {
        forward: 1,
        total: 2,
        ..Header::default()
    };
    put_header(image, header, 0xC000_0000);
    // Kind 2, level 0, one record.
    let words = [1, 0, 0x0200_0001];
    put_words(image, 512, &words);
    put32(image, 1020, 0x01FC_000E);
}
