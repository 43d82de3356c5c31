// The nodes of the bench images.
ghost use Rattle.std.specs.Prelude.{◌≤◌};

use super::put::{put_words, put16, put32};

// The numbers of a header that differ from image to image.
#[derive(Clone, Copy, Default)]
pub struct Header {
    pub forward: u32,
    pub depth: u32,
    pub root: u32,
    pub leaf_records: u32,
    pub first_leaf: u32,
    pub last_leaf: u32,
    pub total: u32,
    pub free: u32,
}

// A header, and the first four bytes of its map.
pub fn put_header(image: &mut [u8], h: Header, map: u32) {
    // The third word is kind 1, level 0 and three records, the ninth the node size 512 and the key length 7.
    let words = [
        h.forward,
        0,
        0x0100_0003,
        h.depth,
        h.root,
        h.leaf_records,
        h.first_leaf,
        h.last_leaf,
        0x0200_0007,
        h.total,
        h.free,
    ];
    put_words(image, 0, &words);
    put32(image, 248, map);
    put32(image, 504, 0x01F8_00F8);
    put32(image, 508, 0x0078_000E);
}

// Records of this size: data fork keys of the files from `file` up, start block 0, each followed by the next number, a pointer's child or a leaf record's first pair.
fn put_records(image: &mut [u8], start: usize, n: u32, size: usize, file: u32)
    requires { (start ≤ 3072000) × (n ≤ 36) × (size ≤ 20) × (file ≤ 36) }
{
    for i in 0..n {
        let words = [0x0700_0000, (file + i) * 65_536, file + i + 1];
        put_words(image, start + size * i as usize, &words);
    }
}

// The offset words of n records of this size, and of the free space.
fn put_offsets(image: &mut [u8], base: usize, n: u32, size: u32, free: u32)
    requires { (base ≤ 3072000) × (n ≤ 36) × (size ≤ 20) }
{
    for i in 0..n {
        put16(image, base + 510 - 2 * i as usize, 14 + size * i);
    }
    put16(image, base + 510 - 2 * n as usize, free);
}

// A node of three words (forward link, back link; kind, level and count), with n records of this size of the files from `file` up, and where its free space starts.
pub fn put_node(
    image: &mut [u8],
    number: usize,
    words: [u32; 3],
    n: u32,
    size: u32,
    file: u32,
    free: u32,
)
    requires { (number ≤ 40) × (n ≤ 36) × (size ≤ 20) × (file ≤ 36) }
{
    let base = number * 512;
    put_words(image, base, &words);
    put_records(image, base + 14, n, size as usize, file);
    put_offsets(image, base, n, size, free);
}
