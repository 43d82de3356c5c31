// Bytes of a map and of the visited bitmap, eight at once.
ghost use Rattle.std.specs.Prelude.{◌≡◌, ℕ, ◌+◌, ◌<◌, ◌≤◌, length, get_or};
ghost use Rattle.image.specs.Bytes.{be64_at};

use image::bytes::be16;
use image::within::be64_in;

// Total, as the bitmap of a small image ends long before a map record does.
fn eight_at(bits: &[u8], at: usize) -> u64
    requires { at ≤ 8589934592 }
    ensures { result ≡ be64_at bits.now at }
{
    if at + 8 <= bits.len() {
        return be64_in(bits, at);
    }
    if at >= bits.len() {
        return 0;
    }
    let first = be16(bits, at) as u64;
    let second = be16(bits, at + 2) as u64;
    let third = be16(bits, at + 4) as u64;
    let fourth = be16(bits, at + 6) as u64;
    first * 281_474_976_710_656 + second * 4_294_967_296 + third * 65_536 + fourth
}

// How many bytes from the start on, in eights, are surely the same: an answer says nothing of what follows.
pub fn same_bytes(map: &[u8], bits: &[u8], first: usize) -> usize
    requires { (length map.now ≤ 32768) × (first ≤ 4294967296) }
    ensures { (result ≤ length map.now) × ((j : ℕ) → j < result → get_or map.now j 0 ≡ get_or bits.now (first + j) 0) }
{
    for eight in 0..map.len() / 8 {
        let i = 8 * eight;
        if be64_in(map, i) != eight_at(bits, first + i) {
            return i;
        }
    }
    map.len() / 8 * 8
}
