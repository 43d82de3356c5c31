// The offset words of an HFS node, four at once.
ghost use Rattle.std.specs.Prelude.{◌≡◌, true, ℕ, suc, ◌+◌, ◌-◌, ◌*◌, ◌<◌, ◌≤◌, length};
ghost use Rattle.image.specs.Bytes.{be16_at};

use image::within::{be16_in, be32_in, be64_in};

// The offset words of record i and of the three after it, where that of the first record ends the node and stands at `end`.
fn four_right(image: &[u8], end: usize, size: u32, i: u32) -> bool
    requires { (2 * i + 6 ≤ end) × (end + 2 ≤ length image.now) × (14 + i * size + 3 * size < 65536) }
    ensures { result ≡ true → (j : ℕ) → i ≤ j → j < i + 4 → be16_at image.now (end - 2 * j) ≡ 14 + j * size }
{
    let first = 14 + i * size;
    let words = (first as u64) * 281_479_271_743_489 + (size as u64) * 844_433_520_132_096;
    be64_in(image, end - 6 - 2 * (i as usize)) == words
}

// The offset words of c records and of the free space after them. The last four overlap others; fewer than four are not looked at.
pub fn offsets_right(image: &[u8], end: usize, size: u32, c: u32) -> bool
    requires { (c ≤ 35) × (size ≤ 20) × (2 * c ≤ end) × (end + 2 ≤ length image.now) }
    ensures { result ≡ true → (i : ℕ) → i < suc c → be16_at image.now (end - 2 * i) ≡ 14 + i * size }
{
    if c < 3 {
        return false;
    }
    if !four_right(image, end, size, c - 3) {
        return false;
    }
    for fours in 0..(c / 4) {
        if !four_right(image, end, size, 4 * fours) {
            return false;
        }
    }
    true
}

// The offset words of a full leaf, whose numbers are known: 22 records of 20 bytes. Most leaves are full, and no time goes to counting.
pub fn full_right(image: &[u8], end: usize) -> bool
    requires { (44 ≤ end) × (end + 2 ≤ length image.now) }
    ensures { result ≡ true → (i : ℕ) → i < 23 → be16_at image.now (end - 2 * i) ≡ 14 + i * 20 }
{
    for fours in 0..5_u32 {
        if !four_right(image, end, 20, 4 * fours) {
            return false;
        }
    }
    // No word is read twice, so that each four stays one load.
    if be16_in(image, end - 40) != 414 {
        return false;
    }
    be32_in(image, end - 44) == 29_753_778
}
