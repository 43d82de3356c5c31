// The records of an HFS node in one pass, fast where they are right: an answer of false, or None for the last key, says nothing.
#![tactic(auto)]

ghost use Rattle.std.specs.Prelude.{◌≡◌, true, ◌+◌, ◌*◌, ◌<◌, ◌≤◌, length};
ghost use Rattle.image.specs.Bytes.{be64_at};
ghost use Rattle.fast_records.specs.Keyed.{Keyed};

use keys::{last_of_full, last_rising};
use words::{full_right, offsets_right};

pub mod keys;
pub mod words;

// The c records, of this size, of the node that starts at this byte, of which the first key has these eight bytes, with keys below `top`. The keys come
// first: memory is read from the node's start to its end, where the words are.
// Image, start and key stay apart: a type that holds what is asked of them is narrower, and docs/PROMISES.md names `is_keyed` and `is_full`.
pub fn is_keyed(image: &[u8], start: usize, size: u32, c: u32, raw: u64, top: u64) -> bool
    requires { (start + 512 ≤ length image.now) × (0 < c) × (c ≤ 35) × (size ≤ 20) × (c * size + 2 * c ≤ 496) × (raw ≡ be64_at image.now (start + 14)) }
    ensures { result ≡ true → Keyed image.now start size c top }
{
    match last_rising(image, start + 14, size as usize, c, raw) {
        Some(last) if last < top => offsets_right(image, start + 510, size, c),
        _ => false,
    }
}

// The same of a full leaf: most are, and where the count is known no time goes to counting.
pub fn is_full(image: &[u8], start: usize, raw: u64, top: u64) -> bool
    requires { (start + 512 ≤ length image.now) × (raw ≡ be64_at image.now (start + 14)) }
    ensures { result ≡ true → Keyed image.now start 20 22 top }
{
    match last_of_full(image, start + 14, raw) {
        Some(last) if last < top => full_right(image, start + 510),
        _ => false,
    }
}
