// The key of an extents record.
ghost use Rattle.std.specs.Prelude.{◌≡◌, ◌+◌, ◌<◌, ◌≤◌, eqb, ltb, pos, length};
ghost use Rattle.btree.specs.Decide.{says};
ghost use Rattle.btree.specs.Ranked.{ranked};
ghost use Rattle.extent_keys.specs.Key.{number, dec_lawful, key_at, asked, compared, rank, rank_of, packed, IsShort, unpacked, dec_key};

use frame::form::{Edition, FormNumbers};
use image::bytes::bytes_from;
use image::within::{be16_in, be32_in};
use std::cmp::Ordering;

// 2 to the 56: no key's packed number reaches it.
const KEY_LIMIT: u64 = 72_057_594_037_927_936;

// What a record is found by.
#[derive(Clone, Copy, PartialEq, Eq, PartialOrd, Ord)]
pub struct Key {
    pub file: u32,
    pub fork: u8,
    pub start: u32,
}

// A key as it is compared: file number and fork byte as one number, then the start block.
#[derive(Clone, Copy, PartialEq, Eq, PartialOrd, Ord)]
pub struct SortKey {
    pub owner: u64,
    pub start: u32,
}

// File number, then fork as an unsigned byte, then start block: the order of the fields.
pub fn compare(a: Key, b: Key) -> Ordering
    ensures equal { number result ≡ compared a b }
    ensures order { number result ≡ ranked (rank a) (rank b) (pos 0) }
    ensures packed { IsShort a → IsShort b → number result ≡ ranked (packed a) (packed b) (pos 0) }
{
    a.cmp(&b)
}

// The fork bytes 00 and FF are lawful: a byte and no enum, as the C interface and packed keys have it.
pub fn is_lawful(fork: u32) -> bool
    ensures { result ≡ says (dec_lawful fork) }
{
    fork == 0 || fork == 255
}

// An asked key, to be compared.
pub fn sort_key(file: u32, fork: u8, start: u32) -> SortKey
    ensures { rank_of result ≡ rank (asked file fork start) }
{
    let owner = u64::from(file) * 256 + u64::from(fork);
    SortKey { owner, start }
}

// Whether a packed number is a key's: below 2 to the 56, with a lawful fork byte.
pub fn is_key(number: u64) -> bool
    ensures { result ≡ says (dec_key number) }
{
    number < KEY_LIMIT && is_lawful((number / 65_536 % 256) as u32)
}

// The key of a packed number, to be compared.
pub fn unpack(number: u64) -> SortKey
    ensures { rank_of result ≡ rank (unpacked number) }
{
    let owner = number / 65_536;
    let start = (number % 65_536) as u32;
    SortKey { owner, start }
}

pub fn is_below(a: SortKey, b: SortKey) -> bool
    ensures { result ≡ ltb (rank_of a) (rank_of b) }
{
    a < b
}

pub fn is_same(a: SortKey, b: SortKey) -> bool
    ensures { result ≡ eqb (rank_of a) (rank_of b) }
{
    a == b
}

// The key that stands at a byte of the image, which has it whole: no key is longer than 12 bytes. Of a form the edition alone counts, so any numbers do.
pub fn key_in(form: FormNumbers, image: &[u8], at: usize) -> SortKey
    requires { at + 12 ≤ length image.now }
    ensures { rank_of result ≡ rank (key_at form image.now at) }
{
    match form.edition() {
        Edition::Hfs => sort_key(
            be32_in(image, at + 2),
            image[at + 1],
            be16_in(image, at + 6),
        ),
        Edition::HfsPlus => sort_key(
            be32_in(image, at + 4),
            image[at + 2],
            be32_in(image, at + 8),
        ),
    }
}

// The key that stands at a byte of the image: one test for all its bytes.
pub fn key_at(form: FormNumbers, image: &[u8], at: usize) -> SortKey
    requires { at < 1000000000000000 }
    ensures { rank_of result ≡ rank (key_at form image.now at) }
{
    if image.len() >= 12 && at <= image.len() - 12 {
        return key_in(form, image, at);
    }
    key_in(form, &bytes_from::<12>(image, at), 0)
}
