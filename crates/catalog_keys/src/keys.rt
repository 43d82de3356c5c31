// The keys of catalog records, compared where they stand in an image or with one that is asked for. Past the image's end all is 0.
ghost use Rattle.std.specs.Prelude.{◌≡◌, ◌<◌, eqb, ltb, pos};
ghost use Rattle.btree.specs.Ranked.{ranked};
ghost use Rattle.catalog_keys.specs.Weights.{weights};
ghost use Rattle.catalog_keys.specs.Key.{number, key_at, asked, compared, rank, IsShort};

use super::names::{NamedKey, compare_keys};
use super::stored::key_in;
use super::weights::character_order;
use image::bytes::bytes_from;
use std::cmp::Ordering;

// The key at a byte of the image, and the one at another. One test for all bytes of each.
pub fn compare(table: &[u8; 256], image: &[u8], a: usize, b: usize) -> Ordering
    requires { (table.now ≡ weights) × (a < 1000000000000000) × (b < 1000000000000000) }
    ensures equal { number result ≡ compared (key_at image.now a) (key_at image.now b) }
    ensures order { number result ≡ ranked (rank (key_at image.now a)) (rank (key_at image.now b)) (pos 0) }
{
    if a + 38 <= image.len() && b + 38 <= image.len() {
        return compare_keys(table, key_in(image, a), key_in(image, b));
    }
    let first = bytes_from::<38>(image, a);
    let second = bytes_from::<38>(image, b);
    compare_keys(table, key_in(&first, 0), key_in(&second, 0))
}

// A key that is asked for, and the one at a byte of the image. Of a longer name the first 31 bytes are compared.
pub fn compare_asked(parent: u64, name: &[u8], image: &[u8], at: usize) -> Ordering
    requires { at < 1000000000000000 }
    ensures equal { IsShort (asked parent name.now) → number result ≡ compared (asked parent name.now) (key_at image.now at) }
    ensures order { number result ≡ ranked (rank (asked parent name.now)) (rank (key_at image.now at)) (pos 0) }
{
    let table = character_order();
    let n = name.len().min(31);
    let wanted = NamedKey {
        parent,
        name: &name[..n],
    };
    if at + 38 <= image.len() {
        return compare_keys(&table, wanted, key_in(image, at));
    }
    let bytes = bytes_from::<38>(image, at);
    compare_keys(&table, wanted, key_in(&bytes, 0))
}

// For many comparisons, with one table of weights.
pub fn is_below(table: &[u8; 256], image: &[u8], a: usize, b: usize) -> bool
    requires { (table.now ≡ weights) × (a < 1000000000000000) × (b < 1000000000000000) }
    ensures { result ≡ ltb (rank (key_at image.now a)) (rank (key_at image.now b)) }
{
    compare(table, image, a, b).is_lt()
}

// A function for each question that is asked, as the definitions are two (`ltb`, `eqb`).
pub fn below_at(image: &[u8], a: usize, b: usize) -> bool
    requires { (a < 1000000000000000) × (b < 1000000000000000) }
    ensures { result ≡ ltb (rank (key_at image.now a)) (rank (key_at image.now b)) }
{
    is_below(&character_order(), image, a, b)
}

pub fn same_at(image: &[u8], a: usize, b: usize) -> bool
    requires { (a < 1000000000000000) × (b < 1000000000000000) }
    ensures { result ≡ eqb (rank (key_at image.now a)) (rank (key_at image.now b)) }
{
    compare(&character_order(), image, a, b).is_eq()
}

pub fn asked_below(parent: u64, name: &[u8], image: &[u8], at: usize) -> bool
    requires { at < 1000000000000000 }
    ensures { result ≡ ltb (rank (asked parent name.now)) (rank (key_at image.now at)) }
{
    compare_asked(parent, name, image, at).is_lt()
}

pub fn asked_same(parent: u64, name: &[u8], image: &[u8], at: usize) -> bool
    requires { at < 1000000000000000 }
    ensures { result ≡ eqb (rank (key_at image.now at)) (rank (asked parent name.now)) }
{
    compare_asked(parent, name, image, at).is_eq()
}
