// Keys compared where they stand. A function for each question that is asked, as the definitions are two (`ltb`, `eqb`).
ghost use Rattle.std.specs.Prelude.{◌≡◌, ◌+◌, ◌<◌, ◌≤◌, eqb, ltb, length};
ghost use Rattle.formats.specs.Format.{rank_at};
ghost use Rattle.formats.specs.Asked.{asked_rank};

use extent_keys::key::{SortKey, key_at, key_in};
use frame::form::{Form, Tree};

// The key at a byte of the image is below the one at another.
pub fn is_below(form: Form, image: &[u8], a: usize, b: usize) -> bool
    requires { (a < 1000000000000000) × (b < 1000000000000000) }
    ensures { result ≡ ltb (rank_at form image.now a) (rank_at form image.now b) }
{
    match form.tree() {
        Tree::Extents => {
            let numbers = form.numbers();
            extent_keys::key::is_below(key_at(numbers, image, a), key_at(numbers, image, b))
        }
        Tree::Catalog => catalog_keys::keys::below_at(image, a, b),
    }
}

// The key at a byte of the image is the one at another.
pub fn is_same(form: Form, image: &[u8], a: usize, b: usize) -> bool
    requires { (a < 1000000000000000) × (b < 1000000000000000) }
    ensures { result ≡ eqb (rank_at form image.now a) (rank_at form image.now b) }
{
    match form.tree() {
        Tree::Extents => {
            let numbers = form.numbers();
            extent_keys::key::is_same(key_at(numbers, image, a), key_at(numbers, image, b))
        }
        Tree::Catalog => catalog_keys::keys::same_at(image, a, b),
    }
}

// The asked key is below the one at a byte of the image, which has at least 12 bytes from there.
pub fn asked_below(form: Form, key: SortKey, name: &[u8], image: &[u8], at: usize) -> bool
    requires { (at + 12 ≤ length image.now) × (at < 1000000000000000) }
    ensures { result ≡ ltb (asked_rank form key name.now) (rank_at form image.now at) }
{
    match form.tree() {
        Tree::Extents => extent_keys::key::is_below(key, key_in(form.numbers(), image, at)),
        Tree::Catalog => catalog_keys::keys::asked_below(key.owner, name, image, at),
    }
}

// The key at a byte of the image is the asked one.
pub fn asked_same(form: Form, key: SortKey, name: &[u8], image: &[u8], at: usize) -> bool
    requires { at < 1000000000000000 }
    ensures { result ≡ eqb (rank_at form image.now at) (asked_rank form key name.now) }
{
    match form.tree() {
        Tree::Extents => extent_keys::key::is_same(key_at(form.numbers(), image, at), key),
        Tree::Catalog => catalog_keys::keys::asked_same(key.owner, name, image, at),
    }
}
