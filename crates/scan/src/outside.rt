// A leaf that cannot have a key: its keys ascend if it counts, so its first and its last tell.
ghost use Rattle.std.specs.Prelude.{◌≡◌, true, List, ℕ};
ghost use Rattle.std.proofs.Math.Option.{none};
ghost use Rattle.formats.specs.Asked.{asked_rank};
ghost use Rattle.scan.specs.Seen.{seen_in};

use extent_keys::key::{SortKey, is_below, key_at};
use formats::records::record_at;
use frame::form::{Form, Tree};
use frame::node::count_of;

// The asked key is below the first key of an extents leaf or above its last; whether the leaf counts need not be known.
pub fn is_outside(form: Form, image: &[u8], node: u32, key: SortKey) -> bool
    ensures { result ≡ true → (name : List ℕ) → seen_in form image.now (asked_rank form key name) node ≡ none }
{
    match form.tree() {
        Tree::Extents => {
            let c = count_of(form, image, node);
            if c == 0 {
                return false;
            }
            let numbers = form.numbers();
            let first = key_at(numbers, image, record_at(form, image, node, 0));
            if is_below(key, first) {
                return true;
            }
            let last = key_at(numbers, image, record_at(form, image, node, c - 1));
            is_below(last, key)
        }
        Tree::Catalog => false,
    }
}
