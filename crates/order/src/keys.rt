// Test 6: the order of a node's keys, and the key that points at it.
ghost use Rattle.std.specs.Prelude.{◌≡◌, true, pred, ◌<◌};
ghost use Rattle.btree.specs.Hits.{hit_of};
ghost use Rattle.btree.specs.Tells.{Tells};
ghost use Rattle.btree.specs.Walk.{Under, wrong_key};
ghost use Rattle.btree.specs.Keys.{first_fall, FirstMeets};
ghost use Rattle.formats.specs.Format.{view};
ghost use Rattle.nodes.specs.Inside.{RecordsIn};
ghost use Rattle.order.specs.Bound.{bound};
ghost use Rattle.order.specs.Whole.{Ascends, Rising};

use super::ascent::{catalog_ascends, extents_ascend};
use formats::keys::{is_below, is_same};
use formats::records::record_at;
use frame::form::{Form, Tree};
use frame::node::count_of;

// The first key is the one that points at the node, which stands before `low`; 0 is the root's, which no key points at.
fn first_meets(form: Form, image: &[u8], node: u32, low: usize) -> bool
    requires { RecordsIn form image.now node × (low < 1000000000000000) }
    ensures { Tells result (FirstMeets (view form image.now) (bound form image.now low) node) }
{
    if low == 0 || count_of(form, image, node) == 0 {
        return true;
    }
    is_same(form, image, record_at(form, image, node, 0), low - 1)
}

// Each key is above the one before.
pub fn keys_ascend(form: Form, image: &[u8], node: u32) -> bool
    requires { RecordsIn form image.now node }
    ensures { Tells result (Ascends (view form image.now) node) }
{
    match form.tree() {
        Tree::Extents => extents_ascend(form, image, node),
        Tree::Catalog => catalog_ascends(form, image, node),
    }
}

// The key of record i is above the one before.
fn over_before(form: Form, image: &[u8], node: u32, i: u32) -> bool
    ensures { Tells result (0 < i → (view form image.now).key node (pred i) < (view form image.now).key node i) }
{
    if i == 0 {
        return true;
    }
    is_below(
        form,
        image,
        record_at(form, image, node, i - 1),
        record_at(form, image, node, i),
    )
}

// The key of record i is below the one that stands before `high`, where one does.
fn is_under(form: Form, image: &[u8], node: u32, i: u32, high: usize) -> bool
    requires { high < 1000000000000000 }
    ensures { Tells result (Under ((view form image.now).key node i) (bound form image.now high)) }
{
    if high == 0 {
        return true;
    }
    is_below(form, image, record_at(form, image, node, i), high - 1)
}

// The first record of which one of these fails.
fn first_fall(form: Form, image: &[u8], node: u32, high: usize) -> Option<u32>
    requires { high < 1000000000000000 }
    ensures { result ≡ hit_of (first_fall (view form image.now) (bound form image.now high) node) }
{
    for i in 0..count_of(form, image, node) {
        if !over_before(form, image, node, i) || !is_under(form, image, node, i, high) {
            return Some(i);
        }
    }
    None
}

// The keys of a node ascend, to one below the key that stands before `high`, where one does.
fn keys_rise(form: Form, image: &[u8], node: u32, high: usize) -> bool
    requires { RecordsIn form image.now node × (high < 1000000000000000) }
    ensures { result ≡ true → Rising (view form image.now) (bound form image.now high) node }
{
    let c = count_of(form, image, node);
    if c == 0 || !keys_ascend(form, image, node) {
        return false;
    }
    is_under(form, image, node, c - 1, high)
}

// Test 6: the first record whose key is not right. Keys that ascend from the one that points at the node are not below it, and are below what the last is
// below, so that one pass over them says of most nodes that there is none.
pub fn wrong_key(form: Form, image: &[u8], node: u32, low: usize, high: usize) -> Option<u32>
    requires { RecordsIn form image.now node × (low < 1000000000000000) × (high < 1000000000000000) }
    ensures { result ≡ hit_of (wrong_key (view form image.now) (bound form image.now low) (bound form image.now high) node) }
{
    if !first_meets(form, image, node, low) {
        return Some(0);
    }
    if keys_rise(form, image, node, high) {
        return None;
    }
    first_fall(form, image, node, high)
}
