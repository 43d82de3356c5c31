// Whether each key of a node is above the one before: the one loop over keys in which the trees part, for speed.
ghost use Rattle.std.specs.Prelude.{◌≡◌, ◌<◌};
ghost use Rattle.btree.specs.Tells.{Tells};
ghost use Rattle.formats.specs.Format.{view};
ghost use Rattle.nodes.specs.Inside.{RecordsIn};
ghost use Rattle.order.specs.Whole.{Ascends};

use catalog_keys::weights::character_order;
use extent_keys::key::key_in;
use formats::records::{record_at, record_step};
use frame::form::Form;
use frame::node::count_of;

// Each key of an extents node is read once.
pub fn extents_ascend(form: Form, image: &[u8], node: u32) -> bool
    requires { (form.tree ≡ 0) × RecordsIn form image.now node }
    ensures { Tells result (Ascends (view form image.now) node) }
{
    let c = count_of(form, image, node);
    if c == 0 {
        return true;
    }
    let step = record_step(form, image, node);
    let mut at = record_at(form, image, node, 0);
    let numbers = form.numbers();
    let mut key = key_in(numbers, image, at);
    for _i in 0..c - 1 {
        at += step;
        let next = key_in(numbers, image, at);
        if !extent_keys::key::is_below(key, next) {
            return false;
        }
        key = next;
    }
    true
}

// The keys of a catalog node are compared where they stand; the table of weights is named once.
pub fn catalog_ascends(form: Form, image: &[u8], node: u32) -> bool
    requires { (0 < form.tree) × RecordsIn form image.now node }
    ensures { Tells result (Ascends (view form image.now) node) }
{
    let table = character_order();
    let c = count_of(form, image, node);
    let mut at = record_at(form, image, node, 0);
    for i in 1..c {
        let next = record_at(form, image, node, i);
        if !catalog_keys::keys::is_below(&table, image, at, next) {
            return false;
        }
        at = next;
    }
    true
}
