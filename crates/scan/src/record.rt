// Which record of a node has a key.
ghost use Rattle.std.specs.Prelude.{◌≡◌};
ghost use Rattle.btree.specs.Hits.{hit_of};
ghost use Rattle.btree.specs.Search.{record_with};
ghost use Rattle.formats.specs.Asked.{asked_rank};
ghost use Rattle.formats.specs.Format.{view};

use extent_keys::key::SortKey;
use formats::keys::asked_same;
use formats::records::record_at;
use frame::form::Form;
use frame::node::count_of;

// The first record of a node that has the key.
pub fn record_with(form: Form, image: &[u8], node: u32, key: SortKey, name: &[u8]) -> Option<u32>
    ensures { result ≡ hit_of (record_with (view form image.now) node (asked_rank form key name.now) 0 ((view form image.now).count node)) }
{
    for i in 0..count_of(form, image, node) {
        if asked_same(form, key, name, image, record_at(form, image, node, i)) {
            return Some(i);
        }
    }
    None
}
