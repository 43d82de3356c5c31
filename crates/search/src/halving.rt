// Where among a node's records a key belongs.
ghost use Rattle.std.specs.Prelude.{◌≡◌, ◌≤◌};
ghost use Rattle.btree.specs.Search.{halved_in};
ghost use Rattle.formats.specs.Asked.{asked_rank};
ghost use Rattle.formats.specs.Format.{view};
ghost use Rattle.nodes.specs.Inside.{RecordsIn};

use btree::Halved;
use extent_keys::key::SortKey;
use formats::keys::asked_below;
use formats::records::record_at;
use frame::form::Form;
use frame::node::count_of;

// By halving: as long as records are left, those from low on and before high, on after the middle one or before it. The bound keeps a sum over eight nodes in range.
pub fn halve(form: Form, image: &[u8], node: u32, key: SortKey, name: &[u8]) -> Halved
    requires { RecordsIn form image.now node }
    ensures { (result ≡ halved_in (view form image.now) (asked_rank form key name.now) node) × (result.compared ≤ 16) }
{
    let mut low: u32 = 0;
    let mut high = count_of(form, image, node);
    let mut compared: u32 = 0;
    // Halving moves two bounds and counts no index, so no range has its turns.
    while low < high {
        // Of two the later.
        let middle = (low + high) / 2;
        compared += 1;
        let there = record_at(form, image, node, middle);
        if asked_below(form, key, name, image, there) {
            high = middle;
        } else {
            low = middle + 1;
        }
    }
    Halved { end: low, compared }
}
