// The row of leaf records that a fresh tree is laid down from.
#![tactic(auto)]

ghost use Rattle.std.specs.Prelude.{◌≡◌, ◌*◌, length};
ghost use Rattle.btree.specs.Decide.{says};
ghost use Rattle.btree.specs.Tells.{Tells};
ghost use Rattle.leaf_rows.specs.Row.{dec_row_law, KeysRight};

use extent_keys::key::{is_below, key_in};
use extent_nodes::records::key_lawful;
use frame::form::of_hfs;

// The keys of so many records: each is lawful and above the one before. Each is read once.
fn keys_right(row: &[u8], count: usize) -> bool
    requires { length row.now ≡ count * 20 }
    ensures { Tells result (KeysRight row.now count) }
{
    if count == 0 {
        return true;
    }
    let form = of_hfs().numbers();
    if !key_lawful(form, row, 0) {
        return false;
    }
    let mut key = key_in(form, row, 0);
    for i in 1..count {
        let at = 20 * i;
        if !key_lawful(form, row, at) {
            return false;
        }
        let next = key_in(form, row, at);
        if !is_below(key, next) {
            return false;
        }
        key = next;
    }
    true
}

// Whether a row is of whole records with lawful keys that strictly ascend.
pub fn row_right(row: &[u8]) -> bool
    ensures { result ≡ says (dec_row_law row.now) }
{
    if row.len() % 20 != 0 {
        return false;
    }
    keys_right(row, row.len() / 20)
}
