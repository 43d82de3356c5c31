// Salvage's scan: the first whole leaf that has a key, whether a tree leads to it or not.
#![tactic(auto)]

ghost use Rattle.std.specs.Prelude.{◌≡◌, ◌-◌, ◌*◌, ◌/◌, ◌<◌, ◌≤◌, length};
ghost use Rattle.btree.specs.Hits.{hit_of};
ghost use Rattle.formats.specs.Asked.{asked_rank};
ghost use Rattle.frame.specs.Inside.{NodeIn};
ghost use Rattle.scan.specs.Seen.{seen_in, seen_from};

use btree::Salvage;
use extent_keys::key::SortKey;
use fast_nodes::leaf::is_whole;
use formats::records::record_place;
use frame::form::Form;
use outside::is_outside;
use record::record_with;

pub mod outside;
pub mod record;

fn seen_in(form: Form, image: &[u8], node: u32, key: SortKey, name: &[u8]) -> Option<u32>
    requires { NodeIn form image.now node }
    ensures { result ≡ hit_of (seen_in form image.now (asked_rank form key name.now) node) }
{
    if is_outside(form, image, node, key) || !is_whole(form, image, node) {
        return None;
    }
    record_with(form, image, node, key, name)
}

// How many whole nodes of this size the image has.
fn nodes_of(size: u32, image: &[u8]) -> usize
    requires { 0 < size }
    ensures { result ≡ length image.now / size }
{
    image.len() / (size as usize)
}

// From node 1 up; a broken last node is not among them.
pub fn first_seen(form: Form, image: &[u8], key: SortKey, name: &[u8]) -> Salvage
    requires { (length image.now ≤ 65536 * form.size) }
    ensures { result ≡ seen_from form image.now (asked_rank form key name.now) 1 (length image.now / form.size - 1) }
{
    let total = nodes_of(form.size(), image) as u32;
    for node in 1..total {
        if let Some(i) = seen_in(form, image, node, key, name) {
            return Salvage::Seen(record_place(form, image, node, i));
        }
    }
    Salvage::NotSeen
}
