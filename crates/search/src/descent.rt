// The descent from the root to a leaf: to the record with a key, and to the one with the highest key not above it.
ghost use Rattle.std.specs.Prelude.{◌≡◌, ◌≤◌};
ghost use Rattle.btree.specs.Halving.{before};
ghost use Rattle.btree.specs.Search.{in_leaf, with_key, descent_of, floor_of};
ghost use Rattle.formats.specs.Asked.{asked_rank};
ghost use Rattle.formats.specs.Format.{view};
ghost use Rattle.search.specs.Descent.{Searchable, reached_at, Reaches};

use super::halving::halve;
use btree::{Answer, Lookup, Path};
use extent_keys::key::SortKey;
use formats::keys::asked_same;
use formats::records::{child_of, record_at, record_place};
use frame::form::Form;
use image::bytes::{be16, be32};

// Where the search for a key ends: the node, and how many of its records are before the end; the nodes on the way there, and the keys compared.
#[derive(Clone, Copy)]
pub struct Reached {
    pub path: Path,
    pub compared: u32,
    pub node: u32,
    pub end: u32,
}

fn ended(nodes: [u32; 8], len: u32, compared: u32, node: u32, end: u32) -> Reached
    ensures { result ≡ reached_at nodes len compared node end }
{
    let path = Path { nodes, len };
    Reached {
        path,
        compared,
        node,
        end,
    }
}

// From the root down, in each index node by the highest pointer key not above the asked one. With no such key the search ends there, before every record.
fn reach(form: Form, image: &[u8], key: SortKey, name: &[u8]) -> Reached
    requires { Searchable form image.now }
    ensures { Reaches (view form image.now) (asked_rank form key name.now) result }
{
    let depth = be16(image, 14);
    let mut nodes = [0u32; 8];
    if depth == 0 {
        return ended(nodes, 0, 0, 0, 0);
    }
    let mut node = be32(image, 16);
    nodes[0] = node;
    let mut compared: u32 = 0;
    for len in 1..depth {
        let halved = halve(form, image, node, key, name);
        compared += halved.compared;
        let end = halved.end;
        if end == 0 {
            return ended(nodes, len, compared, node, 0);
        }
        node = child_of(form, image, node, end - 1);
        nodes[len as usize] = node;
    }
    let halved = halve(form, image, node, key, name);
    compared += halved.compared;
    ended(nodes, depth, compared, node, halved.end)
}

// What a leaf says of the key where halving ends here: the record before the end may have it.
fn in_leaf(form: Form, image: &[u8], key: SortKey, name: &[u8], node: u32, end: u32) -> Answer
    requires { (end ≤ (view form image.now).count node) }
    ensures { result ≡ in_leaf (view form image.now) node (with_key (view form image.now) (asked_rank form key name.now) node (before end)) }
{
    if end == 0 {
        return Answer::Absent(node);
    }
    let last = record_at(form, image, node, end - 1);
    if asked_same(form, key, name, image, last) {
        return Answer::Found(record_place(form, image, node, end - 1));
    }
    Answer::Absent(node)
}

// The record with the asked key.
pub fn descend(form: Form, image: &[u8], key: SortKey, name: &[u8]) -> Lookup
    requires { Searchable form image.now }
    ensures { result ≡ descent_of (view form image.now) (asked_rank form key name.now) }
{
    let r = reach(form, image, key, name);
    let answer = in_leaf(form, image, key, name, r.node, r.end);
    let path = r.path;
    Lookup {
        answer,
        path,
        compared: r.compared,
    }
}

// The record with the highest key not above the asked one.
pub fn floor(form: Form, image: &[u8], key: SortKey, name: &[u8]) -> Answer
    requires { Searchable form image.now }
    ensures { result ≡ floor_of (view form image.now) (asked_rank form key name.now) }
{
    let r = reach(form, image, key, name);
    if r.end == 0 {
        return Answer::Absent(r.node);
    }
    Answer::Found(record_place(form, image, r.node, r.end - 1))
}
