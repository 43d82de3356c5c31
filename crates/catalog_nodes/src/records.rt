// The records of a catalog node: where they stand, and test 5 of them.
ghost use Rattle.std.specs.Prelude.{◌≡◌, ◌+◌, ◌*◌, ◌<◌, ◌≤◌, length};
ghost use Rattle.btree.specs.Header.{count_of};
ghost use Rattle.btree.specs.Tells.{Tells};
ghost use Rattle.frame.specs.Form.{layout_of};
ghost use Rattle.frame.specs.Kinds.{kind_number};
ghost use Rattle.catalog_nodes.specs.Node.{max_records, key_length_of, size_of_type, after_key, data_at, type_at, record_end, RecordRight, offset_word, word_at, CatalogRecords};
ghost use Rattle.catalog_nodes.specs.Begun.{Begun};

use frame::form::Form;
use frame::kind::Kind;
use frame::node::start_of;
use image::bytes::{be16, byte_at};
use image::within::{be16_in, byte_in};

// The offset word of record i. Beyond the node's bytes it reads at the node's start.
#[tactic(auto, unfolding(crate::specs::Node::offset_word))]
pub fn offset_word(form: Form, image: &[u8], node: u32, i: u32) -> u32
    ensures { (result ≡ offset_word form image.now node i) × (result < 65536) }
{
    let start = start_of(form, node);
    let back = 2 * (i as usize) + 2;
    let size = form.size() as usize;
    if back > size {
        return be16(image, start);
    }
    be16(image, start + (size - back))
}

// Where record i starts of a node that the image has.
#[tactic(auto, unfolding(crate::specs::Node::offset_word))]
fn word_in(form: Form, image: &[u8], node: u32, i: u32) -> usize
    requires { (node * form.size + form.size ≤ length image.now) × (i ≤ 11) }
    ensures { (result ≡ word_at form image.now node i) × (result < 200000000000000) }
{
    let start = start_of(form, node);
    let back = 2 * (i as usize) + 2;
    start + (be16_in(image, start + (form.size() as usize - back)) as usize)
}

// The first even byte after a key of 1 + length bytes.
#[tactic(auto, unfolding(crate::specs::Node::after_key))]
fn after_key(at: usize, length: u32) -> usize
    requires { (at < 200000000000000) × (length < 256) }
    ensures { (result ≡ after_key at length) × (result ≤ at + length + 2) }
{
    let end = at + (1 + (length as usize));
    end + end % 2
}

// Where the data starts of the leaf record that starts at a byte of the image.
pub fn data_at(image: &[u8], at: usize) -> usize
    requires { at < 200000000000000 }
    ensures { (result ≡ data_at image.now at) × (result < 200000000001000) }
{
    after_key(at, byte_at(image, at))
}

#[tactic(auto, unfolding(crate::specs::Node::type_at))]
pub fn type_at(image: &[u8], at: usize) -> u32
    requires { at < 200000000000000 }
    ensures { (result ≡ type_at image.now at) × (result < 256) }
{
    byte_at(image, data_at(image, at))
}

// Bytes of a leaf record's data, by the type's byte: any byte has an answer, and C is given the byte.
#[tactic(auto, unfolding(crate::specs::Node::size_of_type))]
pub fn size_of_type(t: u32) -> u32
    ensures { (result ≡ size_of_type t) × (result ≤ 102) }
{
    match t {
        1 => 70,
        2 => 102,
        3 | 4 => 46,
        _ => 0,
    }
}

#[tactic(auto, unfolding(crate::specs::Node::max_records))]
fn max_records(kind: Kind) -> u32
    ensures { result ≡ max_records (kind_number kind) }
{
    match kind {
        Kind::Index => 11,
        Kind::Leaf => 8,
    }
}

#[tactic(auto, unfolding(crate::specs::Node::key_length_of))]
fn key_length(kind: Kind, name: u32) -> u32
    requires { name < 256 }
    ensures { result ≡ key_length_of (kind_number kind) name }
{
    match kind {
        Kind::Index => 37,
        Kind::Leaf => 6 + name,
    }
}

// The record that starts at a byte of the image: the lengths of its name and key, and a leaf record's type.
#[tactic(auto, unfolding(crate::specs::Node::key_length_of, crate::specs::Node::type_at))]
fn record_right(image: &[u8], kind: Kind, at: usize) -> bool
    requires { (at < 200000000000000) × (at + 42 ≤ length image.now) }
    ensures { Tells result (RecordRight image.now (kind_number kind) at) }
{
    let name = byte_in(image, at + 6);
    let length = byte_in(image, at);
    name <= 31
        && length == key_length(kind, name)
        && match kind {
            Kind::Index => true,
            Kind::Leaf => matches!(byte_in(image, after_key(at, length)), 1..=4),
        }
}

// Where it ends.
#[tactic(auto, unfolding(crate::specs::Node::key_length_of, crate::specs::Node::type_at, crate::specs::Node::record_end))]
fn record_end(image: &[u8], kind: Kind, at: usize) -> usize
    requires { (at < 200000000000000) × (at + 42 ≤ length image.now) × RecordRight image.now (kind_number kind) at }
    ensures { result ≡ record_end image.now (kind_number kind) at }
{
    match kind {
        Kind::Index => at + 42,
        Kind::Leaf => {
            let data = after_key(at, byte_in(image, at));
            data + (size_of_type(byte_in(image, data)) as usize)
        }
    }
}

// Each of c records is right and ends where the next starts, and the last before the offset words.
fn chain_right(form: Form, image: &[u8], node: u32, kind: Kind, c: u32) -> bool
    requires { Begun form image.now (kind_number kind) node c }
    ensures { Tells result (CatalogRecords form image.now (kind_number kind) node) }
{
    let start = start_of(form, node);
    let end = start + (form.size() as usize - 2 * (c as usize + 1));
    let mut at = start + 14;
    for i in 0..c {
        // No record is shorter, so the bytes read of one are in the node.
        if at + 42 > end || !record_right(image, kind, at) {
            return false;
        }
        let next = word_in(form, image, node, i + 1);
        if next != record_end(image, kind, at) {
            return false;
        }
        at = next;
    }
    at <= end
}

// Test 5 of the c records of a node, as of a node of this kind.
pub fn records_right(form: Form, image: &[u8], node: u32, kind: Kind, c: u32) -> bool
    requires { (node * form.size + form.size ≤ length image.now) × (c ≡ count_of (layout_of form) image.now node) }
    ensures { Tells result (CatalogRecords form image.now (kind_number kind) node) }
{
    c <= max_records(kind)
        && word_in(form, image, node, 0) == start_of(form, node) + 14
        && chain_right(form, image, node, kind, c)
}
