// The records of a node: their sizes, and test 5 of them.
ghost use Rattle.std.specs.Prelude.{◌≡◌, ℕ, suc, ◌+◌, ◌-◌, ◌*◌, ◌<◌, ◌≤◌, length};
ghost use Rattle.image.specs.Bytes.{be16_at};
ghost use Rattle.btree.specs.Header.{count_of};
ghost use Rattle.btree.specs.Tells.{Tells};
ghost use Rattle.frame.specs.Form.{layout_of};
ghost use Rattle.frame.specs.Inside.{NodeIn};
ghost use Rattle.frame.specs.Kinds.{kind_number};
ghost use Rattle.extent_nodes.specs.Records.{data_size, record_size, Holds, start_at, KeyLaw, ExtentRecords};

use extent_keys::key::is_lawful;
use frame::form::{Edition, Form, FormNumbers, key_size};
use frame::kind::Kind;
use frame::node::start_of;
use image::within::{be16_in, byte_in};

// Bytes of a leaf record's data.
pub fn data_size(form: Form) -> u32
    ensures { (result ≡ data_size form) × (result ≤ 64) }
{
    match form.edition() {
        Edition::Hfs => 12,
        Edition::HfsPlus => 64,
    }
}

// Bytes of a record of a node of which the kind may be any byte.
#[tactic(auto, unfolding(crate::specs::Records::record_size))]
pub fn record_size(form: Form, kind: u32) -> u32
    ensures { (result ≡ record_size form kind) × (result ≤ 102) }
{
    match Kind::of_byte(kind) {
        Kind::Index => key_size(form) + 4,
        Kind::Leaf => key_size(form) + data_size(form),
    }
}

// The bytes of i records.
pub fn records_bytes(i: u32, size: usize) -> usize
    requires { size ≤ 102 }
    ensures { (result ≡ i * size) × (result < 500000000000) }
{
    (i as usize) * size
}

// The offset words of c records and of the free space after them.
fn offsets_right(form: Form, image: &[u8], node: u32, c: u32, size: u32) -> bool
    requires { NodeIn form image.now node × (2 * c + 2 ≤ form.size) × (size ≤ 102) }
    ensures { Tells result ((i : ℕ) → i < suc c → be16_at image.now (node * form.size + (form.size - 2 - 2 * i)) ≡ 14 + i * size) }
{
    let last = start_of(form, node) + (form.size() as usize - 2);
    let mut want: u32 = 14;
    for i in 0..=c {
        if be16_in(image, last - 2 * (i as usize)) != want {
            return false;
        }
        want += size;
    }
    true
}

// The length and the fork byte of the key at a byte of the image, in a form of any numbers.
pub fn key_lawful(form: FormNumbers, image: &[u8], at: usize) -> bool
    requires { (form.tree ≡ 0) × (at + 12 ≤ length image.now) }
    ensures { Tells result (KeyLaw form image.now at) }
{
    match form.edition() {
        Edition::Hfs => byte_in(image, at) == 7 && is_lawful(byte_in(image, at + 1)),
        Edition::HfsPlus => be16_in(image, at) == 10 && is_lawful(byte_in(image, at + 2)),
    }
}

// The same of each of c keys, of records of this size.
fn keys_lawful(form: Form, image: &[u8], node: u32, kind: Kind, c: u32) -> bool
    requires { (form.tree ≡ 0) × NodeIn form image.now node × Holds form (kind_number kind) c × (c < 65536) }
    ensures { Tells result ((i : ℕ) → i < c → KeyLaw form image.now (start_at form (kind_number kind) node i)) }
{
    let numbers = form.numbers();
    let step = record_size(form, kind.number()) as usize;
    let mut at = start_of(form, node) + 14;
    for _i in 0..c {
        if !key_lawful(numbers, image, at) {
            return false;
        }
        at += step;
    }
    true
}

// Test 5 of the c records of a node of this kind.
pub fn records_right(form: Form, image: &[u8], node: u32, kind: Kind, c: u32) -> bool
    requires { (form.tree ≡ 0) × NodeIn form image.now node × (c ≡ count_of (layout_of form) image.now node) × (c < 65536) }
    ensures { Tells result (ExtentRecords form image.now (kind_number kind) node) }
{
    let size = record_size(form, kind.number());
    14 + records_bytes(c, size as usize) + 2 * (c as usize + 1) <= form.size() as usize
        && offsets_right(form, image, node, c, size)
        && keys_lawful(form, image, node, kind, c)
}
