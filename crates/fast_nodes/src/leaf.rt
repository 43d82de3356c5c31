// A leaf, as the walk comes to it and as salvage does.
ghost use Rattle.std.specs.Prelude.{◌≡◌, true, ◌+◌, ◌<◌, ◌≤◌, length, IfSome, OnSome};
ghost use Rattle.image.specs.Bytes.{be64_at};
ghost use Rattle.btree.specs.Decide.{says};
ghost use Rattle.btree.specs.Header.{count_of};
ghost use Rattle.frame.specs.Form.{hfs, layout_of};
ghost use Rattle.frame.specs.Inside.{NodeIn};
ghost use Rattle.order.specs.Whole.{WholeLeaf, dec_whole_leaf};
ghost use Rattle.fast_records.specs.Keyed.{Keyed};
ghost use Rattle.fast_nodes.specs.Passes.{LeafHead, LeafPasses};

use super::records::{LEAF, is_hfs, records_right};
use fast_records::{is_full, is_keyed};
use frame::form::Form;
use frame::node::start_of;
use image::within::{be16_in, be32_in, be64_in, byte_in};

// Kind FF, level 1, and the reserved word.
fn is_leaf(image: &[u8], start: usize) -> bool
    requires { start + 512 ≤ length image.now }
    ensures { result ≡ true → LeafHead image.now start }
{
    if byte_in(image, start + 8) != 255 {
        return false;
    }
    if byte_in(image, start + 9) != 1 {
        return false;
    }
    be16_in(image, start + 12) == 0
}

// The c records of the leaf that starts at this byte, of which the first key has these eight bytes, with keys below `top`.
fn is_keyed_leaf(image: &[u8], start: usize, c: u32, raw: u64, top: u64) -> bool
    requires { (start + 512 ≤ length image.now) × (raw ≡ be64_at image.now (start + 14)) }
    ensures { result ≡ true → (0 < c) × (c ≤ 22) × Keyed image.now start 20 c top }
{
    match c {
        22 => is_full(image, start, raw, top),
        1..=21 => is_keyed(image, start, 20, c, raw, top),
        _ => false,
    }
}

// How many records a leaf has that surely passes tests 5 and 6 and has this back link, where its pointer key has these eight bytes and its keys are below
// `top`; None says nothing.
pub fn records_of_passing(image: &[u8], node: u32, before: u32, raw: u64, top: u64) -> Option<u32>
    requires { NodeIn hfs image.now node }
    ensures passes { OnSome result (LeafPasses image.now node before raw top) }
    ensures count { IfSome result (λ c. (c ≡ count_of (layout_of hfs) image.now node) × (c < 65536)) }
{
    let start = (node as usize) * 512;
    if be32_in(image, start + 4) != before {
        return None;
    }
    if be64_in(image, start + 14) != raw {
        return None;
    }
    if !is_leaf(image, start) {
        return None;
    }
    let c = be16_in(image, start + 10);
    if !is_keyed_leaf(image, start, c, raw, top) {
        return None;
    }
    Some(c)
}

// A leaf that is whole by itself.
fn surely_whole(form: Form, image: &[u8], node: u32) -> bool
    requires { NodeIn form image.now node }
    ensures { result ≡ true → WholeLeaf form image.now node }
{
    if !is_hfs(form) {
        return false;
    }
    let start = start_of(form, node);
    let raw = be64_in(image, start + 14);
    records_right(image, start, LEAF, raw, u64::MAX)
}

// A node counts whatever its level and its links.
pub fn is_whole(form: Form, image: &[u8], node: u32) -> bool
    requires { NodeIn form image.now node }
    ensures { result ≡ says (dec_whole_leaf form image.now node) }
{
    if surely_whole(form, image, node) {
        return true;
    }
    order::whole::is_whole(form, image, node)
}
