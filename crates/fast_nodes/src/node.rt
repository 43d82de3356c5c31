// A node of the tree, as the walk comes to it.
ghost use Rattle.std.specs.Prelude.{◌≡◌, true, ◌+◌, ◌-◌, ◌<◌, ◌≤◌, length};
ghost use Rattle.image.specs.Bytes.{be64_at};
ghost use Rattle.frame.specs.Inside.{NodeIn};
ghost use Rattle.order.specs.Bound.{bound};
ghost use Rattle.fast_nodes.specs.Passes.{Passes};

use super::records::{INDEX, LEAF, is_hfs, records_right};
use fast_records::keys::packed_before;
use frame::form::Form;
use frame::node::start_of;
use image::bytes::be16;
use image::within::{be64_in, byte_in};

// The eight bytes of a key are those of the one that stands before `low`, where one does.
fn first_meets(image: &[u8], raw: u64, low: usize) -> bool
    requires { low + 7 ≤ length image.now }
    ensures { result ≡ true → (low ≡ 0 → ⊥) → raw ≡ be64_at image.now (low - 1) }
{
    if low == 0 {
        return true;
    }
    raw == be64_in(image, low - 1)
}

// Tests 5 and 6 of a node with so many levels above it.
pub fn node_passes(form: Form, image: &[u8], node: u32, above: u32, low: usize, high: usize) -> bool
    requires { NodeIn form image.now node × (above < 8) × (low < 1000000000000000) × (high < 1000000000000000) }
    ensures { result ≡ true → Passes form image.now node above (bound form image.now low) (bound form image.now high) }
{
    if !is_hfs(form) {
        return false;
    }
    if low + 7 > image.len() {
        return false;
    }
    if high + 7 > image.len() {
        return false;
    }
    let start = start_of(form, node);
    let raw = be64_in(image, start + 14);
    if !first_meets(image, raw, low) {
        return false;
    }
    let level = byte_in(image, start + 9);
    if level + above != be16(image, 14) {
        return false;
    }
    let top = packed_before(image, high).unwrap_or(u64::MAX);
    if level == 1 {
        return records_right(image, start, LEAF, raw, top);
    }
    records_right(image, start, INDEX, raw, top)
}
