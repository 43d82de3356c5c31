// The records of an HFS node.
ghost use Rattle.std.specs.Prelude.{◌≡◌, true, ◌+◌, ◌*◌, ◌≤◌, length};
ghost use Rattle.image.specs.Bytes.{be64_at};
ghost use Rattle.frame.specs.Form.{hfs};
ghost use Rattle.fast_nodes.specs.Passes.{Recorded};

use fast_records::is_keyed;
use frame::form::{Edition, Form, Tree};
use image::within::{be16_in, byte_in};

// The form of the extents overflow file of an HFS volume.
pub fn is_hfs(form: Form) -> bool
    ensures { result ≡ true → form ≡ hfs }
{
    form.edition() == Edition::Hfs && form.tree() == Tree::Extents && form.size() == 512
}

// What the nodes of a kind have: the kind, the size of a record, and the most of them.
#[derive(Clone, Copy)]
pub struct Rows {
    pub kind: u32,
    pub size: u32,
    pub most: u32,
}

pub const LEAF: Rows = Rows {
    kind: 255,
    size: 20,
    most: 22,
};

pub const INDEX: Rows = Rows {
    kind: 0,
    size: 12,
    most: 35,
};

// Kind, reserved word, count and records of the node that starts at this byte, of which the first key has these eight bytes.
pub fn records_right(image: &[u8], start: usize, rows: Rows, raw: u64, top: u64) -> bool
    requires { (start + 512 ≤ length image.now) × (rows.size ≤ 20) × (rows.most ≤ 35) × (rows.most * rows.size + 2 * rows.most ≤ 496) × (raw ≡ be64_at image.now (start + 14)) }
    ensures { result ≡ true → Recorded image.now start rows.kind rows.size top }
{
    if byte_in(image, start + 8) != rows.kind {
        return false;
    }
    if be16_in(image, start + 12) != 0 {
        return false;
    }
    let c = be16_in(image, start + 10);
    if c == 0 {
        return false;
    }
    if c > rows.most {
        return false;
    }
    is_keyed(image, start, rows.size, c, raw, top)
}
