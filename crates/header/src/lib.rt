// Tests 1 and 2: the image's length and the header node.
#![tactic(auto)]

ghost use Rattle.std.specs.Prelude.{◌≡◌, ◌<◌};
ghost use Rattle.btree.specs.Decide.{says};
ghost use Rattle.btree.specs.Tests.{dec_descriptor, dec_no_tree, dec_lengths, dec_header_node};
ghost use Rattle.frame.specs.Form.{key_length, layout_of};
ghost use Rattle.header.specs.Offsets.{dec_offsets};

use frame::form::{Form, header_map, key_length};
use image::bytes::{be16, be32, byte_at};

// Test 1.
pub fn length_right(form: Form, image: &[u8]) -> bool
    ensures { result ≡ says (dec_lengths (layout_of form) image.now) }
{
    let len = image.len();
    let size = form.size() as usize;
    len % size == 0 && len >= size && len <= 65_536 * size
}

// The first 14 bytes of the header node or of a map node, which stands at this byte of the image. Their kinds, 1 and 2, are compared here and nowhere else.
pub fn descriptor_right(image: &[u8], at: usize, kind: u32, records: u32) -> bool
    requires { at < 140737488355328 }
    ensures { result ≡ says (dec_descriptor image.now at kind records) }
{
    be32(image, at + 4) == 0
        && byte_at(image, at + 8) == kind
        && byte_at(image, at + 9) == 0
        && be16(image, at + 10) == records
        && be16(image, at + 12) == 0
}

// The header's four offset words.
fn offsets_right(form: Form, image: &[u8]) -> bool
    ensures { result ≡ says (dec_offsets (layout_of form) image.now) }
{
    let size = form.size() as usize;
    (be16(image, size - 8) as usize) == 0x00F8 + header_map(form)
        && be16(image, size - 6) == 0x00F8
        && be16(image, size - 4) == 0x0078
        && be16(image, size - 2) == 0x000E
}

// A tree of depth 0 has no root, no leaf and no record.
fn no_tree(image: &[u8]) -> bool
    ensures { result ≡ says (dec_no_tree image.now) }
{
    be32(image, 16) == 0 && be32(image, 20) == 0 && be32(image, 24) == 0 && be32(image, 28) == 0
}

// Test 2.
pub fn header_right(form: Form, image: &[u8]) -> bool
    ensures { result ≡ says (dec_header_node (layout_of form) image.now (key_length form)) }
{
    let depth = be16(image, 14);
    descriptor_right(image, 0, 1, 3)
        && offsets_right(form, image)
        && be16(image, 32) == form.size()
        && be16(image, 34) == key_length(form)
        && (be32(image, 36) as usize) == image.len() / (form.size() as usize)
        && depth <= 8
        && (depth != 0 || no_tree(image))
}
