// The fields of a node's first bytes. A node that the image does not have reads as zeros.
ghost use Rattle.std.specs.Prelude.{◌≡◌, ◌+◌, ◌-◌, ◌*◌, ◌<◌, ◌≤◌, get_or};
ghost use Rattle.image.specs.Bytes.{be16_at};
ghost use Rattle.btree.specs.Header.{forward_of, back_of, count_of};
ghost use Rattle.frame.specs.Form.{layout_of};

use super::form::Form;
use image::bytes::{be16, be32, byte_at};

// Where a node starts in the image: the one product of two variables.
pub fn start_of(form: Form, node: u32) -> usize
    ensures { (result ≡ node * form.size) × (result < 140737488355328) }
{
    (node as usize) * (form.size() as usize)
}

pub fn forward_of(form: Form, image: &[u8], node: u32) -> u32
    ensures { result ≡ forward_of (layout_of form) image.now node }
{
    be32(image, start_of(form, node))
}

pub fn back_of(form: Form, image: &[u8], node: u32) -> u32
    ensures { result ≡ back_of (layout_of form) image.now node }
{
    be32(image, start_of(form, node) + 4)
}

pub fn kind_of(form: Form, image: &[u8], node: u32) -> u32
    ensures { (result ≡ get_or image.now (node * form.size + 8) 0) × (result < 256) }
{
    byte_at(image, start_of(form, node) + 8)
}

pub fn level_of(form: Form, image: &[u8], node: u32) -> u32
    ensures { (result ≡ get_or image.now (node * form.size + 9) 0) × (result < 256) }
{
    byte_at(image, start_of(form, node) + 9)
}

pub fn count_of(form: Form, image: &[u8], node: u32) -> u32
    ensures { (result ≡ count_of (layout_of form) image.now node) × (result < 65536) }
{
    be16(image, start_of(form, node) + 10)
}

pub fn reserved_of(form: Form, image: &[u8], node: u32) -> u32
    ensures { (result ≡ be16_at image.now (node * form.size + 12)) × (result < 65536) }
{
    be16(image, start_of(form, node) + 12)
}

// The word that stands `back` bytes before the node's end.
pub fn word_from_end(form: Form, image: &[u8], node: u32, back: usize) -> u32
    requires { back ≤ 512 }
    ensures { (result ≡ be16_at image.now (node * form.size + (form.size - back))) × (result < 65536) }
{
    be16(image, start_of(form, node) + (form.size() as usize - back))
}
