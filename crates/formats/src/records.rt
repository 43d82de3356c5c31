// The records of a node: where they stand, their children and data.
ghost use Rattle.std.specs.Prelude.{◌≡◌, ◌+◌, ◌<◌, ◌≤◌, length};
ghost use Rattle.image.specs.Part.{Lies};
ghost use Rattle.btree.specs.Places.{image_offset, record_place, child_place};
ghost use Rattle.frame.specs.Form.{layout_of};
ghost use Rattle.frame.specs.Kinds.{kind_of};
ghost use Rattle.extent_nodes.specs.Records.{record_size};
ghost use Rattle.formats.specs.Format.{record_offset, record_at, data_at, data_size_at, view};

use btree::Place;
use catalog_nodes::records::{offset_word, size_of_type, type_at};
use extent_nodes::records::{record_size, records_bytes};
use frame::form::{Form, Tree, key_size};
use frame::node::{kind_of, start_of};
use image::bytes::be32;
use image::part::part_at;

// From one record of an extents node to the next.
pub fn record_step(form: Form, image: &[u8], node: u32) -> usize
    ensures { (result ≡ record_size form (kind_of form image.now node)) × (result ≤ 102) }
{
    record_size(form, kind_of(form, image, node)) as usize
}

// Where record i of a node starts in the image.
pub fn record_at(form: Form, image: &[u8], node: u32, i: u32) -> usize
    ensures { (result ≡ record_at form image.now node i) × (result < 200000000000000) }
{
    match form.tree() {
        Tree::Extents => start_of(form, node)
            + (14 + records_bytes(i, record_step(form, image, node))),
        Tree::Catalog => start_of(form, node) + (offset_word(form, image, node, i) as usize),
    }
}

pub fn child_of(form: Form, image: &[u8], node: u32, i: u32) -> u32
    ensures { result ≡ (view form image.now).child node i }
{
    be32(
        image,
        record_at(form, image, node, i) + (key_size(form) as usize),
    )
}

// Where record i of a node starts in it.
fn record_offset(form: Form, image: &[u8], node: u32, i: u32) -> u32
    requires { (i < (view form image.now).count node) }
    ensures { (result ≡ record_offset form image.now node i) × (result < 7000000) }
{
    match form.tree() {
        Tree::Extents => (14 + records_bytes(i, record_step(form, image, node))) as u32,
        Tree::Catalog => offset_word(form, image, node, i),
    }
}

pub fn record_place(form: Form, image: &[u8], node: u32, i: u32) -> Place
    requires { (i < (view form image.now).count node) }
    ensures { result ≡ record_place (view form image.now) node i }
{
    Place {
        node,
        offset: record_offset(form, image, node, i),
    }
}

// Where the number of the child of record i of an index node stands.
pub fn child_place(form: Form, image: &[u8], node: u32, i: u32) -> Place
    requires { (i < (view form image.now).count node) }
    ensures { result ≡ child_place (view form image.now) node i }
{
    Place {
        node,
        offset: record_offset(form, image, node, i) + key_size(form),
    }
}

// Where the leaf record at a place starts in the image.
pub fn place_at(form: Form, place: Place) -> usize
    ensures { (result ≡ image_offset (layout_of form) place) × (result < 150000000000000) }
{
    start_of(form, place.node) + (place.offset as usize)
}

// Where its data starts.
pub fn data_at(form: Form, image: &[u8], place: Place) -> usize
    ensures { (result ≡ data_at form image.now (image_offset (layout_of form) place)) × (result < 300000000000000) }
{
    let at = place_at(form, place);
    match form.tree() {
        Tree::Extents => at + (key_size(form) as usize),
        Tree::Catalog => catalog_nodes::records::data_at(image, at),
    }
}

// How many bytes its data has.
pub fn data_size(form: Form, image: &[u8], place: Place) -> usize
    ensures { (result ≡ data_size_at form image.now (image_offset (layout_of form) place)) × (result ≤ 102) }
{
    match form.tree() {
        Tree::Extents => extent_nodes::records::data_size(form) as usize,
        Tree::Catalog => size_of_type(type_at(image, place_at(form, place))) as usize,
    }
}

// The data bytes of the leaf record that starts at a place.
pub fn data_of<'a>(form: Form, image: &'a [u8], place: Place) -> &'a [u8]
    requires { (data_at form image.now (image_offset (layout_of form) place) + data_size_at form image.now (image_offset (layout_of form) place) ≤ length image.now) }
    ensures { Lies image.entry result (data_at form image.now (image_offset (layout_of form) place)) (data_size_at form image.now (image_offset (layout_of form) place)) }
{
    part_at(
        image,
        data_at(form, image, place),
        data_size(form, image, place),
    )
}
