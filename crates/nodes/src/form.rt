// Test 5: the form of a node and of its records.
ghost use Rattle.std.specs.Prelude.{◌≡◌, ◌<◌};
ghost use Rattle.btree.specs.Decide.{says};
ghost use Rattle.frame.specs.Inside.{NodeIn};
ghost use Rattle.frame.specs.Kinds.{kind_number, kind_on};
ghost use Rattle.formats.specs.Format.{dec_records, view};

use frame::form::{Form, Tree};
use frame::kind::Kind;
use frame::node::{count_of, kind_of, level_of, reserved_of};
use image::bytes::be16;

// The tests of 5 without the level, of a node of this kind.
pub fn records_right(form: Form, image: &[u8], node: u32, kind: Kind) -> bool
    requires { NodeIn form image.now node }
    ensures { result ≡ says (dec_records form image.now (kind_number kind) node) }
{
    let c = count_of(form, image, node);
    if kind_of(form, image, node) != kind.number()
        || reserved_of(form, image, node) != 0
        || c == 0
    {
        return false;
    }
    match form.tree() {
        Tree::Extents => extent_nodes::records::records_right(form, image, node, kind, c),
        Tree::Catalog => catalog_nodes::records::records_right(form, image, node, kind, c),
    }
}

// Leaves are the nodes of level 1.
#[tactic(auto, unfolding(frame::specs::Kinds::kind_on))]
fn kind_on(level: u32) -> Kind
    ensures { kind_number result ≡ kind_on level }
{
    if level == 1 { Kind::Leaf } else { Kind::Index }
}

// Test 5, of a node with so many levels above it. The level of the root, which has none above it, is the depth.
pub fn node_right(form: Form, image: &[u8], node: u32, above: u32) -> bool
    requires { NodeIn form image.now node × (above < 8) }
    ensures { result ≡ says ((view form image.now).dec_well_formed node above) }
{
    let level = level_of(form, image, node);
    let depth = be16(image, 14);
    let is_at_its_level = level + above == depth;
    is_at_its_level && records_right(form, image, node, kind_on(level))
}
