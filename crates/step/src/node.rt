// The tests at a node of the tree: 4, 5, 6, 7.
ghost use Rattle.std.specs.Prelude.{◌≡◌, true};
ghost use Rattle.btree.specs.Decide.{says};
ghost use Rattle.btree.specs.Faults.{verdict_of};
ghost use Rattle.btree.specs.Walk.{dec_leads, test};
ghost use Rattle.formats.specs.Format.{view};
ghost use Rattle.frame.specs.Inside.{NodeIn};
ghost use Rattle.step.specs.State.{fresh_in, entry};
ghost use Rattle.step.specs.Formed.{Formed};

use super::pointer::Pointer;
use btree::fault::{Fault, Refusal};
use fast_nodes::node::node_passes;
use formats::records::record_place;
use frame::form::Form;
use frame::node::{back_of, forward_of};
use image::bytes::bit_at;
use nodes::form::node_right;
use order::keys::wrong_key;

// Test 4.
pub fn is_fresh(bits: &[u8], total: u32, node: u32) -> bool
    ensures { result ≡ fresh_in total bits.now node }
{
    node < total && bit_at(bits, node as usize) == 0
}

// Whether the node p, where it is one, has the forward link `node`.
pub fn leads(form: Form, image: &[u8], p: u32, node: u32) -> bool
    ensures { result ≡ says (dec_leads (view form image.now) p node) }
{
    p == 0 || forward_of(form, image, p) == node
}

// Tests 5 and 6, which most nodes surely pass; only where one may not is the fault looked for.
fn formed(form: Form, image: &[u8], e: Pointer) -> Result<(), Fault>
    requires { NodeIn form image.now e.node }
    ensures { Formed (view form image.now) (entry form image.now e) result }
{
    if node_passes(form, image, e.node, e.level, e.low, e.high) {
        return Ok(());
    }
    if !node_right(form, image, e.node, e.level) {
        return Err(Fault::at_node(Refusal::NodeForm, e.node));
    }
    if let Some(i) = wrong_key(form, image, e.node, e.low, e.high) {
        let place = record_place(form, image, e.node, i);
        return Err(Fault {
            refusal: Refusal::Key,
            place,
        });
    }
    Ok(())
}

// The tests at a node: 4, 5, 6, 7. Of the walk they need whether the node is fresh, and the node met before it on its level.
pub fn tested(form: Form, image: &[u8], fresh: bool, p: u32, e: Pointer) -> Result<(), Fault>
    requires { fresh ≡ true → NodeIn form image.now e.node }
    ensures { verdict_of result ≡ test (view form image.now) fresh p (entry form image.now e) }
{
    if !fresh {
        return Err(Fault {
            refusal: Refusal::ChildNumber,
            place: e.from,
        });
    }
    formed(form, image, e)?;
    if back_of(form, image, e.node) != p {
        return Err(Fault::at_byte(Refusal::SiblingLink, e.node, 4));
    }
    if !leads(form, image, p, e.node) {
        return Err(Fault::at_byte(Refusal::SiblingLink, p, 0));
    }
    Ok(())
}
