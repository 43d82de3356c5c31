// The tests at the end of the walk: the last links, and test 8.
ghost use Rattle.std.specs.Prelude.{◌≡◌, ◌≤◌};
ghost use Rattle.btree.specs.Decide.{says};
ghost use Rattle.btree.specs.Faults.{verdict_of};
ghost use Rattle.btree.specs.Walk.{dec_totals, closing};
ghost use Rattle.frame.specs.declared.form.Form.{Form};
ghost use Rattle.formats.specs.Format.{view};
ghost use Rattle.step.specs.State.{last_at};

use btree::fault::{Fault, Refusal};
use frame::form::Form;
use image::bytes::{be16, be32};
use step::node::leads;
use step::state::{Walk, last_on};

// Test 8.
fn totals_right(image: &[u8], first: u32, last: u32, records: u32) -> bool
    ensures { (form : Form) → result ≡ says (dec_totals (view form image.now) first last records) }
{
    if be32(image, 24) != first {
        return false;
    }
    if be32(image, 28) != last {
        return false;
    }
    be32(image, 20) == records
}

// The last node's forward link of each level from the root down; then test 8.
pub fn closing_tests(form: Form, image: &[u8], w: Walk) -> Result<(), Fault>
    requires { (view form image.now).depth ≤ 8 }
    ensures { verdict_of result ≡ closing (view form image.now) (last_at w) w.first w.records }
{
    let depth = be16(image, 14);
    for d in 0..depth {
        let p = last_on(w, d);
        if !leads(form, image, p, 0) {
            return Err(Fault::at_byte(Refusal::SiblingLink, p, 0));
        }
    }
    let last = last_on(w, depth.saturating_sub(1));
    if !totals_right(image, w.first, last, w.records) {
        return Err(Fault::at_node(Refusal::Totals, 0));
    }
    Ok(())
}
