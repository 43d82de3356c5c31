// The whole check of an image of any form. The bitmap of the nodes met is in bytes that the caller lends.
#![tactic(auto)]

ghost use Rattle.std.specs.Prelude.{◌≡◌, length};
ghost use Rattle.btree.specs.Faults.{verdict_of};
ghost use Rattle.btree.specs.Work.{checked, CheckSays, Leaves};
ghost use Rattle.frame.specs.Form.{layout_of};
ghost use Rattle.formats.specs.Format.{format_of};
ghost use Rattle.checks.specs.Tested.{Ready, Tested, Settled};

use btree::fault::{Fault, Refusal};
use chain::map_chain;
use frame::form::Form;
use frame::work::needed_bytes;
use header::{header_right, length_right};
use image::visited::clear;
use map::map_tests;
use walk::tree_tests;

// Tests 2 to 10, on the bytes that the nodes need.
fn tests(form: Form, image: &[u8], bits: &mut [u8]) -> Result<(), Fault>
    requires { Ready form image.now bits.old }
    ensures { Tested form image.now bits.new result }
{
    if !header_right(form, image) {
        return Err(Fault::at_node(Refusal::HeaderNode, 0));
    }
    let chained = map_chain(form, image, bits)?;
    let met = tree_tests(form, image, bits, chained)?;
    map_tests(form, image, bits, met)
}

// The same, with the bytes cleared after a fault: what the tests left there is of no use.
fn settled(form: Form, image: &[u8], bits: &mut [u8]) -> Result<(), Fault>
    requires { Ready form image.now bits.old }
    ensures { Settled form image.now bits.new result }
{
    let t = tests(form, image, bits);
    if t.is_err() {
        clear(bits);
    }
    t
}

// Tests 1 and 16 come first, and touch nothing. The other tests have the needed bytes and no further ones.
pub fn check(form: Form, image: &[u8], work: &mut [u8]) -> Result<(), Fault>
    ensures equal { verdict_of result ≡ checked (layout_of form) image.now (format_of form) (length work.old) }
    ensures says { CheckSays (layout_of form) image.now (format_of form) (length work.old) (verdict_of result) }
    ensures leaves { Leaves (layout_of form) image.now (format_of form) (verdict_of result).number work.old work.new }
{
    let need = needed_bytes(form, image);
    if !length_right(form, image) {
        return Err(Fault::at_node(Refusal::ImageLength, 0));
    }
    let lent = work.len();
    if lent < need {
        return Err(Fault::at_node(Refusal::FewWorkingBytes, 0));
    }
    settled(form, image, &mut work[0..need])
}
