// One step of the walk of a tree: tests 4 to 7 at a node, and what is kept of one that passes.
#![tactic(auto)]

ghost use Rattle.formats.specs.Format.{view};
ghost use Rattle.step.specs.State.{step, entry};
ghost use Rattle.step.specs.State.State.{going};
ghost use Rattle.step.specs.Ready.{Ready, Gives};

use btree::fault::Fault;
use frame::form::Form;
use frame::node::count_of;
use image::bytes::be32;
use image::visited::mark;
use node::{is_fresh, tested};
use pointer::Pointer;
use state::{Walk, kept_at};

pub mod node;
pub mod pointer;
pub mod state;

// The state with the node kept and its bit set, or as it stood, with the first fault at the node.
pub fn stepped(
    form: Form,
    image: &[u8],
    bits: &mut [u8],
    w: &mut Walk,
    e: Pointer,
    below: u32,
) -> Result<(), Fault>
    requires { Ready form image.now bits.old e below w.old }
    ensures { Gives bits.new w.new result (step (view form image.now) (going bits.old w.old) (entry form image.now e)) }
{
    let fresh = is_fresh(bits, be32(image, 36), e.node);
    let p = w.last[e.level as usize];
    tested(form, image, fresh, p, e)?;
    let c = count_of(form, image, e.node);
    mark(bits, e.node);
    *w = kept_at(*w, e.node, e.level, below == 0, c);
    Ok(())
}
