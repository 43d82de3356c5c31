// The recursive walk of the tree.
ghost use Rattle.std.specs.Prelude.{◌≡◌, ◌<◌};
ghost use Rattle.btree.specs.Walk.{above};
ghost use Rattle.order.specs.Bound.{bound};
ghost use Rattle.formats.specs.Format.{view};
ghost use Rattle.step.specs.State.{steps};
ghost use Rattle.step.specs.State.State.{going};
ghost use Rattle.step.specs.Ready.{Ready, Gives};
ghost use Rattle.walk.specs.Visit.{Points, entries_at};

use btree::fault::Fault;
use formats::records::{child_place, record_at};
use frame::form::{Form, key_size};
use frame::node::count_of;
use image::bytes::be32;
use leaf_run::run::{leaf_run, ran};
use step::pointer::Pointer;
use step::state::Walk;
use step::stepped;

// Where the key stands that bounds the keys below record i of c: that of the next record, or the node's own bound.
fn bound_at(form: Form, image: &[u8], e: Pointer, i: u32, c: u32) -> usize
    requires { (i < c) × (c ≡ (view form image.now).count e.node) }
    ensures { (bound form image.now result ≡ above (view form image.now) e.node i (bound form image.now e.high)) × (result < 1000000000000000) }
{
    if i + 1 < c {
        record_at(form, image, e.node, i + 1) + 1
    } else {
        e.high
    }
}

// Record i of c of an index node.
fn pointer_at(form: Form, image: &[u8], e: Pointer, i: u32, c: u32) -> Pointer
    requires { (i < c) × (c ≡ (view form image.now).count e.node) × (e.level < 7) }
    ensures { Points form image.now e i result }
{
    let start = record_at(form, image, e.node, i);
    Pointer {
        node: be32(image, start + (key_size(form) as usize)),
        from: child_place(form, image, e.node, i),
        level: e.level + 1,
        low: start + 1,
        high: bound_at(form, image, e, i, c),
    }
}

// The node that is pointed at: each node before its children, children left to right; the levels still below the node fall. At a fault the walk stays as it
// stood there.
pub fn visit(
    form: Form,
    image: &[u8],
    bits: &mut [u8],
    w: &mut Walk,
    e: Pointer,
    below: u32,
) -> Result<(), Fault>
    requires { Ready form image.now bits.old e below w.old }
    ensures { Gives bits.new w.new result (steps (view form image.now) (going bits.old w.old) (entries_at form image.now below e)) }
{
    stepped(form, image, bits, w, e, below)?;
    if below == 0 {
        return Ok(());
    }
    let c = count_of(form, image, e.node);
    let mut i: u32 = 0;
    // Counted by hand: a run takes as many records as it has leaves.
    while i < c {
        // The leaves that surely pass cost no visit each.
        let run = leaf_run(form, image, bits, *w, e.node, i, c, e.level, below, e.high);
        *w = ran(*w, e.level + 1, run);
        i += run.count;
        if i >= c {
            return Ok(());
        }
        let p = pointer_at(form, image, e, i, c);
        visit(form, image, bits, w, p, below - 1)?;
        i += 1;
    }
    Ok(())
}
