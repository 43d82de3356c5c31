// Tests 4 to 8: the walk of the tree, and the tests at its end.
#![tactic(auto)]

ghost use Rattle.std.specs.Prelude.{◌≡◌};
ghost use Rattle.btree.specs.Walk.{tree_entries};
ghost use Rattle.formats.specs.Format.{view};
ghost use Rattle.step.specs.State.{state_of, steps};
ghost use Rattle.step.specs.State.State.{going};
ghost use Rattle.step.specs.Ready.{Walkable};
ghost use Rattle.step.specs.Room.{Small};
ghost use Rattle.walk.specs.Outcome.{Begins, Ends};

use btree::Place;
use btree::fault::Fault;
use closing::closing_tests;
use frame::form::Form;
use image::bytes::{be16, be32};
use step::pointer::Pointer;
use step::state::Walk;
use visit::visit;

pub mod closing;
pub mod visit;

// All nodes of the tree, from the root on.
fn visit_tree(form: Form, image: &[u8], bits: &mut [u8], w: &mut Walk) -> Result<(), Fault>
    requires { Walkable form image.now bits.old × Small bits.old w.old }
    ensures { state_of bits.new w.new result ≡ steps (view form image.now) (going bits.old w.old) (tree_entries (view form image.now) (view form image.now).depth) }
{
    let depth = be16(image, 14);
    if depth == 0 {
        return Ok(());
    }
    let from = Place {
        node: 0,
        offset: 16,
    };
    // No key points at the root, and none bounds it.
    let root = Pointer {
        node: be32(image, 16),
        from,
        level: 0,
        low: 0,
        high: 0,
    };
    visit(form, image, bits, w, root, depth - 1)
}

// Tests 4 to 8, where the bits set are those of the header and the map chain, and they are so many; then how many they are with the nodes met.
pub fn tree_tests(form: Form, image: &[u8], bits: &mut [u8], nodes: u32) -> Result<u32, Fault>
    requires { Begins form image.now bits.old nodes }
    ensures { Ends form image.now bits.new result }
{
    let mut w = Walk {
        last: [0; 8],
        records: 0,
        first: 0,
        nodes,
    };
    visit_tree(form, image, bits, &mut w)?;
    closing_tests(form, image, w)?;
    Ok(w.nodes)
}
