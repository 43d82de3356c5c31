// The working bytes that the nodes of an image need: one bit a node.
ghost use Rattle.std.specs.Prelude.{◌≡◌};
ghost use Rattle.btree.specs.Work.{needed};
ghost use Rattle.frame.specs.Form.{layout_of, Fair};

use super::form::Form;

pub fn needed_bytes(form: Form, image: &[u8]) -> usize
    ensures { (result ≡ needed (layout_of form) image.now) × Fair form }
{
    (image.len() / (form.size() as usize) + 7) / 8
}
