// Whether a node is a leaf that is whole by itself.
ghost use Rattle.std.specs.Prelude.{◌≡◌};
ghost use Rattle.btree.specs.Decide.{says};
ghost use Rattle.frame.specs.Inside.{NodeIn};
ghost use Rattle.order.specs.Whole.{dec_whole_leaf};

use super::keys::keys_ascend;
use frame::form::Form;
use frame::kind::Kind;
use nodes::form::records_right;

// A node counts whatever its level and its links.
pub fn is_whole(form: Form, image: &[u8], node: u32) -> bool
    requires { NodeIn form image.now node }
    ensures { result ≡ says (dec_whole_leaf form image.now node) }
{
    records_right(form, image, node, Kind::Leaf) && keys_ascend(form, image, node)
}
