// Test 3: the map chain.
#![tactic(auto)]

ghost use Rattle.std.specs.Prelude.{◌≡◌, ◌+◌, ◌*◌, ◌≤◌};
ghost use Rattle.btree.specs.Decide.{says};
ghost use Rattle.btree.specs.Tests.{dec_map_node};
ghost use Rattle.frame.specs.Form.{header_map_of, node_map_of, layout_of};
ghost use Rattle.chain.specs.Frame.{Room, ChainOf};

use btree::fault::{Fault, Refusal};
use frame::form::{Form, header_map, node_map};
use frame::node::{forward_of, start_of, word_from_end};
use header::descriptor_right;
use image::bytes::be32;
use image::visited::{clear, has, mark};

fn map_node_right(form: Form, image: &[u8], node: u32) -> bool
    ensures { result ≡ says (dec_map_node (layout_of form) image.now node) }
{
    descriptor_right(image, start_of(form, node), 2, 1)
        && (word_from_end(form, image, node, 4) as usize) == 0x000E + node_map(form)
        && word_from_end(form, image, node, 2) == 0x000E
}

// Bytes of the header's map record and of those of so many map nodes.
fn map_size(form: Form, nodes: u32) -> usize
    ensures { (result ≡ header_map_of form + node_map_of form * nodes) × (result ≤ 140737488388096) }
{
    header_map(form) + node_map(form) * (nodes as usize)
}

// Test 3. The bits become those of the header and of the map nodes met; Ok has how many these are.
pub fn map_chain(form: Form, image: &[u8], bits: &mut [u8]) -> Result<u32, Fault>
    requires { Room form image.now bits.old }
    ensures { ChainOf form image.now bits.new result }
{
    let total = be32(image, 36);
    clear(bits);
    mark(bits, 0);
    let mut nodes: u32 = 1;
    let mut last: u32 = 0;
    for _ in 0..total {
        let next = forward_of(form, image, last);
        if next == 0 {
            break;
        }
        if next >= total || has(bits, next) {
            return Err(Fault::at_node(Refusal::MapChain, last));
        }
        if !map_node_right(form, image, next) {
            return Err(Fault::at_node(Refusal::MapChain, next));
        }
        mark(bits, next);
        nodes += 1;
        last = next;
    }
    if (total as usize) > 8 * map_size(form, nodes - 1) {
        return Err(Fault::at_node(Refusal::MapChain, last));
    }
    Ok(nodes)
}
