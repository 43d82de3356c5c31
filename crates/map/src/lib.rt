// Test 9, the map bits; test 10, the free count.
#![tactic(auto)]

ghost use Rattle.std.specs.Prelude.{◌≡◌, List, ℕ, ◌*◌, ◌≤◌, length};
ghost use Rattle.image.specs.Bit.{bit_of};
ghost use Rattle.btree.specs.Tests.{lowest_wrong, bit_test, map_tests};
ghost use Rattle.btree.specs.Faults.{verdict_of};
ghost use Rattle.frame.specs.Form.{layout_of};
ghost use Rattle.chain.specs.Frame.{Marks};
ghost use Rattle.map.specs.Framed.{Framed, wrong_of};

use btree::fault::{Fault, Refusal};
use eights::same_bytes;
use frame::form::{Form, header_map, node_map};
use frame::node::{forward_of, start_of};
use image::bytes::{be32, byte_at};

mod eights;

// The lowest wrong bit in one map record, whose first byte is the map's byte `first`: bytes outside, bits inside.
// A usize, as maps of 65,536 nodes can have more bits than a u32 counts.
fn wrong_in(map: &[u8], bits: &[u8], first: usize) -> Option<usize>
    requires { (length map.now ≤ 32768) × (first ≤ 4294967296) }
    ensures { wrong_of result ≡ lowest_wrong (bit_of bits.now) (8 * first) map.now }
{
    let start = same_bytes(map, bits, first);
    let mut found = None;
    // By its number, as byte i of the record stands against byte first + i of the bitmap.
    'bytes: for i in start..map.len() {
        let x = map[i] as u32;
        let y = byte_at(bits, first + i);
        if x != y {
            'bits: for j in 0..8u32 {
                if (x >> (7 - j)) & 1 != (y >> (7 - j)) & 1 {
                    found = Some((first + i) * 8 + (j as usize));
                    break 'bytes;
                }
            }
        }
    }
    found
}

// Test 9, in the header's map record and then along the chain: the byte in its node that has the bit.
fn bit_test(form: Form, image: &[u8], bits: &[u8]) -> Result<(), Fault>
    requires { Framed form image.now }
    ensures { verdict_of result ≡ bit_test (layout_of form) image.now (bit_of bits.now) }
{
    let header = header_map(form);
    if let Some(bit) = wrong_in(&image[248..248 + header], bits, 0) {
        return Err(Fault::at_byte(Refusal::MapBit, 0, (248 + bit / 8) as u32));
    }
    let each = node_map(form);
    let total = be32(image, 36);
    let mut first = header;
    let mut node = forward_of(form, image, 0);
    for _ in 0..total {
        if node == 0 {
            break;
        }
        let at = start_of(form, node) + 14;
        if let Some(bit) = wrong_in(&image[at..at + each], bits, first) {
            let offset = (14 + (bit / 8 - first)) as u32;
            return Err(Fault::at_byte(Refusal::MapBit, node, offset));
        }
        first += each;
        node = forward_of(form, image, node);
    }
    Ok(())
}

// Tests 9 and 10, where the bits set are those of the nodes reached from the header, and there are so many.
pub fn map_tests(form: Form, image: &[u8], bits: &[u8], nodes: u32) -> Result<(), Fault>
    requires { Framed form image.now }
    ensures { (ns : List ℕ) → Marks bits.now ns → nodes ≡ length ns → verdict_of result ≡ map_tests (layout_of form) image.now ns }
{
    bit_test(form, image, bits)?;
    let free = be32(image, 40) as u64;
    if (nodes as u64) + free != be32(image, 36) as u64 {
        return Err(Fault::at_node(Refusal::FreeCount, 0));
    }
    Ok(())
}
