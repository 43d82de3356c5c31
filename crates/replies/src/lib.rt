// What is written of an answer: its numbers, and the data of a record.
#![tactic(auto)]

ghost use Rattle.std.specs.Prelude.{◌≡◌};
ghost use Rattle.btree.specs.Walk.{fails};
ghost use Rattle.btree.specs.Numbers.{lookup_reply, salvage_reply, reply_numbers, lookup_numbers};
ghost use Rattle.frame.specs.Form.{Fair};
ghost use Rattle.reader.specs.Reader as reader;
ghost use Rattle.extents.specs.Reader.{found_part, seen_part};
ghost use Rattle.replies.specs.Written.{part_bytes, data_bytes, wide_bytes, FoundFair, SeenFair};

use btree::{Answer, Lookup, Place, Salvage, Verdict};
use formats::records::{data_at, data_size};
use frame::form::{Form, FormNumbers, of_hfs};
use image::bytes::byte_at;

fn reply_numbers(number: u32, place: Place) -> [u32; 3]
    ensures { result ≡ reply_numbers (fails number place) }
{
    [number, place.node, place.offset]
}

pub fn verdict_numbers(t: Verdict) -> [u32; 3]
    ensures { result ≡ reply_numbers t }
{
    reply_numbers(t.number, t.place)
}

fn lookup_reply(answer: Answer) -> [u32; 3]
    ensures { result ≡ reply_numbers (lookup_reply answer) }
{
    match answer {
        Answer::Found(place) => reply_numbers(0, place),
        Answer::Absent(node) => [12, node, 0],
        Answer::Refused(number, place) => reply_numbers(number, place),
    }
}

pub fn lookup_numbers(found: Lookup) -> [u32; 13]
    ensures { result ≡ lookup_numbers found }
{
    let path = found.path;
    let mut numbers = [0; 13];
    numbers[..3].copy_from_slice(&lookup_reply(found.answer));
    numbers[3] = found.compared;
    numbers[4] = path.len;
    numbers[5..].copy_from_slice(&path.nodes);
    numbers
}

pub fn salvage_reply(seen: Salvage) -> [u32; 3]
    ensures { result ≡ reply_numbers (salvage_reply seen) }
{
    match seen {
        Salvage::Seen(place) => reply_numbers(13, place),
        Salvage::NotSeen => [14, 0, 0],
        Salvage::Refused(number, place) => reply_numbers(number, place),
    }
}

// The bytes of the image from one of them on, at most `size` and at most N; the others are 0.
pub fn part_bytes<const N: usize>(image: &[u8], at: usize, size: usize) -> [u8; N]
    ensures { result ≡ part_bytes N image.now (record { at = at; size = size }) }
{
    let mut data = [0; N];
    let rest = &image[at.min(image.len())..];
    let len = size.min(N);
    // By index: `copy_from_slice` has the archive for C need `memcpy` from outside.
    for k in 0..len {
        data[k] = byte_at(rest, k) as u8;
    }
    data
}

// The data bytes of the record that starts at a place, 12 in HFS, 64 in HFS Plus and up to 102 in a catalog.
fn record_bytes<const N: usize>(form: FormNumbers, image: &[u8], place: Place) -> [u8; N]
    requires { Fair form }
    ensures { result ≡ part_bytes N image.now (reader.data_part form image.now place) }
{
    let form = Form::of_numbers(form);
    part_bytes(
        image,
        data_at(form, image, place),
        data_size(form, image, place),
    )
}

pub fn found_bytes<const N: usize>(form: FormNumbers, image: &[u8], answer: Answer) -> [u8; N]
    requires { FoundFair form answer }
    ensures { result ≡ part_bytes N image.now (reader.found_part form image.now answer) }
{
    match answer {
        Answer::Found(place) => record_bytes(form, image, place),
        Answer::Absent(_) | Answer::Refused(_, _) => [0; N],
    }
}

// Beside `found_bytes`: what is seen has a type of its own, so that it is never taken for what is found.
pub fn seen_bytes<const N: usize>(form: FormNumbers, image: &[u8], seen: Salvage) -> [u8; N]
    requires { SeenFair form seen }
    ensures { result ≡ part_bytes N image.now (reader.seen_part form image.now seen) }
{
    match seen {
        Salvage::Seen(place) => record_bytes(form, image, place),
        Salvage::NotSeen | Salvage::Refused(_, _) => [0; N],
    }
}

// For the exports, by the size that each writes.
pub fn found_wide(form: FormNumbers, image: &[u8], answer: Answer) -> [u8; 64]
    requires { FoundFair form answer }
    ensures { result ≡ wide_bytes image.now (reader.found_part form image.now answer) }
{
    found_bytes(form, image, answer)
}

pub fn seen_wide(form: FormNumbers, image: &[u8], seen: Salvage) -> [u8; 64]
    requires { SeenFair form seen }
    ensures { result ≡ wide_bytes image.now (reader.seen_part form image.now seen) }
{
    seen_bytes(form, image, seen)
}

// What is found in an HFS image.
pub fn found_data(image: &[u8], answer: Answer) -> [u8; 12]
    ensures { result ≡ data_bytes image.now (found_part image.now answer) }
{
    found_bytes(of_hfs().numbers(), image, answer)
}

pub fn seen_data(image: &[u8], seen: Salvage) -> [u8; 12]
    ensures { result ≡ data_bytes image.now (seen_part image.now seen) }
{
    seen_bytes(of_hfs().numbers(), image, seen)
}
