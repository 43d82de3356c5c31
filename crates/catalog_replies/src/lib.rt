// What is written of a catalog's answer: its numbers, and the data of a record.
#![tactic(auto)]

ghost use Rattle.std.specs.Prelude.{◌≡◌};
ghost use Rattle.catalog.specs.Answers.{plain_answer, plain, plain_seen};
ghost use Rattle.catalog.specs.Reader.{found_part, seen_part};
ghost use Rattle.replies.specs.Written.{all_bytes};
ghost use Rattle.catalog_replies.specs.Written.{type_of, found_type, seen_type, entry_numbers, seen_numbers};

use catalog::answers::{Answer, Lookup, Salvage};
use catalog_entries::Entry;
use catalog_nodes::records::size_of_type;
use frame::form::of_catalog;
use replies::{found_bytes, lookup_numbers, salvage_reply, seen_bytes};

// A function and no `From`, which would have to stand in the entry's own crate.
fn type_of(entry: Entry) -> u32
    ensures { result ≡ type_of entry }
{
    match entry {
        Entry::Directory(_) => 1,
        Entry::File(_) => 2,
        Entry::DirectoryThread(_) => 3,
        Entry::FileThread(_) => 4,
    }
}

fn found_type(answer: Answer) -> u32
    ensures { result ≡ found_type answer }
{
    match answer {
        Answer::Found(_, entry) => type_of(entry),
        Answer::Absent(_) | Answer::Refused(_, _) => 0,
    }
}

fn seen_type(seen: Salvage) -> u32
    ensures { result ≡ seen_type seen }
{
    match seen {
        Salvage::Seen(_, entry) => type_of(entry),
        Salvage::NotSeen | Salvage::Refused(_, _) => 0,
    }
}

// The answer without the entry, as of every tree; no `From`, as both types are of other crates.
fn plain_answer(answer: Answer) -> btree::Answer
    ensures { result ≡ plain_answer answer }
{
    match answer {
        Answer::Found(place, _) => btree::Answer::Found(place),
        Answer::Absent(node) => btree::Answer::Absent(node),
        Answer::Refused(number, place) => btree::Answer::Refused(number, place),
    }
}

fn plain_lookup(found: Lookup) -> btree::Lookup
    ensures { result ≡ plain found }
{
    btree::Lookup {
        answer: plain_answer(found.answer),
        path: found.path,
        compared: found.compared,
    }
}

fn plain_seen(seen: Salvage) -> btree::Salvage
    ensures { result ≡ plain_seen seen }
{
    match seen {
        Salvage::Seen(place, _) => btree::Salvage::Seen(place),
        Salvage::NotSeen => btree::Salvage::NotSeen,
        Salvage::Refused(number, place) => btree::Salvage::Refused(number, place),
    }
}

pub fn entry_numbers(found: Lookup) -> [u32; 15]
    ensures { result ≡ entry_numbers found }
{
    let kind = found_type(found.answer);
    let mut numbers = [0; 15];
    numbers[..13].copy_from_slice(&lookup_numbers(plain_lookup(found)));
    numbers[13..].copy_from_slice(&[kind, size_of_type(kind)]);
    numbers
}

pub fn seen_numbers(seen: Salvage) -> [u32; 5]
    ensures { result ≡ seen_numbers seen }
{
    let kind = seen_type(seen);
    let [number, node, offset] = salvage_reply(plain_seen(seen));
    [number, node, offset, kind, size_of_type(kind)]
}

pub fn entry_bytes(image: &[u8], answer: Answer) -> [u8; 102]
    ensures { result ≡ all_bytes image.now (found_part image.now answer) }
{
    found_bytes(of_catalog().numbers(), image, plain_answer(answer))
}

pub fn seen_entry_bytes(image: &[u8], seen: Salvage) -> [u8; 102]
    ensures { result ≡ all_bytes image.now (seen_part image.now seen) }
{
    seen_bytes(of_catalog().numbers(), image, plain_seen(seen))
}
