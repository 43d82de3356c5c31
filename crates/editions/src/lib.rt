// The reader of the extents overflow files of HFS and HFS Plus, for an edition and a node size. Any bytes are an image, and nobody has to have checked it first.
#![tactic(auto)]

ghost use Rattle.std.specs.Prelude.{◌≡◌, length};
ghost use Rattle.btree.specs.Faults.{verdict_of};
ghost use Rattle.btree.specs.Numbers.{lookup_reply};
ghost use Rattle.frame.specs.Form.{form_of};
ghost use Rattle.extent_keys.specs.Key.{asked};
ghost use Rattle.reader.specs.Reader.{Leaves, found_part, seen_part};
ghost use Rattle.reader.specs.Demands.{PartOf};
ghost use Rattle.editions.specs.Editions.{checked_as, looked_up_as, salvaged_as, CheckSays, LookupSays, SalvageSays};

use btree::fault::{Fault, Refusal, verdict};
use btree::{Lookup, Place, Salvage};
use extent_keys::key::{is_lawful, sort_key};
use frame::form::Form;
use image::part::no_part;
use reader::{refusal, unseen};

// The first fault in the order of tests; that of the form where it is not listed, that of the working bytes where too few are lent; none for a sound image.
// An edition and a size come as numbers, as the C interface passes them.
pub fn check(edition: u32, size: u32, image: &[u8], work: &mut [u8]) -> Result<(), Fault>
    ensures equal { verdict_of result ≡ checked_as (form_of edition size) image.now (length work.old) }
    ensures says { CheckSays (form_of edition size) image.now (length work.old) (verdict_of result) }
    ensures leaves { Leaves (form_of edition size) image.now (verdict_of result).number work.old work.new }
{
    match Form::listed(edition, size) {
        Some(form) => checks::check(form, image, work),
        None => Err(Fault::at_node(Refusal::Form, 0)),
    }
}

// What stands under a key: first the form is judged, then the fork byte, then the whole image, and only then the tree is searched.
pub fn lookup(
    edition: u32,
    size: u32,
    image: &[u8],
    file: u32,
    fork: u8,
    start: u32,
    work: &mut [u8],
) -> Lookup
    ensures equal { result ≡ looked_up_as (form_of edition size) image.now (asked file fork start) (length work.old) }
    ensures says { LookupSays (form_of edition size) image.now (asked file fork start) (length work.old) result }
    ensures leaves { Leaves (form_of edition size) image.now (lookup_reply result.answer).number work.old work.new }
{
    let lawful = is_lawful(fork as u32);
    let key = sort_key(file, fork, start);
    match Form::listed(edition, size) {
        Some(form) => reader::lookup(form, image, lawful, key, no_part(image), work),
        None => refusal(verdict(Err(Fault::at_node(Refusal::Form, 0)))),
    }
}

// The data bytes of the record that a lookup finds, 12 in HFS and 64 in HFS Plus, or else the empty part at the image's start.
pub fn lookup_part<'a>(
    edition: u32,
    size: u32,
    image: &'a [u8],
    file: u32,
    fork: u8,
    start: u32,
    work: &mut [u8],
) -> &'a [u8]
    ensures part { PartOf image.entry result (found_part (form_of edition size) image.now (looked_up_as (form_of edition size) image.now (asked file fork start) (length work.old)).answer) }
    ensures leaves { Leaves (form_of edition size) image.now (lookup_reply (looked_up_as (form_of edition size) image.now (asked file fork start) (length work.old)).answer).number work.old work.new }
{
    let lawful = is_lawful(fork as u32);
    let key = sort_key(file, fork, start);
    match Form::listed(edition, size) {
        Some(form) => reader::lookup_part(form, image, lawful, key, no_part(image), work),
        None => no_part(image),
    }
}

// The first record with the key in any whole leaf from node 1 up, in the tree or not. Seen proves nothing: a freed node may hold an old record.
pub fn salvage(edition: u32, size: u32, image: &[u8], file: u32, fork: u8, start: u32) -> Salvage
    ensures equal { result ≡ salvaged_as (form_of edition size) image.now (asked file fork start) }
    ensures says { SalvageSays (form_of edition size) image.now (asked file fork start) result }
{
    let lawful = is_lawful(fork as u32);
    let key = sort_key(file, fork, start);
    match Form::listed(edition, size) {
        Some(form) => reader::salvage(form, image, lawful, key, no_part(image)),
        None => unseen(Fault::at_node(Refusal::Form, 0)),
    }
}

// The data bytes of the record that `salvage` sees; else the empty part at the image's start.
pub fn salvage_part<'a>(
    edition: u32,
    size: u32,
    image: &'a [u8],
    file: u32,
    fork: u8,
    start: u32,
) -> &'a [u8]
    ensures { PartOf image.entry result (seen_part (form_of edition size) image.now (salvaged_as (form_of edition size) image.now (asked file fork start))) }
{
    let lawful = is_lawful(fork as u32);
    let key = sort_key(file, fork, start);
    match Form::listed(edition, size) {
        Some(form) => reader::salvage_part(form, image, lawful, key, no_part(image)),
        None => no_part(image),
    }
}
