// The reader of the extents overflow file of an HFS volume. Any bytes are an image, and nobody has to have checked it first.
#![tactic(auto)]

pub mod floors;

ghost use Rattle.std.specs.Prelude.{◌≡◌, ◌<◌, length};
ghost use Rattle.btree.specs.Faults.{verdict_of};
ghost use Rattle.btree.specs.Numbers.{lookup_reply};
ghost use Rattle.extent_keys.specs.Key.{asked};
ghost use Rattle.extents.specs.Reader.{checked, CheckSays, Leaves, looked_up, data_part, found_part, salvaged, seen_part};
ghost use Rattle.extents.specs.Demands.{LookupSays, SalvageSays, PartOf};
ghost use Rattle.extents.specs.Many.{many_answer, many_results, ManySays};
ghost use Rattle.extents.specs.Floor.{floored, floor_reply, FloorSays};

use btree::fault::{Fault, Refusal};
use btree::{Lookup, Place, Salvage};
use extent_keys::key::{is_lawful, sort_key};
use floors::{Floor, floored_as};
use frame::form::of_hfs;
use image::part::no_part;
use search::rows::fill;

// The first fault in the order of tests; that of the working bytes where too few are lent; none for a sound image.
pub fn check(image: &[u8], work: &mut [u8]) -> Result<(), Fault>
    ensures equal { verdict_of result ≡ checked image.now (length work.old) }
    ensures says { CheckSays image.now (length work.old) (verdict_of result) }
    ensures leaves { Leaves image.now (verdict_of result).number work.old work.new }
{
    editions::check(0, 512, image, work)
}

// What stands under a key: first the fork byte is judged, then the whole image, and only then the tree is searched.
pub fn lookup(image: &[u8], file: u32, fork: u8, start: u16, work: &mut [u8]) -> Lookup
    ensures equal { result ≡ looked_up image.now (asked file fork start) (length work.old) }
    ensures says { LookupSays image.now (asked file fork start) (length work.old) result }
    ensures leaves { Leaves image.now (lookup_reply result.answer).number work.old work.new }
{
    editions::lookup(0, 512, image, file, fork, start as u32, work)
}

// The 12 data bytes of the record that a lookup finds, or else the empty part at the image's start.
pub fn lookup_part<'a>(
    image: &'a [u8],
    file: u32,
    fork: u8,
    start: u16,
    work: &mut [u8],
) -> &'a [u8]
    ensures part { PartOf image.entry result (found_part image.now (looked_up image.now (asked file fork start) (length work.old)).answer) }
    ensures leaves { Leaves image.now (lookup_reply (looked_up image.now (asked file fork start) (length work.old)).answer).number work.old work.new }
{
    editions::lookup_part(0, 512, image, file, fork, start as u32, work)
}

// What stands under each of many packed keys: the rows are measured first, then the whole image is judged once, and only then the tree is searched.
// A result is the byte of the image where the data starts, 0 for absent, 1 for a number that is no key.
pub fn lookup_many(
    image: &[u8],
    keys: &[u64],
    results: &mut [u32],
    work: &mut [u8],
) -> Result<(), Fault>
    ensures equal { verdict_of result ≡ many_answer image.now keys.now results.old (length work.old) }
    ensures written { results.new ≡ many_results image.now keys.now results.old (length work.old) }
    ensures says { ManySays image.now keys.now results.old results.new (length work.old) (verdict_of result) }
    ensures leaves { Leaves image.now (verdict_of result).number work.old work.new }
{
    if results.len() < keys.len() {
        return Err(Fault::at_node(Refusal::FewResults, 0));
    }
    check(image, work)?;
    fill(image, keys, results);
    Ok(())
}

// The leaf record with the highest key not above the asked one: the fork byte and the whole image are judged first, as for a lookup.
pub fn floor(image: &[u8], file: u32, fork: u8, start: u16, work: &mut [u8]) -> Floor
    ensures equal { result ≡ floored image.now (asked file fork start) (length work.old) }
    ensures says { FloorSays image.now (asked file fork start) (length work.old) result }
    ensures leaves { Leaves image.now (floor_reply result).number work.old work.new }
{
    if !is_lawful(fork as u32) {
        return Floor::Refused(Refusal::AskedKey.number(), Place { node: 0, offset: 0 });
    }
    match check(image, work) {
        Ok(()) => {
            let key = sort_key(file, fork, start as u32);
            let answer = search::descent::floor(of_hfs(), image, key, no_part(image));
            floored_as(image, answer)
        }
        Err(fault) => Floor::Refused(fault.refusal.number(), fault.place),
    }
}

// The byte of the image where the data starts of the leaf record at a place, as a lookup answers it.
pub fn data_at(image: &[u8], place: Place) -> usize
    ensures { (result ≡ (data_part image.now place).at) × (result < 300000000000000) }
{
    formats::records::data_at(of_hfs(), image, place)
}

// The first record with the key in any whole leaf from node 1 up, in the tree or not. Seen proves nothing: a freed node may hold an old record.
pub fn salvage(image: &[u8], file: u32, fork: u8, start: u16) -> Salvage
    ensures equal { result ≡ salvaged image.now (asked file fork start) }
    ensures says { SalvageSays image.now (asked file fork start) result }
{
    editions::salvage(0, 512, image, file, fork, start as u32)
}

// The 12 data bytes of the record that `salvage` sees; else the empty part at the image's start.
pub fn salvage_part<'a>(image: &'a [u8], file: u32, fork: u8, start: u16) -> &'a [u8]
    ensures { PartOf image.entry result (seen_part image.now (salvaged image.now (asked file fork start))) }
{
    editions::salvage_part(0, 512, image, file, fork, start as u32)
}
