// The record that covers a block of a file: first the file's own record in the catalog, then those of the extents overflow file.
ghost use Rattle.std.specs.Prelude.{◌≡◌, length};
ghost use Rattle.btree.specs.Decide.{says};
ghost use Rattle.extent_keys.specs.Key.{Lawful};
ghost use Rattle.extents.specs.Reader.{checked, Leaves};
ghost use Rattle.coverings.specs.Covered.{first_extents, first_start, dec_covers, after_extents, in_extents, in_file, no_file, uncovered, in_entry};

use super::answers::{Covering, Mapping, Source, mapped_to};
use btree::Place;
use btree::fault::Refusal;
use catalog_entries::{Entry, File};
use extent_data::ExtentData;
use extent_data::pairs::{block_count, counted_off};
use extents::floors::{ExtentRecord, Floor};

// What is answered where the extents overflow file is sound, which is judged here.
pub fn after_check(extents: &[u8], work: &mut [u8], answer: Mapping) -> Mapping
    ensures equal { result ≡ after_extents extents.now (length work.old) answer }
    ensures leaves { Leaves extents.now (checked extents.now (length work.old)).number work.old work.new }
{
    match extents::check(extents, work) {
        Ok(()) => answer,
        Err(fault) => Mapping::Refused(Source::Extents, fault.refusal.number(), fault.place),
    }
}

// The first three extents of a fork.
fn first_extents(file: File, fork: u8) -> ExtentData
    ensures { result ≡ first_extents file fork }
{
    if fork == 0 {
        file.data_fork.extents
    } else {
        file.resource_fork.extents
    }
}

// Where they start in the file record's data.
fn first_start(fork: u8) -> usize
    ensures { result ≡ first_start fork }
{
    if fork == 0 { 74 } else { 86 }
}

// Whether a record of the extents overflow file covers the block.
fn covers(found: ExtentRecord, file: u32, fork: u8, file_block: u16) -> bool
    ensures { result ≡ says (dec_covers found file fork file_block) }
{
    if found.file != file {
        return false;
    }
    if found.fork != (fork as u32) {
        return false;
    }
    if found.start > (file_block as u32) {
        return false;
    }
    (file_block as u64) < (found.start as u64) + block_count(found.extents)
}

// What no record covers.
fn uncovered() -> Mapping
    ensures { result ≡ uncovered }
{
    let place = Place { node: 0, offset: 0 };
    Mapping::Refused(Source::Extents, Refusal::Uncovered.number(), place)
}

// By the record of the extents overflow file with the highest key not above the block's.
fn in_extents(extents: &[u8], work: &mut [u8], file: u32, fork: u8, file_block: u16) -> Mapping
    requires { Lawful fork }
    ensures equal { result ≡ in_extents extents.now (length work.old) file fork file_block }
    ensures leaves { Leaves extents.now (checked extents.now (length work.old)).number work.old work.new }
{
    match extents::floor(extents, file, fork, file_block, work) {
        Floor::At(place, record) => {
            if !covers(record, file, fork, file_block) {
                return uncovered();
            }
            let start = extents::data_at(extents, place);
            let covering = Covering {
                source: Source::Extents,
                place,
                start,
            };
            mapped_to(
                covering,
                counted_off(record.extents, (file_block as u32) - record.start),
            )
        }
        Floor::Nowhere => uncovered(),
        Floor::Refused(number, place) => Mapping::Refused(Source::Extents, number, place),
    }
}

// By the file's own record, where its first extents reach that far.
fn in_file(
    catalog: &[u8],
    place: Place,
    file: File,
    extents: &[u8],
    work: &mut [u8],
    fork: u8,
    file_block: u16,
) -> Mapping
    requires { Lawful fork }
    ensures equal { result ≡ in_file extents.now (length work.old) catalog.now fork file_block place file }
    ensures leaves { Leaves extents.now (checked extents.now (length work.old)).number work.old work.new }
{
    let first = first_extents(file, fork);
    if (file_block as u64) >= block_count(first) {
        return in_extents(extents, work, file.file_id, fork, file_block);
    }
    let start = catalog::data_at(catalog, place) + first_start(fork);
    let covering = Covering {
        source: Source::Catalog,
        place,
        start,
    };
    let mapped = mapped_to(covering, counted_off(first, file_block as u32));
    after_check(extents, work, mapped)
}

fn no_file() -> Mapping
    ensures { result ≡ no_file }
{
    let place = Place { node: 0, offset: 0 };
    Mapping::Refused(Source::Catalog, Refusal::NoFile.number(), place)
}

// By what stands under the catalog key: a record that is no file covers no block.
pub fn in_entry(
    catalog: &[u8],
    place: Place,
    entry: Entry,
    extents: &[u8],
    work: &mut [u8],
    fork: u8,
    file_block: u16,
) -> Mapping
    requires { Lawful fork }
    ensures equal { result ≡ in_entry extents.now (length work.old) catalog.now fork file_block place entry }
    ensures leaves { Leaves extents.now (checked extents.now (length work.old)).number work.old work.new }
{
    match entry {
        Entry::File(file) => in_file(catalog, place, file, extents, work, fork, file_block),
        Entry::Directory(_) => after_check(extents, work, no_file()),
        Entry::DirectoryThread(_) => after_check(extents, work, no_file()),
        Entry::FileThread(_) => after_check(extents, work, no_file()),
    }
}
