// What C and Rust call, a function for each call and size, as C has no generics. Every element of `out` and `data` is written, whatever the answer; what is left in `results`, `work` and `target`, the answer tells.
#![tactic(auto)]

ghost use Rattle.std.specs.Prelude.{◌≡◌, length};
ghost use Rattle.btree.specs.Numbers.{lookup_reply, salvage_reply, reply_numbers, lookup_numbers};
ghost use Rattle.frame.specs.Form.{form_of};
ghost use Rattle.reader.specs.Reader as reader;
ghost use Rattle.editions.specs.Editions.{checked_as, looked_up_as, salvaged_as};
ghost use Rattle.extents.specs.Reader.{checked, Leaves, looked_up, found_part, salvaged, seen_part};
ghost use Rattle.extents.specs.Many.{many_answer, many_results};
ghost use Rattle.extent_keys.specs.Key.{asked};
ghost use Rattle.catalog_keys.specs.Key as names;
ghost use Rattle.catalog.specs.Reader as catalog_reader;
ghost use Rattle.blocks.specs.Blocks.{block_of};
ghost use Rattle.blocks.specs.Work.{catalog_number, ExtentsLeft};
ghost use Rattle.replies.specs.Written.{data_bytes, wide_bytes, all_bytes};
ghost use Rattle.catalog_replies.specs.Written.{entry_numbers, seen_numbers};
ghost use Rattle.coverings.specs.Answers.{block_numbers};
ghost use Rattle.block_replies.specs.Written.{covering_bytes};
ghost use Rattle.writing.specs.Written.{write_answer, written};

use block_replies::{block_numbers, covering_bytes};
use blocks::block;
use btree::fault::verdict;
use catalog_replies::{entry_bytes, entry_numbers, seen_entry_bytes, seen_numbers};
use frame::form::FormNumbers;
use replies::{
    found_data, found_wide, lookup_numbers, salvage_reply, seen_data, seen_wide, verdict_numbers,
};

// Number, node, offset.
#[unsafe(no_mangle)]
pub extern "C" fn hfs_check(image: &[u8], work: &mut [u8], out: &mut [u32; 3])
    ensures numbers { out.new ≡ reply_numbers (checked image.now (length work.old)) }
    ensures leaves { Leaves image.now (checked image.now (length work.old)).number work.old work.new }
{
    *out = verdict_numbers(verdict(extents::check(image, work)));
}

// Number, node, offset, keys compared, path length, eight nodes of the path; and the record's data.
#[unsafe(no_mangle)]
pub extern "C" fn hfs_lookup(
    image: &[u8],
    file: u32,
    fork: u8,
    start: u16,
    work: &mut [u8],
    out: &mut [u32; 13],
    data: &mut [u8; 12],
)
    ensures numbers { out.new ≡ lookup_numbers (looked_up image.now (asked file fork start) (length work.old)) }
    ensures bytes { «data».new ≡ data_bytes image.now (found_part image.now (looked_up image.now (asked file fork start) (length work.old)).answer) }
    ensures leaves { Leaves image.now (lookup_reply (looked_up image.now (asked file fork start) (length work.old)).answer).number work.old work.new }
{
    let found = extents::lookup(image, file, fork, start, work);
    let answer = found.answer;
    *out = lookup_numbers(found);
    *data = found_data(image, answer);
}

// Number, node, offset; and a result for each key.
#[unsafe(no_mangle)]
pub extern "C" fn hfs_lookup_many(
    image: &[u8],
    keys: &[u64],
    results: &mut [u32],
    work: &mut [u8],
    out: &mut [u32; 3],
)
    ensures numbers { out.new ≡ reply_numbers (many_answer image.now keys.now results.old (length work.old)) }
    ensures written { results.new ≡ many_results image.now keys.now results.old (length work.old) }
    ensures leaves { Leaves image.now (many_answer image.now keys.now results.old (length work.old)).number work.old work.new }
{
    *out = verdict_numbers(verdict(extents::lookup_many(image, keys, results, work)));
}

// Number, node, offset; and the record's data.
#[unsafe(no_mangle)]
pub extern "C" fn hfs_salvage(
    image: &[u8],
    file: u32,
    fork: u8,
    start: u16,
    out: &mut [u32; 3],
    data: &mut [u8; 12],
)
    ensures numbers { out.new ≡ reply_numbers (salvage_reply (salvaged image.now (asked file fork start))) }
    ensures bytes { «data».new ≡ data_bytes image.now (seen_part image.now (salvaged image.now (asked file fork start))) }
{
    let seen = extents::salvage(image, file, fork, start);
    *out = salvage_reply(seen);
    *data = seen_data(image, seen);
}

// For an edition and a node size: number, node, offset.
#[unsafe(no_mangle)]
pub extern "C" fn hfs_extents_check(
    edition: u32,
    size: u32,
    image: &[u8],
    work: &mut [u8],
    out: &mut [u32; 3],
)
    ensures numbers { out.new ≡ reply_numbers (checked_as (form_of edition size) image.now (length work.old)) }
    ensures leaves { reader.Leaves (form_of edition size) image.now (checked_as (form_of edition size) image.now (length work.old)).number work.old work.new }
{
    *out = verdict_numbers(verdict(editions::check(edition, size, image, work)));
}

// For an edition and a node size: number, node, offset, keys compared, path length, eight nodes of the path; and the record's data.
#[unsafe(no_mangle)]
pub extern "C" fn hfs_extents_lookup(
    edition: u32,
    size: u32,
    image: &[u8],
    file: u32,
    fork: u8,
    start: u32,
    work: &mut [u8],
    out: &mut [u32; 13],
    data: &mut [u8; 64],
)
    ensures numbers { out.new ≡ lookup_numbers (looked_up_as (form_of edition size) image.now (asked file fork start) (length work.old)) }
    ensures bytes { «data».new ≡ wide_bytes image.now (reader.found_part (form_of edition size) image.now (looked_up_as (form_of edition size) image.now (asked file fork start) (length work.old)).answer) }
    ensures leaves { reader.Leaves (form_of edition size) image.now (lookup_reply (looked_up_as (form_of edition size) image.now (asked file fork start) (length work.old)).answer).number work.old work.new }
{
    let found = editions::lookup(edition, size, image, file, fork, start, work);
    let answer = found.answer;
    let form = FormNumbers {
        edition,
        tree: 0,
        size,
    };
    *out = lookup_numbers(found);
    *data = found_wide(form, image, answer);
}

// For an edition and a node size: number, node, offset; and the record's data.
#[unsafe(no_mangle)]
pub extern "C" fn hfs_extents_salvage(
    edition: u32,
    size: u32,
    image: &[u8],
    file: u32,
    fork: u8,
    start: u32,
    out: &mut [u32; 3],
    data: &mut [u8; 64],
)
    ensures numbers { out.new ≡ reply_numbers (salvage_reply (salvaged_as (form_of edition size) image.now (asked file fork start))) }
    ensures bytes { «data».new ≡ wide_bytes image.now (reader.seen_part (form_of edition size) image.now (salvaged_as (form_of edition size) image.now (asked file fork start))) }
{
    let seen = editions::salvage(edition, size, image, file, fork, start);
    let form = FormNumbers {
        edition,
        tree: 0,
        size,
    };
    *out = salvage_reply(seen);
    *data = seen_wide(form, image, seen);
}

// Of a catalog: number, node, offset.
#[unsafe(no_mangle)]
pub extern "C" fn hfs_catalog_check(image: &[u8], work: &mut [u8], out: &mut [u32; 3])
    ensures numbers { out.new ≡ reply_numbers (catalog_reader.checked image.now (length work.old)) }
    ensures leaves { catalog_reader.Leaves image.now (catalog_reader.checked image.now (length work.old)).number work.old work.new }
{
    *out = verdict_numbers(verdict(catalog::check(image, work)));
}

// Of a catalog: number, node, offset, keys compared, path length, eight nodes of the path, type, data size; and the record's data.
#[unsafe(no_mangle)]
pub extern "C" fn hfs_catalog_lookup(
    image: &[u8],
    parent: u32,
    name: &[u8],
    work: &mut [u8],
    out: &mut [u32; 15],
    data: &mut [u8; 102],
)
    ensures numbers { out.new ≡ entry_numbers (catalog_reader.looked_up image.now (names.asked parent name.now) (length work.old)) }
    ensures bytes { «data».new ≡ all_bytes image.now (catalog_reader.found_part image.now (catalog_reader.looked_up image.now (names.asked parent name.now) (length work.old)).answer) }
    ensures leaves { catalog_reader.Leaves image.now (catalog_reader.lookup_reply (catalog_reader.looked_up image.now (names.asked parent name.now) (length work.old)).answer).number work.old work.new }
{
    let found = catalog::lookup(image, parent, name, work);
    let answer = found.answer;
    *out = entry_numbers(found);
    *data = entry_bytes(image, answer);
}

// Of a catalog: number, node, offset, type, data size; and the record's data.
#[unsafe(no_mangle)]
pub extern "C" fn hfs_catalog_salvage(
    image: &[u8],
    parent: u32,
    name: &[u8],
    out: &mut [u32; 5],
    data: &mut [u8; 102],
)
    ensures numbers { out.new ≡ seen_numbers (catalog_reader.salvaged image.now (names.asked parent name.now)) }
    ensures bytes { «data».new ≡ all_bytes image.now (catalog_reader.seen_part image.now (catalog_reader.salvaged image.now (names.asked parent name.now))) }
{
    let seen = catalog::salvage(image, parent, name);
    *out = seen_numbers(seen);
    *data = seen_entry_bytes(image, seen);
}

// Number, image, node, offset, volume block, byte where the part starts in that image, its length; and the part.
#[unsafe(no_mangle)]
pub extern "C" fn hfs_block(
    catalog: &[u8],
    catalog_work: &mut [u8],
    extents: &[u8],
    extents_work: &mut [u8],
    parent: u32,
    name: &[u8],
    fork: u8,
    file_block: u16,
    out: &mut [u32; 7],
    data: &mut [u8; 12],
)
    ensures numbers { out.new ≡ block_numbers (block_of catalog.now extents.now (length catalog_work.old) (length extents_work.old) (names.asked parent name.now) fork file_block) }
    ensures bytes { «data».new ≡ covering_bytes catalog.now extents.now (block_of catalog.now extents.now (length catalog_work.old) (length extents_work.old) (names.asked parent name.now) fork file_block) }
    ensures catalog_leaves { catalog_reader.Leaves catalog.now (catalog_number catalog.now (length catalog_work.old) (names.asked parent name.now) fork) catalog_work.old catalog_work.new }
    ensures extents_leaves { ExtentsLeft extents.now (catalog_number catalog.now (length catalog_work.old) (names.asked parent name.now) fork) extents_work.old extents_work.new }
{
    let mapping = block(
        catalog,
        catalog_work,
        extents,
        extents_work,
        parent,
        name,
        fork,
        file_block,
    );
    *out = block_numbers(mapping);
    *data = covering_bytes(catalog, extents, mapping);
}

// Number, 0, 0; and the target.
#[unsafe(no_mangle)]
pub extern "C" fn hfs_write_tree(row: &[u8], target: &mut [u8], out: &mut [u32; 3])
    ensures numbers { out.new ≡ reply_numbers (write_answer row.now target.old) }
    ensures bytes { target.new ≡ written row.now target.old }
{
    *out = verdict_numbers(verdict(writing::write_tree(row, target)));
}
