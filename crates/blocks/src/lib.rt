// From a block of a file to the block of the cartridge: a layer above the catalog and the extents overflow file of an HFS volume, which uses both by what they promise.
// Any bytes are an image, and nobody has to have checked it first.
#![tactic(auto)]

ghost use Rattle.std.specs.Prelude.{◌≡◌, length};
ghost use Rattle.catalog_keys.specs.Key.{asked};
ghost use Rattle.catalog.specs.Reader.{Leaves};
ghost use Rattle.blocks.specs.Blocks.{block_of};
ghost use Rattle.blocks.specs.Demands.{BlockSays, PartOf};
ghost use Rattle.blocks.specs.Work.{catalog_number, ExtentsLeft};

use btree::Place;
use btree::fault::Refusal;
use catalog::answers::Answer;
use coverings::answers::{Mapping, Source};
use coverings::covering::{after_check, in_entry};
use extent_keys::key::is_lawful;
use image::part::{no_part, part_at};

// By the parameters of the export. Where a block of a file's fork stands on the volume, and the record that covers it. The fork byte and the name's length are judged first, then the whole catalog, then the whole extents
// overflow file, and only then the block is looked for.
pub fn block(
    catalog: &[u8],
    catalog_work: &mut [u8],
    extents: &[u8],
    extents_work: &mut [u8],
    parent: u32,
    name: &[u8],
    fork: u8,
    file_block: u16,
) -> Mapping
    ensures equal { result ≡ block_of catalog.now extents.now (length catalog_work.old) (length extents_work.old) (asked parent name.now) fork file_block }
    ensures says { BlockSays catalog.now extents.now (asked parent name.now) fork file_block (length catalog_work.old) (length extents_work.old) result }
    ensures catalog_leaves { Leaves catalog.now (catalog_number catalog.now (length catalog_work.old) (asked parent name.now) fork) catalog_work.old catalog_work.new }
    ensures extents_leaves { ExtentsLeft extents.now (catalog_number catalog.now (length catalog_work.old) (asked parent name.now) fork) extents_work.old extents_work.new }
{
    if !is_lawful(fork as u32) {
        let place = Place { node: 0, offset: 0 };
        return Mapping::Refused(Source::Catalog, Refusal::AskedKey.number(), place);
    }
    let found = catalog::lookup(catalog, parent, name, catalog_work);
    match found.answer {
        Answer::Found(place, entry) => {
            in_entry(
                catalog,
                place,
                entry,
                extents,
                extents_work,
                fork,
                file_block,
            )
        }
        Answer::Absent(node) => {
            let place = Place { node, offset: 0 };
            let absent = Mapping::Refused(Source::Catalog, Refusal::Absent.number(), place);
            after_check(extents, extents_work, absent)
        }
        Answer::Refused(number, place) => Mapping::Refused(Source::Catalog, number, place),
    }
}

// The 12 bytes of the covering record's pairs, a part of whichever image holds it; else the empty part at the catalog's start.
pub fn block_part<'a>(
    catalog: &'a [u8],
    catalog_work: &mut [u8],
    extents: &'a [u8],
    extents_work: &mut [u8],
    parent: u32,
    name: &[u8],
    fork: u8,
    file_block: u16,
) -> &'a [u8]
    ensures part { PartOf catalog.entry extents.entry result (block_of catalog.now extents.now (length catalog_work.old) (length extents_work.old) (asked parent name.now) fork file_block) }
    ensures catalog_leaves { Leaves catalog.now (catalog_number catalog.now (length catalog_work.old) (asked parent name.now) fork) catalog_work.old catalog_work.new }
    ensures extents_leaves { ExtentsLeft extents.now (catalog_number catalog.now (length catalog_work.old) (asked parent name.now) fork) extents_work.old extents_work.new }
{
    match block(
        catalog,
        catalog_work,
        extents,
        extents_work,
        parent,
        name,
        fork,
        file_block,
    ) {
        Mapping::Mapped(covering, _) => {
            let start = covering.start;
            let source = covering.source;
            match source {
                Source::Catalog => part_at(catalog, start, 12),
                Source::Extents => part_at(extents, start, 12),
            }
        }
        Mapping::Refused(_, _, _) => no_part(catalog),
    }
}
