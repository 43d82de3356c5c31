// What is written of block mapping: seven numbers, and the covering record's pairs.
#![tactic(auto)]

ghost use Rattle.std.specs.Prelude.{◌≡◌};
ghost use Rattle.replies.specs.Written.{data_bytes};
ghost use Rattle.blocks.specs.Demands.{image_of};
ghost use Rattle.coverings.specs.Answers.{source_number, block_numbers};
ghost use Rattle.block_replies.specs.Written.{covering_bytes, Small};

use coverings::answers::{Covering, Mapping, Source};
use replies::part_bytes;

// A function and no `From`, which would have to stand in the source's own crate.
fn source_number(source: Source) -> u32
    ensures { result ≡ source_number source }
{
    match source {
        Source::Catalog => 0,
        Source::Extents => 1,
    }
}

pub fn block_numbers(mapping: Mapping) -> [u32; 7]
    requires { Small mapping }
    ensures { result ≡ block_numbers mapping }
{
    match mapping {
        Mapping::Mapped(covering, volume) => {
            let place = covering.place;
            let start = covering.start as u32;
            [
                0,
                source_number(covering.source),
                place.node,
                place.offset,
                volume,
                start,
                12,
            ]
        }
        Mapping::Refused(source, number, place) => [
            number,
            source_number(source),
            place.node,
            place.offset,
            0,
            0,
            0,
        ],
    }
}

fn pairs_bytes(catalog: &[u8], extents: &[u8], covering: Covering) -> [u8; 12]
    ensures { result ≡ data_bytes (image_of catalog.now extents.now covering.source) (record { at = covering.start; size = 12 }) }
{
    let image = match covering.source {
        Source::Catalog => catalog,
        Source::Extents => extents,
    };
    part_bytes(image, covering.start, 12)
}

pub fn covering_bytes(catalog: &[u8], extents: &[u8], mapping: Mapping) -> [u8; 12]
    requires { Small mapping }
    ensures { result ≡ covering_bytes catalog.now extents.now mapping }
{
    match mapping {
        Mapping::Mapped(covering, _) => pairs_bytes(catalog, extents, covering),
        Mapping::Refused(_, _, _) => [0; 12],
    }
}
