// What block mapping says.
ghost use Rattle.std.specs.Prelude.{◌≡◌};
ghost use Rattle.coverings.specs.Answers.{mapped_to};

use btree::Place;
use btree::fault::Refusal;

// Which of the two images an answer concerns.
#[derive(Clone, Copy)]
pub enum Source {
    Catalog,
    Extents,
}

// The record that covers a block: the image that holds it, where it starts, and the byte of that image where its three pairs start.
#[derive(Clone, Copy)]
pub struct Covering {
    pub source: Source,
    pub place: Place,
    pub start: usize,
}

// One enum with the data of each case, like the answer of a lookup, as `BlockSays` has it.
#[derive(Clone, Copy)]
pub enum Mapping {
    // The covering record, and the volume block.
    Mapped(Covering, u32),
    // The image, the number and the place of the fault.
    Refused(Source, u32, Place),
}

// A block that this record covers, at this volume block.
pub fn mapped_to(covering: Covering, volume: u64) -> Mapping
    ensures { result ≡ mapped_to covering volume }
{
    if volume > 65_535 {
        let place = Place { node: 0, offset: 0 };
        return Mapping::Refused(covering.source, Refusal::VolumeBlock.number(), place);
    }
    Mapping::Mapped(covering, volume as u32)
}
