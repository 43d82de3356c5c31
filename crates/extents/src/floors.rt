// The leaf record with the highest key not above another, as the call for it answers.
ghost use Rattle.std.specs.Prelude.{◌≡◌};
ghost use Rattle.extents.specs.Floor.{record_of, floored_as};

use btree::{Answer, Place};
use extent_data::{ExtentData, extent_data_at};
use formats::records::place_at;
use frame::form::of_hfs;
use image::bytes::{be16, be32, byte_at};

// A leaf record: its key and its data.
#[derive(Clone, Copy)]
pub struct ExtentRecord {
    pub file: u32,
    pub fork: u32,
    pub start: u32,
    pub extents: ExtentData,
}

// What a floor is: one enum with the data of each case, like the answer of a lookup, as `FloorSays` and what is above have it.
#[derive(Clone, Copy)]
pub enum Floor {
    // Where the record starts, and what it says.
    At(Place, ExtentRecord),
    // The key of every leaf record is above the asked one.
    Nowhere,
    // The number and the place of the fault.
    Refused(u32, Place),
}

// The leaf record that starts at a place.
fn record_of(image: &[u8], place: Place) -> ExtentRecord
    ensures { result ≡ record_of image.now place }
{
    let at = place_at(of_hfs(), place);
    let file = be32(image, at + 2);
    let fork = byte_at(image, at + 1);
    let start = be16(image, at + 6);
    let extents = extent_data_at(image, at + 8);
    ExtentRecord {
        file,
        fork,
        start,
        extents,
    }
}

// What the descent answers, with the record: no `From`, as the record is read in the image.
pub fn floored_as(image: &[u8], answer: Answer) -> Floor
    ensures { result ≡ floored_as image.now answer }
{
    match answer {
        Answer::Found(place) => Floor::At(place, record_of(image, place)),
        Answer::Absent(_) => Floor::Nowhere,
        Answer::Refused(number, place) => Floor::Refused(number, place),
    }
}
