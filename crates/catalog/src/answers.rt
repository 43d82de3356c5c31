// What the calls say of a catalog: as of every tree, and with what stands under a key the entry there.
ghost use Rattle.std.specs.Prelude.{◌≡◌};
ghost use Rattle.catalog.specs.Answers.{entry_of, answered_as, seen_as};

use btree::{Path, Place};
use catalog_entries::{Entry, entry_at};
use formats::records::place_at;
use frame::form::of_catalog;

// What a lookup says: one enum with the data of each case, as every theorem on lookups has it.
#[derive(Clone, Copy)]
pub enum Answer {
    // Where the record starts, and what it says.
    Found(Place, Entry),
    // The last node read, 0 where there is none.
    Absent(u32),
    // The number and the place of the fault.
    Refused(u32, Place),
}

#[derive(Clone, Copy)]
pub struct Lookup {
    pub answer: Answer,
    pub path: Path,
    // How many keys were compared by halving, in all nodes of the path; 0 when refused.
    pub compared: u32,
}

// What salvage says: seen and not seen are weaker words than found and absent, and a type of their own, as its theorems have it.
#[derive(Clone, Copy)]
pub enum Salvage {
    // Where the record starts, and what it says.
    Seen(Place, Entry),
    NotSeen,
    // The number and the place of the fault.
    Refused(u32, Place),
}

// The data of the leaf record that starts at a place.
fn entry_of(image: &[u8], place: Place) -> Entry
    ensures { result ≡ entry_of image.now place }
{
    entry_at(image, place_at(of_catalog(), place))
}

// What is answered of every tree, with the entry found: no `From`, as the entry is read in the image.
pub fn answered_as(image: &[u8], answer: btree::Answer) -> Answer
    ensures { result ≡ answered_as image.now answer }
{
    match answer {
        btree::Answer::Found(place) => Answer::Found(place, entry_of(image, place)),
        btree::Answer::Absent(node) => Answer::Absent(node),
        btree::Answer::Refused(number, place) => Answer::Refused(number, place),
    }
}

// What is seen in every tree, with the entry seen.
pub fn seen_as(image: &[u8], seen: btree::Salvage) -> Salvage
    ensures { result ≡ seen_as image.now seen }
{
    match seen {
        btree::Salvage::Seen(place) => Salvage::Seen(place, entry_of(image, place)),
        btree::Salvage::NotSeen => Salvage::NotSeen,
        btree::Salvage::Refused(number, place) => Salvage::Refused(number, place),
    }
}
