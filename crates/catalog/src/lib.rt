// The reader of the catalog file of an HFS volume. Any bytes are an image, and nobody has to have checked it first.
#![tactic(auto)]

pub mod answers;

ghost use Rattle.std.specs.Prelude.{◌≡◌, ◌<◌, length};
ghost use Rattle.std.proofs.Math.Decide.{dec_le};
ghost use Rattle.btree.specs.Decide.{says};
ghost use Rattle.btree.specs.Faults.{verdict_of};
ghost use Rattle.catalog_keys.specs.Key.{asked, longest_name};
ghost use Rattle.catalog.specs.Reader.{checked, CheckSays, Leaves, looked_up, lookup_reply, data_part, found_part, salvaged, seen_part};
ghost use Rattle.catalog.specs.Demands.{LookupSays, SalvageSays, PartOf};

use answers::{Lookup, Salvage, answered_as, seen_as};
use btree::Place;
use btree::fault::Fault;
use extent_keys::key::SortKey;
use frame::form::of_catalog;

// Whether a name may be asked for: one of more than 31 bytes is in no catalog.
fn is_short(name: &[u8]) -> bool
    ensures { result ≡ says (dec_le (length name.now) longest_name) }
{
    name.len() <= 31
}

// The parent's number, as the tree is asked for it.
fn sort_key(parent: u32) -> SortKey
    ensures { result.owner ≡ parent }
{
    SortKey {
        owner: parent as u64,
        start: 0,
    }
}

// The first fault in the order of tests; that of the working bytes where too few are lent; none for a sound image.
pub fn check(image: &[u8], work: &mut [u8]) -> Result<(), Fault>
    ensures equal { verdict_of result ≡ checked image.now (length work.old) }
    ensures says { CheckSays image.now (length work.old) (verdict_of result) }
    ensures leaves { Leaves image.now (verdict_of result).number work.old work.new }
{
    checks::check(of_catalog(), image, work)
}

// What stands under a key: first the name's length is judged, then the whole image, and only then the tree is searched.
pub fn lookup(image: &[u8], parent: u32, name: &[u8], work: &mut [u8]) -> Lookup
    ensures equal { result ≡ looked_up image.now (asked parent name.now) (length work.old) }
    ensures says { LookupSays image.now (asked parent name.now) (length work.old) result }
    ensures leaves { Leaves image.now (lookup_reply result.answer).number work.old work.new }
{
    let lawful = is_short(name);
    let found = reader::lookup(of_catalog(), image, lawful, sort_key(parent), name, work);
    Lookup {
        answer: answered_as(image, found.answer),
        path: found.path,
        compared: found.compared,
    }
}

// The byte of the image where the data starts of the leaf record at a place, as a lookup answers it.
pub fn data_at(image: &[u8], place: Place) -> usize
    ensures { (result ≡ (data_part image.now place).at) × (result < 300000000000000) }
{
    formats::records::data_at(of_catalog(), image, place)
}

// The data bytes of the record that a lookup finds, 70, 102 or 46, or else the empty part at the image's start.
pub fn lookup_part<'a>(image: &'a [u8], parent: u32, name: &[u8], work: &mut [u8]) -> &'a [u8]
    ensures part { PartOf image.entry result (found_part image.now (looked_up image.now (asked parent name.now) (length work.old)).answer) }
    ensures leaves { Leaves image.now (lookup_reply (looked_up image.now (asked parent name.now) (length work.old)).answer).number work.old work.new }
{
    let lawful = is_short(name);
    reader::lookup_part(of_catalog(), image, lawful, sort_key(parent), name, work)
}

// The first record with the key in any whole leaf from node 1 up, in the tree or not. Seen proves nothing: a freed node may hold an old record.
pub fn salvage(image: &[u8], parent: u32, name: &[u8]) -> Salvage
    ensures equal { result ≡ salvaged image.now (asked parent name.now) }
    ensures says { SalvageSays image.now (asked parent name.now) result }
{
    let lawful = is_short(name);
    let seen = reader::salvage(of_catalog(), image, lawful, sort_key(parent), name);
    seen_as(image, seen)
}

// The data bytes of the record that `salvage` sees; else the empty part at the image's start.
pub fn salvage_part<'a>(image: &'a [u8], parent: u32, name: &[u8]) -> &'a [u8]
    ensures { PartOf image.entry result (seen_part image.now (salvaged image.now (asked parent name.now))) }
{
    let lawful = is_short(name);
    reader::salvage_part(of_catalog(), image, lawful, sort_key(parent), name)
}
