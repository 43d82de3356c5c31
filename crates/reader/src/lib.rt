// The reader of a tree file of any form. Any bytes are an image, and nobody has to have checked it first.
#![tactic(auto)]

ghost use Rattle.std.specs.Prelude.{◌≡◌, length};
ghost use Rattle.btree.specs.Numbers.{lookup_reply};
ghost use Rattle.btree.specs.Search.{refused};
ghost use Rattle.frame.specs.Form.{Fair};
ghost use Rattle.formats.specs.Asked.{asked_rank};
ghost use Rattle.reader.specs.Reader.{Leaves, looked_up_by, found_part, salvaged_by, seen_part, unseen};
ghost use Rattle.reader.specs.Demands.{PartOf};

use btree::fault::{Fault, Refusal, verdict};
use btree::{Answer, Lookup, Path, Place, Salvage, Verdict};
use checks::check;
use extent_keys::key::SortKey;
use formats::records::data_of;
use frame::form::Form;
use image::part::no_part;
use scan::first_seen;
use search::descent::descend;

// A lookup that is refused: no path, no key compared.
pub fn refusal(t: Verdict) -> Lookup
    ensures { result ≡ refused t.number t.place }
{
    Lookup {
        answer: Answer::Refused(t.number, t.place),
        path: Path {
            nodes: [0; 8],
            len: 0,
        },
        compared: 0,
    }
}

// A salvage that is refused.
pub fn unseen(fault: Fault) -> Salvage
    ensures { result ≡ unseen fault }
{
    Salvage::Refused(fault.refusal.number(), fault.place)
}

// These four ask a fair size once more, which `Form` has: their proofs need it where no call below hands it out.
// What stands under a key: first it is judged whether the key may be asked for, then the whole image, and only then the tree is searched.
pub fn lookup(
    form: Form,
    image: &[u8],
    lawful: bool,
    key: SortKey,
    name: &[u8],
    work: &mut [u8],
) -> Lookup
    requires { Fair form }
    ensures equal { result ≡ looked_up_by form image.now lawful (asked_rank form key name.now) (length work.old) }
    ensures leaves { Leaves form image.now (lookup_reply result.answer).number work.old work.new }
{
    if !lawful {
        return refusal(verdict(Err(Fault::at_node(Refusal::AskedKey, 0))));
    }
    match check(form, image, work) {
        Ok(()) => descend(form, image, key, name),
        Err(fault) => refusal(verdict(Err(fault))),
    }
}

// The data bytes of the record that a lookup finds, or else the empty part at the image's start.
pub fn lookup_part<'a>(
    form: Form,
    image: &'a [u8],
    lawful: bool,
    key: SortKey,
    name: &[u8],
    work: &mut [u8],
) -> &'a [u8]
    requires { Fair form }
    ensures part { PartOf image.entry result (found_part form image.now (looked_up_by form image.now lawful (asked_rank form key name.now) (length work.old)).answer) }
    ensures leaves { Leaves form image.now (lookup_reply (looked_up_by form image.now lawful (asked_rank form key name.now) (length work.old)).answer).number work.old work.new }
{
    let found = lookup(form, image, lawful, key, name, work);
    match found.answer {
        Answer::Found(place) => data_of(form, image, place),
        Answer::Absent(_) | Answer::Refused(_, _) => no_part(image),
    }
}

// The first record with the key in any whole leaf from node 1 up, in the tree or not. Seen proves nothing: a freed node may hold an old record.
pub fn salvage(form: Form, image: &[u8], lawful: bool, key: SortKey, name: &[u8]) -> Salvage
    requires { Fair form }
    ensures { result ≡ salvaged_by form image.now lawful (asked_rank form key name.now) }
{
    if !lawful {
        return unseen(Fault::at_node(Refusal::AskedKey, 0));
    }
    if image.len() > 65_536 * (form.size() as usize) {
        return unseen(Fault::at_node(Refusal::ImageLength, 0));
    }
    first_seen(form, image, key, name)
}

// The data bytes of the record that `salvage` sees; else the empty part at the image's start.
pub fn salvage_part<'a>(
    form: Form,
    image: &'a [u8],
    lawful: bool,
    key: SortKey,
    name: &[u8],
) -> &'a [u8]
    requires { Fair form }
    ensures { PartOf image.entry result (seen_part form image.now (salvaged_by form image.now lawful (asked_rank form key name.now))) }
{
    match salvage(form, image, lawful, key, name) {
        Salvage::Seen(place) => data_of(form, image, place),
        Salvage::NotSeen | Salvage::Refused(_, _) => no_part(image),
    }
}
