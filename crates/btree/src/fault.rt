// Why a call refuses, and where: the table's number of each reason, and its place.
ghost use Rattle.std.specs.Prelude.{◌≡◌};
ghost use Rattle.btree.specs.Places.{byte_of, node_place};
ghost use Rattle.btree.specs.Faults.{number_of, fault_at, verdict_of};

use super::{Place, Verdict};

// The reasons, in the order of the table.
#[derive(Clone, Copy, PartialEq, Eq)]
pub enum Refusal {
    ImageLength,
    HeaderNode,
    MapChain,
    ChildNumber,
    NodeForm,
    Key,
    SiblingLink,
    Totals,
    MapBit,
    FreeCount,
    AskedKey,
    Absent,
    FewResults,
    FewWorkingBytes,
    Uncovered,
    VolumeBlock,
    Row,
    FewNodes,
    NoFile,
    Form,
}

impl Refusal {
    // Its number in the table. A method and no `From`, as its name says which number.
    pub fn number(self) -> u32
        ensures { result ≡ number_of self }
    {
        match self {
            Refusal::ImageLength => 1,
            Refusal::HeaderNode => 2,
            Refusal::MapChain => 3,
            Refusal::ChildNumber => 4,
            Refusal::NodeForm => 5,
            Refusal::Key => 6,
            Refusal::SiblingLink => 7,
            Refusal::Totals => 8,
            Refusal::MapBit => 9,
            Refusal::FreeCount => 10,
            Refusal::AskedKey => 11,
            Refusal::Absent => 12,
            Refusal::FewResults => 15,
            Refusal::FewWorkingBytes => 16,
            Refusal::Uncovered => 17,
            Refusal::VolumeBlock => 18,
            Refusal::Row => 19,
            Refusal::FewNodes => 20,
            Refusal::NoFile => 24,
            Refusal::Form => 25,
        }
    }
}

#[derive(Clone, Copy)]
pub struct Fault {
    pub refusal: Refusal,
    pub place: Place,
}

impl Fault {
    // With a byte of a node as its place.
    pub fn at_byte(refusal: Refusal, node: u32, offset: u32) -> Fault
        ensures { result ≡ fault_at refusal (byte_of node offset) }
    {
        let place = Place { node, offset };
        Fault { refusal, place }
    }

    // With a node as its place, which is the offset 0 in it.
    pub fn at_node(refusal: Refusal, node: u32) -> Fault
        ensures { result ≡ fault_at refusal (node_place node) }
    {
        Fault::at_byte(refusal, node, 0)
    }
}

// A check's result as number and place.
pub fn verdict(checked: Result<(), Fault>) -> Verdict
    ensures { result ≡ verdict_of checked }
{
    match checked {
        Ok(()) => Verdict {
            number: 0,
            place: Place { node: 0, offset: 0 },
        },
        Err(fault) => Verdict {
            number: fault.refusal.number(),
            place: fault.place,
        },
    }
}
