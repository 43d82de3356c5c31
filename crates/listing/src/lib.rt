// The rows of a listing: the leaf records of an image in leaf order, and the fields of each. Any bytes are an image.
#![tactic(auto)]

ghost use Rattle.std.specs.Prelude.{◌≡◌, length};
ghost use Rattle.btree.specs.Header.{leaf_records_of};
ghost use Rattle.extents.specs.Reader.{Sound, leaf_list};
ghost use Rattle.listing.specs.Rows.{leaf_row, EndsAt, fields_of};

use formats::records::record_at;
use frame::form::of_hfs;
use frame::node::{count_of, forward_of};
use image::bytes::{be16, be32, byte_at};

// A leaf record by its node and its number in that node, from 0.
#[derive(Clone, Copy)]
pub struct LeafRecord {
    pub node: u32,
    pub number: u32,
}

// The header's count of leaf records, which of a sound image is that of its rows.
pub fn row_count(image: &[u8]) -> u32
    ensures equal { result ≡ leaf_records_of image.now }
    ensures whole { Sound image.now → result ≡ length (leaf_list image.now) }
{
    be32(image, 20)
}

// Leaf record k from 0, if there is one, along the forward links; as many links as there are nodes, so that links which go round end.
pub fn leaf_record(image: &[u8], k: u32) -> Option<LeafRecord>
    ensures equal { result ≡ leaf_row image.now k }
    ensures whole { Sound image.now → EndsAt (leaf_records_of image.now) k result }
{
    let mut node = be32(image, 24);
    let mut left = k;
    for _ in 0..be32(image, 36) {
        if node == 0 {
            return None;
        }
        let c = count_of(of_hfs(), image, node);
        if left < c {
            return Some(LeafRecord { node, number: left });
        }
        left -= c;
        node = forward_of(of_hfs(), image, node);
    }
    None
}

// File number, fork, start block, and the three pairs of first block and block count.
pub fn row_fields(image: &[u8], row: LeafRecord) -> [u32; 9]
    ensures { result ≡ fields_of image.now row.node row.number }
{
    let key = record_at(of_hfs(), image, row.node, row.number);
    let data = key + 8;
    [
        be32(image, key + 2),
        byte_at(image, key + 1),
        be16(image, key + 6),
        be16(image, data),
        be16(image, data + 2),
        be16(image, data + 4),
        be16(image, data + 6),
        be16(image, data + 8),
        be16(image, data + 10),
    ]
}
