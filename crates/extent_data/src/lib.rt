// The data of an extents record of HFS, three pairs of first block and block count: those of a leaf record of the extents overflow file, and the first ones of a fork in the catalog.
#![tactic(auto)]

pub mod pairs;

ghost use Rattle.std.specs.Prelude.{◌≡◌, ◌<◌};
ghost use Rattle.extent_data.specs.Data.{extent_data_at};

use image::bytes::be16;

// Six fields and no array of pairs: the definitions and theorems name each of the six.
#[derive(Clone, Copy)]
pub struct ExtentData {
    pub block1: u32,
    pub count1: u32,
    pub block2: u32,
    pub count2: u32,
    pub block3: u32,
    pub count3: u32,
}

// The pairs that start at a byte of the image.
pub fn extent_data_at(image: &[u8], at: usize) -> ExtentData
    requires { at < 400000000000000 }
    ensures { result ≡ extent_data_at image.now at }
{
    ExtentData {
        block1: be16(image, at),
        count1: be16(image, at + 2),
        block2: be16(image, at + 4),
        count2: be16(image, at + 6),
        block3: be16(image, at + 8),
        count3: be16(image, at + 10),
    }
}
