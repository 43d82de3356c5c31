// The three pairs of an extents record, counted off. Sums are of 64 bits, so that none wraps.
ghost use Rattle.std.specs.Prelude.{◌≡◌, ◌<◌};
ghost use Rattle.extent_data.specs.Pairs.{block_count, counted_off};

use super::ExtentData;

// How many blocks they are.
pub fn block_count(extents: ExtentData) -> u64
    ensures { (result ≡ block_count extents) × (result < 12884901888) }
{
    u64::from(extents.count1) + u64::from(extents.count2) + u64::from(extents.count3)
}

// The volume block of one of them, by its number from 0: the pairs counted off in order.
pub fn counted_off(extents: ExtentData, number: u32) -> u64
    ensures { result ≡ counted_off extents number }
{
    let number = u64::from(number);
    let count1 = u64::from(extents.count1);
    if number < count1 {
        return u64::from(extents.block1) + number;
    }
    let rest = number - count1;
    let count2 = u64::from(extents.count2);
    if rest < count2 {
        return u64::from(extents.block2) + rest;
    }
    u64::from(extents.block3) + (rest - count2)
}
