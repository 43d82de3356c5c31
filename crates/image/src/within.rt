// Numbers that lie whole in an image: no test is left at run time, so that the bytes of one are read by one load.
ghost use Rattle.std.specs.Prelude.{◌≡◌, ◌+◌, ◌<◌, ◌≤◌, length, get_or};
ghost use Rattle.image.specs.Bytes.{be16_at, be32_at, be64_at};

pub fn byte_in(image: &[u8], at: usize) -> u32
    requires { at < length image.now }
    ensures { (result ≡ get_or image.now at 0) × (result < 256) }
{
    u32::from(image[at])
}

// By hand: with `u16::from_be_bytes` the bytes of `be64_in` are no longer one load, and the test of a full leaf takes 43 ns for 29.
pub fn be16_in(image: &[u8], at: usize) -> u32
    requires { at + 2 ≤ length image.now }
    ensures { (result ≡ be16_at image.now at) × (result < 65536) }
{
    u32::from(image[at]) * 256 + u32::from(image[at + 1])
}

// One function a width: a trait over the widths would be longer than the three, and each has the form that is quickest.
pub fn be32_in(image: &[u8], at: usize) -> u32
    requires { at + 4 ≤ length image.now }
    ensures { result ≡ be32_at image.now at }
{
    u32::from_be_bytes([image[at], image[at + 1], image[at + 2], image[at + 3]])
}

// Two bytes by two: with `u64::from_be_bytes` the test of a full leaf, which most are, takes 32 ns for 29 (of 21 records 30 for 34).
pub fn be64_in(image: &[u8], at: usize) -> u64
    requires { at + 8 ≤ length image.now }
    ensures { result ≡ be64_at image.now at }
{
    let first = u64::from(be16_in(image, at));
    let second = u64::from(be16_in(image, at + 2));
    let third = u64::from(be16_in(image, at + 4));
    let fourth = u64::from(be16_in(image, at + 6));
    first * 281_474_976_710_656 + second * 4_294_967_296 + third * 65_536 + fourth
}
