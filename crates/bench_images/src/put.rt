// Big-endian numbers, written into an image. A byte that the image does not have is not written.
ghost use Rattle.std.specs.Prelude.{◌≤◌, length};

// The low byte of a number. Not by `to_be_bytes`: of a number only its low bytes are written, and of those only what the image has.
pub fn put8(image: &mut [u8], at: usize, v: u32) {
    if at < image.len() {
        image[at] = (v % 256) as u8;
    }
}

pub fn put16(image: &mut [u8], at: usize, v: u32)
    requires { at ≤ 4000200 }
{
    put8(image, at, v / 256);
    put8(image, at + 1, v);
}

pub fn put32(image: &mut [u8], at: usize, v: u32)
    requires { at ≤ 4000100 }
{
    put16(image, at, v / 65536);
    put16(image, at + 2, v);
}

pub fn put_words(image: &mut [u8], at: usize, words: &[u32])
    requires { (at ≤ 4000000) × (length words.now ≤ 16) }
{
    for (i, word) in words.iter().enumerate() {
        put32(image, at + 4 * i, *word);
    }
}
