// A key that stands in an image.
ghost use Rattle.std.specs.Prelude.{◌≡◌, ◌+◌, ◌≤◌, length};
ghost use Rattle.catalog_keys.specs.Key.{key_at, asked};

use super::names::NamedKey;
use image::part::part_at;
use image::within::{be32_in, byte_in};

// A key of the image, which has it whole: no key is longer than 38 bytes, and no name than 31.
pub fn key_in<'a>(image: &'a [u8], at: usize) -> NamedKey<'a>
    requires { at + 38 ≤ length image.now }
    ensures { asked result.parent result.name.now ≡ key_at image.now at }
{
    let length = byte_in(image, at + 6) as usize;
    NamedKey {
        parent: u64::from(be32_in(image, at + 2)),
        name: part_at(image, at + 7, length.min(31)),
    }
}
