// A row of packed keys of HFS, each looked for in a tree that has been checked.
ghost use Rattle.std.specs.Prelude.{◌≡◌, ◌≤◌, length};
ghost use Rattle.search.specs.Rows.{result_in, filled, Placeable};

use super::descent::descend;
use btree::Answer;
use extent_keys::key::{is_key, unpack};
use formats::records::data_at;
use frame::form::of_hfs;
use image::part::no_part;

fn result_in(image: &[u8], number: u64) -> u32
    requires { Placeable image.now }
    ensures { result ≡ result_in image.now number }
{
    if !is_key(number) {
        return 1;
    }
    let form = of_hfs();
    let found = descend(form, image, unpack(number), no_part(image));
    let answer = found.answer;
    match answer {
        Answer::Found(place) => data_at(form, image, place) as u32,
        Answer::Absent(_) => 0,
        Answer::Refused(_, _) => 1,
    }
}

// One result for each key; those beyond the keys stay. Two rows and an index over both, as the C interface lends them.
pub fn fill(image: &[u8], keys: &[u64], results: &mut [u32])
    requires { Placeable image.now × (length keys.now ≤ length results.old) }
    ensures { results.new ≡ filled (result_in image.now) keys.now results.old }
{
    for i in 0..keys.len() {
        results[i] = result_in(image, keys[i]);
    }
}
