// Those of the paper's bench images that are run and not computed: each is built as the paper says, and checked.
#![tactic(auto)]

ghost use Rattle.std.specs.Prelude.{◌^◌, ◌<◌};

use bench_images::tree::{put_empty_tree, put_index_tree, put_leaf_tree, put_map_loop};
use printing::print_case;
use std::io;
use std::io::Stdout;

// The verdict on an image of N bytes, built in zeros.
fn case<const N: usize, F: FnOnce(&mut [u8])>(
    out: &mut Stdout,
    name: &[u8],
    build: F,
) -> io::Result<()>
    requires fits { N < 2 ^ 63 }
    requires callable { F.IsAlwaysCallable build }
{
    let mut image = [0u8; N];
    build(&mut image);
    print_case(out, name, &image)
}

fn main(rt: HostRuntime) -> io::Result<()> {
    let out = &mut rt.stdout();
    case::<512, _>(out, b"512 zero bytes", |_| {})?;
    case::<1024, _>(out, b"22 leaf records", |image| {
        put_leaf_tree(image, 22, 0x01C6)
    })?;
    case::<1024, _>(out, b"23 leaf records", |image| {
        put_leaf_tree(image, 23, 0x01DA)
    })?;
    case::<18944, _>(out, b"35 index records", |image| {
        put_index_tree(image, 35, 0x01B2, 0xFFFF_FFFF, 0xF8)
    })?;
    case::<19456, _>(out, b"36 index records", |image| {
        put_index_tree(image, 36, 0x01BE, 0xFFFF_FFFF, 0xFC)
    })?;
    case::<1048576, _>(out, b"2,048 nodes without a map node", |image| {
        put_empty_tree(image, 2048)
    })?;
    case::<1049088, _>(out, b"2,049 nodes without a map node", |image| {
        put_empty_tree(image, 2049)
    })?;
    case::<1024, _>(out, b"a map node linked to itself", put_map_loop)
}
