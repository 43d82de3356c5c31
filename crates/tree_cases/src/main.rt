// Small trees with a fault: levels, pointer keys, child numbers, links and keys. Each is built, and checked.
#![tactic(auto)]

ghost use Rattle.std.specs.Prelude.{◌≤◌};

use bench_images::put::{put8, put32};
use bench_images::tree::{put_index_tree, put_leaf_tree};
use printing::print_case;
use std::io;
use std::io::Stdout;

// A root over two leaves, of the files 1 and 2, with a change.
fn changed<F: FnOnce(&mut [u8])>(out: &mut Stdout, name: &[u8], change: F) -> io::Result<()>
    requires { F.IsAlwaysCallable change }
{
    let mut image = [0u8; 2048];
    put_index_tree(&mut image, 2, 0x0026, 0xF000_0000, 0);
    change(&mut image);
    print_case(out, name, &image)
}

// With other levels, that of the root and that of the leaves.
fn other_levels(out: &mut Stdout, name: &[u8], root: u32, leaves: u32) -> io::Result<()> {
    changed(out, name, |image| {
        put8(image, 521, root);
        put8(image, 1033, leaves);
        put8(image, 1545, leaves);
    })
}

// With another number at this byte.
fn other_number(out: &mut Stdout, name: &[u8], at: usize, number: u32) -> io::Result<()>
    requires { at ≤ 4000100 }
{
    changed(out, name, |image| put32(image, at, number))
}

// Pointer keys: the low half of the file number, and the start block.
fn pointers(out: &mut Stdout) -> io::Result<()> {
    other_number(out, b"pointer 0 below", 530, 0x0000_0000)?;
    other_number(out, b"pointer 0 above", 530, 0x0001_0001)?;
    other_number(out, b"pointer 1 below", 542, 0x0001_0001)?;
    other_number(out, b"pointer 1 above", 542, 0x0002_0001)
}

// The root field, the child numbers of the root, a forward and a back link.
fn numbers(out: &mut Stdout) -> io::Result<()> {
    other_number(out, b"root is node 4 of 4", 16, 4)?;
    other_number(out, b"child 0 is the root", 534, 1)?;
    other_number(out, b"child 1 is child 0", 546, 2)?;
    other_number(out, b"forward link of node 2", 1024, 0)?;
    other_number(out, b"back link of node 3", 1540, 0)
}

// A leaf of 22 records, of the files from 1 up, in two of which the low half of the file number and the start block are others.
fn other_keys(out: &mut Stdout, name: &[u8], file5: u32, file9: u32) -> io::Result<()> {
    let mut image = [0u8; 1024];
    put_leaf_tree(&mut image, 22, 0x01C6);
    put32(&mut image, 630, file5);
    put32(&mut image, 710, file9);
    print_case(out, name, &image)
}

fn keys(out: &mut Stdout) -> io::Result<()> {
    other_keys(out, b"record 9 as the one before", 0x0006_0000, 0x0009_0000)?;
    other_keys(out, b"record 9 as the one after", 0x0006_0000, 0x000B_0000)?;
    other_keys(
        out,
        b"records 5 and 9 as those before",
        0x0005_0000,
        0x0009_0000,
    )
}

fn levels(out: &mut Stdout) -> io::Result<()> {
    other_levels(out, b"levels 2, 1", 2, 1)?;
    other_levels(out, b"levels 1, 2", 1, 2)?;
    other_levels(out, b"levels 1, 0", 1, 0)?;
    other_levels(out, b"levels 2, 0", 2, 0)
}

fn main(rt: HostRuntime) -> io::Result<()> {
    let out = &mut rt.stdout();
    levels(out)?;
    pointers(out)?;
    numbers(out)?;
    keys(out)
}
