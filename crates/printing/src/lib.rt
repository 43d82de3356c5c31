// Prints the listing of an image, or of what a reader gives; and the verdict on an image that has a name.
#![tactic(auto)]

ghost use Rattle.std.specs.Prelude.{◌≡◌};
ghost use Rattle.std.specs.Io.{ReadsAtMost};
ghost use Rattle.extents.specs.Reader.{verdict};

use btree::Verdict;
use btree::fault::verdict;
use extents::check;
use lines::{print_count, print_fields, print_titles, print_verdict};
use listing::{leaf_record, row_count, row_fields};
use std::io;
use std::io::{Read, Write};

pub mod lines;

fn print_rows<W: Write>(out: &mut W, image: &[u8], rows: u32) -> io::Result<()> {
    for k in 0..rows {
        if let Some(row) = leaf_record(image, k) {
            print_fields(out, row_fields(image, row))?;
        }
    }
    Ok(())
}

// With the bytes that the longest image needs: a bit for each of 65,536 nodes.
fn verdict_on(image: &[u8]) -> Verdict
    ensures { result ≡ verdict image.now }
{
    let mut work = [0u8; 8192];
    verdict(check(image, &mut work))
}

// The verdict; and of a sound image the leaf records and their count.
pub fn print_listing<W: Write>(out: &mut W, image: &[u8]) -> io::Result<()> {
    let verdict = verdict_on(image);
    print_verdict(out, verdict)?;
    if verdict.number != 0 {
        return Ok(());
    }
    print_titles(out)?;
    let rows = row_count(image);
    print_rows(out, image, rows)?;
    print_count(out, rows)
}

// A name, and the verdict on its image.
pub fn print_case<W: Write>(out: &mut W, name: &[u8], image: &[u8]) -> io::Result<()> {
    out.write_all(name)?;
    out.write_all(b": ")?;
    print_verdict(out, verdict_on(image))
}

// Reads until the input ends or buf is full, and answers how many bytes; or the error of the read that failed.
fn read_full<R: Read>(input: &mut R, buf: &mut [u8]) -> io::Result<usize>
    ensures { ReadsAtMost result buf.new }
{
    let mut done = 0;
    // Counted by hand: `read_exact` does not say how many bytes came before an early end, and `read_to_end` needs a heap.
    while done < buf.len() {
        let n = input.read(&mut buf[done..])?;
        if n == 0 {
            break;
        }
        done += n;
    }
    Ok(done)
}

// Reads an input to its end. One byte more than is listed is asked for, so that a longer input is seen.
pub fn print_input<W: Write, R: Read>(out: &mut W, input: &mut R) -> io::Result<()> {
    let mut buf = [0u8; 65537];
    match read_full(input, &mut buf) {
        Ok(n) if n > 65536 => writeln!(out, "too long"),
        Ok(n) => print_listing(out, &buf[..n]),
        Err(_) => writeln!(out, "cannot read the input"),
    }
}
