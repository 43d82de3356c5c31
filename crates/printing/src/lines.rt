// The lines of a listing, on a writer.
use btree::Verdict;
use std::io;
use std::io::Write;

pub fn print_verdict<W: Write>(out: &mut W, v: Verdict) -> io::Result<()> {
    let place = v.place;
    writeln!(out, "verdict {} {} {}", v.number, place.node, place.offset)
}

pub fn print_titles<W: Write>(out: &mut W) -> io::Result<()> {
    writeln!(out, "file fork start s1 n1 s2 n2 s3 n3")
}

pub fn print_fields<W: Write>(out: &mut W, fields: [u32; 9]) -> io::Result<()> {
    let [file, fork, start, s1, n1, s2, n2, s3, n3] = fields;
    writeln!(out, "{file} {fork} {start} {s1} {n1} {s2} {n2} {s3} {n3}")
}

pub fn print_count<W: Write>(out: &mut W, rows: u32) -> io::Result<()> {
    writeln!(out, "records {rows}")
}
