// The loop of a run over leaves. Each pointer record is read one turn before its own, so that its bytes are one load.
ghost use Rattle.std.specs.Prelude.{◌≡◌, ◌+◌, ◌*◌, ◌/◌, ◌<◌, ◌≤◌, length, IfSome, OnSome};
ghost use Rattle.btree.specs.Header.{count_of, total_of};
ghost use Rattle.frame.specs.Form.{hfs, layout_of};
ghost use Rattle.frame.specs.Inside.{NodeIn};
ghost use Rattle.fast_records.specs.Keyed.{turn};
ghost use Rattle.step.specs.Ready.{Walkable};
ghost use Rattle.leaf_run.specs.Run.{Tops, Surely, Runnable, RanFor};

use super::run::Run;
use fast_nodes::leaf::records_of_passing;
use fast_records::keys::{packed_before, turned};
use frame::form::of_hfs;
use frame::node::start_of;
use image::visited::mark;
use image::within::{be32_in, be64_in};
use step::node::is_fresh;

// Where an HFS node starts.
pub fn hfs_start(node: u32) -> usize
    ensures { (result ≡ node * 512) × (result < 140737488355328) }
{
    start_of(of_hfs(), node)
}

// The key that bounds the node, as a number; no packed key reaches the one that stands for none.
fn top_of(image: &[u8], high: usize) -> u64
    requires { high + 7 ≤ length image.now }
    ensures { Tops image.now high result }
{
    packed_before(image, high).unwrap_or(u64::MAX)
}

// The next pointer key, which has these eight bytes, bounds a leaf's keys; the node's own bound those of the last leaf.
fn top_after(j: u32, c: u32, next: u64, bound: u64) -> u64
    requires { j < c }
    ensures { (j + 1 < c → result ≡ turn next / 256) × (c ≤ j + 1 → result ≡ bound) }
{
    if j + 1 < c {
        return turned(next) / 256;
    }
    bound
}

// How many records a leaf has that surely passes after p, where its pointer key has these eight bytes and its keys are below `top`; None says nothing.
fn records_after(
    image: &[u8],
    bits: &[u8],
    total: u32,
    p: u32,
    node: u32,
    low: u64,
    top: u64,
) -> Option<u32>
    requires { Walkable hfs image.now bits.now × NodeIn hfs image.now p × (total ≡ total_of image.now) }
    ensures surely { OnSome result (Surely image.now bits.now p node low top) }
    ensures count { IfSome result (λ c. (c ≡ count_of (layout_of hfs) image.now node) × (c < 65536)) }
{
    if !is_fresh(bits, total, node) {
        return None;
    }
    if be32_in(image, hfs_start(p)) != node {
        return None;
    }
    records_of_passing(image, node, p, low, top)
}

// As many leaves from record i of c on as surely pass, where `before` was met last.
pub fn leaves_from(
    image: &[u8],
    bits: &mut [u8],
    before: u32,
    node: u32,
    i: u32,
    c: u32,
    high: usize,
) -> Run
    requires { Runnable image.now bits.old before node i c high }
    ensures { RanFor image.now bits.old bits.new before node i c high result }
{
    let bound = top_of(image, high);
    let total = be32_in(image, 36);
    let mut at = hfs_start(node) + 14 + (i as usize) * 12;
    let mut low = be64_in(image, at);
    let mut child = be32_in(image, at + 8);
    let mut last = before;
    let mut records: u32 = 0;
    for j in i..c {
        at += 12;
        let next = be64_in(image, at);
        let top = top_after(j, c, next, bound);
        let Some(n) = records_after(image, bits, total, last, child, low, top) else {
            return Run {
                count: j - i,
                last,
                records,
            };
        };
        records += n;
        mark(bits, child);
        last = child;
        low = next;
        child = be32_in(image, at + 8);
    }
    Run {
        count: c - i,
        last,
        records,
    }
}
