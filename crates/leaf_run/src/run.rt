// A run over the leaves below an index node of an HFS extents tree: as many as surely pass, with no walk moved for each.
ghost use Rattle.std.specs.Prelude.{◌≡◌, true, ◌+◌, ◌-◌, ◌<◌};
ghost use Rattle.leaf_run.specs.Run.{ran_of, Addable, Readable, CanRun, RunReady, Ran};

use super::leaves::{hfs_start, leaves_from};
use fast_nodes::records::is_hfs;
use frame::form::Form;
use image::within::byte_in;
use step::state::Walk;

// So many nodes, the last of them, and their records.
#[derive(Clone, Copy)]
pub struct Run {
    pub count: u32,
    pub last: u32,
    pub records: u32,
}

// The walk after a run on a level.
pub fn ran(mut w: Walk, level: u32, run: Run) -> Walk
    requires { Addable w level run }
    ensures { result ≡ ran_of w level run }
{
    w.last[level as usize] = run.last;
    w.records += run.records;
    w.nodes += run.count;
    w
}

// Whether the image has all that a run reads.
fn is_readable(image: &[u8], p: u32, node: u32, c: u32, high: usize) -> bool
    requires { high < 1000000000000000 }
    ensures { result ≡ true → Readable image.now p node c high }
{
    if c > 35 {
        return false;
    }
    if hfs_start(p) + 512 > image.len() {
        return false;
    }
    let at = hfs_start(node);
    if at + 512 > image.len() {
        return false;
    }
    if byte_in(image, at + 8) != 0 {
        return false;
    }
    if high + 7 > image.len() {
        return false;
    }
    true
}

// Whether a run can begin: the first leaf then stays what it is.
fn can_run(
    form: Form,
    image: &[u8],
    w: Walk,
    p: u32,
    node: u32,
    c: u32,
    below: u32,
    high: usize,
) -> bool
    requires { high < 1000000000000000 }
    ensures { result ≡ true → CanRun form image.now w below p node c high }
{
    below == 1 && is_hfs(form) && w.first != 0 && is_readable(image, p, node, c, high)
}

// As many leaves from record i of c on as surely pass, where all below the node are leaves. By numbers and no struct, which are held in registers: the walk's
// state moved as a struct cost a fifth of the time.
pub fn leaf_run(
    form: Form,
    image: &[u8],
    bits: &mut [u8],
    w: Walk,
    node: u32,
    i: u32,
    c: u32,
    level: u32,
    below: u32,
    high: usize,
) -> Run
    requires { RunReady form image.now bits.old w below level node i c high }
    ensures { Ran form image.now bits.old bits.new w (below - 1) level node i c high result }
{
    let p = w.last[(level + 1) as usize];
    if can_run(form, image, w, p, node, c, below, high) {
        return leaves_from(image, bits, p, node, i, c, high);
    }
    Run {
        count: 0,
        last: p,
        records: 0,
    }
}
