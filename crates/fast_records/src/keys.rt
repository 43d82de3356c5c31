// The keys of an HFS node in one pass. Each is read as one number, at the end of a turn, so that its bytes are one load.
ghost use Rattle.std.specs.Prelude.{◌≡◌, true, ◌+◌, ◌-◌, ◌*◌, ◌/◌, ◌%◌, ◌<◌, ◌≤◌, length, IfSome, MatchOption};
ghost use Rattle.image.specs.Bytes.{be64_at};
ghost use Rattle.fast_records.specs.Keyed.{turn, packed_at, Clean, LawfulKey, Rises};

use image::within::be64_in;

// Two bytes to the left.
fn rotated(raw: u64) -> u64
    ensures { result ≡ raw % 281474976710656 * 65536 + raw / 281474976710656 }
{
    raw % 281_474_976_710_656 * 65_536 + raw / 281_474_976_710_656
}

// One byte to the right.
fn rotated_half(half: u32) -> u32
    ensures { result ≡ half / 256 + half % 256 * 16777216 }
{
    half / 256 + half % 256 * 16_777_216
}

// Length, fork, file number, start block become file number, fork, start block, length.
pub fn turned(raw: u64) -> u64
    ensures { result ≡ turn raw }
{
    let whole = rotated(raw);
    let half = rotated_half((whole % 4_294_967_296) as u32);
    whole / 4_294_967_296 * 4_294_967_296 + (half as u64)
}

// What is noted so far, and of a turned key its length and its fork byte: less 7 the length leaves eight bits clear, and with 1 added the lawful fork bytes,
// 00 and FF, leave seven. No key is branched on, as which fork comes is hard to foresee.
fn noted(notes: u64, key: u64) -> u64
    ensures { Clean result → Clean notes × LawfulKey key }
{
    notes | (key % 4_294_967_296 + 16_777_209)
}

fn is_clean(notes: u64) -> bool
    ensures { result ≡ true → Clean notes }
{
    if notes % 256 != 0 {
        return false;
    }
    notes / 33_554_432 % 128 == 0
}

// The packed number of a turned key where the notes are clean.
fn packed_if_clean(notes: u64, key: u64) -> Option<u64>
    ensures { IfSome result (λ packed. Clean notes × (packed ≡ key / 256)) }
{
    if !is_clean(notes) {
        return None;
    }
    Some(key / 256)
}

// The packed number of the last of c keys where they are lawful and ascend; None says nothing.
pub fn last_rising(image: &[u8], first: usize, step: usize, c: u32, raw: u64) -> Option<u64>
    requires { (0 < c) × (step ≤ 20) × (first + c * step + 8 ≤ length image.now) × (raw ≡ be64_at image.now first) }
    ensures { IfSome result (λ last. Rises image.now first step c last) }
{
    let mut key = turned(raw);
    let mut notes = noted(0, key);
    let mut at = first + step;
    let mut next = be64_in(image, at);
    for _i in 1..c {
        let above = turned(next);
        if above <= key {
            return None;
        }
        notes = noted(notes, above);
        key = above;
        at += step;
        next = be64_in(image, at);
    }
    packed_if_clean(notes, key)
}

// The same of the 22 keys of a full leaf, three in a turn: 40 instructions for three, where the general one takes 16 for each.
pub fn last_of_full(image: &[u8], first: usize, raw: u64) -> Option<u64>
    requires { (first + 498 ≤ length image.now) × (raw ≡ be64_at image.now first) }
    ensures { IfSome result (λ last. Rises image.now first 20 22 last) }
{
    let mut key = turned(raw);
    let mut notes = noted(0, key);
    let mut at = first;
    let mut next = be64_in(image, at + 20);
    let mut second = be64_in(image, at + 40);
    let mut third = be64_in(image, at + 60);
    for _turn in 0..7_u32 {
        let above = turned(next);
        if above <= key {
            return None;
        }
        notes = noted(notes, above);
        let higher = turned(second);
        if higher <= above {
            return None;
        }
        notes = noted(notes, higher);
        key = turned(third);
        if key <= higher {
            return None;
        }
        notes = noted(notes, key);
        at += 60;
        next = be64_in(image, at + 20);
        second = be64_in(image, at + 40);
        third = be64_in(image, at + 60);
    }
    packed_if_clean(notes, key)
}

// The packed number of the key that stands before `after`; at 0 none does.
pub fn packed_before(image: &[u8], after: usize) -> Option<u64>
    requires { after + 7 ≤ length image.now }
    ensures { MatchOption result (after ≡ 0) (λ key. (after ≡ 0 → ⊥) × (key ≡ packed_at image.now (after - 1))) }
{
    if after == 0 {
        return None;
    }
    Some(turned(be64_in(image, after - 1)) / 256)
}
