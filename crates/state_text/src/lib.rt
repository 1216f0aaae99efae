// What stands in a state, as the replay format prints it.

#![tactic(auto)]

use instrument::Instrument;
use patterns::{Page, bits};
use stream::UnisonCopy;
use voice::Voice;

fn copy(page: &mut Page, c: &UnisonCopy) {
    let numbers = [
        bits(c.l),
        bits(c.r),
        bits(c.pitch),
        bits(c.pitch_target),
        bits(c.glide),
        bits(c.bend),
    ];
    match c.cutoff {
        None => page.put(b" (W W W W W W -)", &numbers),
        Some(x) => {
            page.put(b" (W W W W W W ", &numbers);
            page.put(b"W)", &[bits(x)]);
        }
    }
}

fn copies(page: &mut Page, v: &Voice) {
    page.put(b" (D", &[v.handle]);
    for c in v.live_copies() {
        copy(page, c);
    }
    page.put(b")", &[]);
}

fn row(page: &mut Page, v: &Voice) {
    let numbers = [
        v.handle,
        u64::from(v.note.0),
        u64::from(v.releasing),
        u64::from(v.sustained),
        bits(v.env.level),
    ];
    page.put(b" (D D D D W)", &numbers);
}

// The table, a row a voice.
pub fn voices(page: &mut Page, s: &Instrument) {
    page.put(b"(voices", &[]);
    for v in s.table.live() {
        row(page, v);
    }
    page.put(b")\n", &[]);
}

// Every copy of every voice.
pub fn every_copy(page: &mut Page, s: &Instrument) {
    page.put(b"(copies", &[]);
    for v in s.table.live() {
        copies(page, v);
    }
    page.put(b")\n", &[]);
}

// All that stands beside the table.
pub fn state(page: &mut Page, s: &Instrument) {
    let numbers = [
        s.next_handle,
        u64::from(s.sustain),
        bits(s.bend),
        bits(s.brightness),
        bits(s.vib_phase),
        bits(s.flt_phase),
        bits(s.trem_phase),
        bits(s.trem),
        s.frames as u64,
    ];
    page.put(b"(state D D W W W W W W D", &numbers);
    page.put_list(b'D', s.held.as_slice(), |note| u64::from(note.0));
    page.put(b")\n", &[]);
}
