// One tick, played and shown.
use rules::{Access, Handler, Input, Receive, Sample, Wires};
use trace::edition::carry;
use trace_rules::Edition;

// The cases keep document 01's numbers, and are played as its records say them. Class 0's registers, by number.
pub const REGWEN: u16 = 320;

pub const CTRL: u16 = 321;

pub const CLR: u16 = 323;

pub const ACCUM_CNT: u16 = 324;

pub const ACCUM_THRESH: u16 = 325;

pub const TIMEOUT_CYC: u16 = 326;

pub const PHASE0_CYC: u16 = 327;

pub const ESC_CNT: u16 = 331;

pub const STATE: u16 = 332;

// INTR_ENABLE.
pub const INTR_ENABLE: u16 = 1;

// REGWEN of alert 0, EN of alerts 0 and 1, and CTRL with EN, LOCK and all lines, line e in phase e.
pub const ALERT0_REGWEN: u16 = 64;

pub const ALERT0_EN: u16 = 128;

pub const ALERT1_EN: u16 = 129;

pub const ON: u32 = 0x393F;

// Positive wires with no alert, alert 0, alert 1, and both raised.
pub const REST: u64 = 0;

pub const RAISE: u64 = 0x8000_0000_0000_0000;

pub const RAISE_NEXT: u64 = 0x4000_0000_0000_0000;

pub const RAISE_TWO: u64 = 0xC000_0000_0000_0000;

// An access by document 01's numbers, as a record of 24 bytes gives it.
fn old(x: Access) -> Access {
    match x {
        Access::Read(r) => Access::Read(carry(Edition::Alerts64, r)),
        Access::Write(r, v) => Access::Write(carry(Edition::Alerts64, r), v),
        other => other,
    }
}

// An access by the map's numbers, these wires of the first alerts, the entropy word and what comes back from the lines.
pub fn timing(x: Access, pos: u64, neg: u64, word: u32, receive: Receive) -> Input {
    Input {
        access: x,
        sample: Sample {
            alerts: Wires {
                pos: [pos, 0, 0, 0],
                neg: [neg, 0, 0, 0],
            },
            word,
            receive,
        },
    }
}

// An access by document 01's numbers, word 0 and no answer: an older record's tick, whose lines' senders are not checked.
pub fn input(x: Access, pos: u64, neg: u64) -> Input {
    timing(old(x), pos, neg, 0, Receive::Answers(0))
}

// A tick that is not shown.
pub fn play(h: Handler, x: Access, pos: u64) -> Handler {
    handler::tick::tick(h, input(x, pos, !pos)).handler
}

// A first write, which is staged.
pub fn stage(h: Handler, r: u16, v: u32) -> Handler {
    play(h, Access::Write(r, v), REST)
}

// A register is given a value, by two equal writes.
pub fn configure(h: Handler, r: u16, v: u32) -> Handler {
    stage(stage(h, r, v), r, v)
}

// What register r holds.
pub fn value(h: Handler, r: u16) -> u32 {
    register_file::read::value_of(
        h,
        map::number::register_at(h.n, carry(Edition::Alerts64, r)),
    )
}

// A tick, shown as: answer, STATE, ESC_CNT and ACCUM_CNT of class 0, interrupts, lines.
pub fn show(rt: &impl Print, h: Handler, x: Access, pos: u64) -> Handler {
    let t = handler::tick::tick(h, input(x, pos, !pos));
    let g = t.handler;
    say!(rt; "  {} {} {} {} ", t.answer, value(g, STATE), value(g, ESC_CNT), value(g, ACCUM_CNT));
    say!(rt; "{} {}\n", t.output.interrupts, t.output.lines);
    g
}

// n ticks of rest, shown.
pub fn show_rest(rt: &impl Print, h: Handler, n: usize) -> Handler {
    let mut g = h;
    for _ in 0..n {
        g = show(rt, g, Access::Nothing, REST);
    }
    g
}

// n ticks of rest that are not shown, and one that is.
pub fn show_after(rt: &impl Print, h: Handler, n: usize) -> Handler {
    let mut g = h;
    for _ in 0..n {
        g = play(g, Access::Nothing, REST);
    }
    show(rt, g, Access::Nothing, REST)
}

// The ticks of rest between two rises of an alert, not shown: its drop, and two of pause.
pub fn pause(h: Handler) -> Handler {
    let h = play(h, Access::Nothing, REST);
    let h = play(h, Access::Nothing, REST);
    play(h, Access::Nothing, REST)
}

// n events of alert 0, each after a pause, not shown.
pub fn play_events(h: Handler, n: usize) -> Handler {
    let mut g = h;
    for _ in 0..n {
        g = pause(g);
        g = play(g, Access::Nothing, RAISE);
    }
    g
}

// Alert 0 enabled in class 0, which has EN, LOCK and all lines, and this threshold.
pub fn station(thresh: u32) -> Handler {
    let h = state::new::new(2).handler;
    let h = configure(h, ALERT0_EN, 1);
    let h = configure(h, ALERT1_EN, 1);
    let h = configure(h, ACCUM_THRESH, thresh);
    configure(h, CTRL, ON)
}
