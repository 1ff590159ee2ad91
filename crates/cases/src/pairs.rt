// The waves of source document 004 that draw an alert's pair, from its own letters: 0 and 1 are levels, any other letter keeps
// the level. A column is a tick.
use crate::play::{
    ACCUM_CNT, ACCUM_THRESH, CTRL, INTR_ENABLE, ON, RAISE, REST, STATE, configure, input, station,
    value,
};
use rules::{Access, Handler};

// CAUSE of alert 0; EN, CLASS and CAUSE of local alert 2; from class 0's registers to class 1's.
const ALERT0_CAUSE: u16 = 256;

const LOCAL2_EN: u16 = 26;

const LOCAL2_CLASS: u16 = 34;

const LOCAL2_CAUSE: u16 = 42;

pub const NEXT_CLASS: u16 = 16;

// Alerts count in class 0, broken pairs in class 1; neither starts an escalation.
pub fn watched() -> Handler {
    let h = configure(station(100), LOCAL2_CLASS, 1);
    let h = configure(h, LOCAL2_EN, 1);
    let h = configure(h, ACCUM_THRESH + NEXT_CLASS, 100);
    let h = configure(h, CTRL + NEXT_CLASS, ON);
    configure(h, INTR_ENABLE, 3)
}

// A wire's level in a column; `before`: in the column before it.
fn level(letter: u8, before: bool) -> bool {
    match letter {
        b'0' => false,
        b'1' => true,
        _ => before,
    }
}

// A tick for each column of a wave, by the column's number and the levels of the pair's wires there.
pub fn play_wave<F: FnMut(usize, bool, bool)>(positive: &[u8], negative: &[u8], mut tick: F)
    requires { F.IsAlwaysCallable tick }
{
    let mut pos = false;
    let mut neg = true;
    for (i, (p, n)) in positive.iter().zip(negative).enumerate() {
        pos = level(*p, pos);
        neg = level(*n, neg);
        tick(i, pos, neg);
    }
}

// Alert 0's wire at a level, with the others at rest.
pub fn wire(high: bool) -> u64 {
    if high { RAISE } else { REST }
}

// A tick with this pair at alert 0 and the others at rest, shown as: the pair, CAUSE of alert 0 and of local alert 2, STATE of
// class 0, ACCUM_CNT of classes 0 and 1, interrupts, lines.
fn show_pair(rt: &impl Print, h: Handler, pos: bool, neg: bool) -> Handler {
    let t = handler::tick::tick(h, input(Access::Nothing, wire(pos), wire(neg) | !RAISE));
    let g = t.handler;
    say!(rt; "  {} {} ", u8::from(pos), u8::from(neg));
    say!(rt; "{} {} {} ", value(g, ALERT0_CAUSE), value(g, LOCAL2_CAUSE), value(g, STATE));
    say!(rt; "{} {} ", value(g, ACCUM_CNT), value(g, ACCUM_CNT + NEXT_CLASS));
    say!(rt; "{} {}\n", t.output.interrupts, t.output.lines);
    g
}

fn show_wave(rt: &impl Print, positive: &[u8], negative: &[u8]) {
    let mut g = watched();
    play_wave(
        positive,
        negative,
        |_, pos, neg| g = show_pair(rt, g, pos, neg),
    );
}

// "signal integrity issues occur at times 2 and 8".
pub fn integrity(rt: &impl Print) {
    say!(rt; "W3: integrity issues\n");
    show_wave(rt, b"0.1...|0..10101", b"1.....|....0101");
}

// "Correctly sampled diff pair at time 2; staggered samples at time 6-7 and 10-11".
pub fn skewed(rt: &impl Print) {
    say!(rt; "W4: skewed pair\n");
    show_wave(rt, b"0.1.|.0.|..1", b"1.0.|..1|.0.");
}
