// Request (xi), escalation wires: waves of line 0 with its escalation and receive pairs, through the code's own tick, which checks what comes back.
// Letters and columns are those of pairs.rt; crates/link_rules/proofs/EscalationWaves.antt has such waves of one sender. Registers by the map's numbers.
use crate::pairs::{NEXT_CLASS, play_wave, wire};
use crate::pings::{LOCAL0_CLASS, LOCAL0_EN, begin, given, with_timeout};
use crate::play::{
    ACCUM_CNT, ACCUM_THRESH, CTRL, ON, PHASE0_CYC, REST, configure, station, timing, value,
};
use rules::{Access, Handler, LinePairs, Receive};

// CLR of class 0, and CTRL with EN and line 0 alone, in phase 0.
const CLR: u16 = 1283;

const LINE0: u32 = 5;

// What a tick gets beside line 0's receive pair: an access, alert 0's positive wire and the entropy word.
#[derive(Clone, Copy)]
struct Sent {
    access: Access,
    alert: u64,
    word: u32,
}

// A word that sets a turn which is not due in the wave.
const LATER: u32 = 100;

// Classes 1 and 2 count to 100, so that neither starts an escalation.
fn counting(h: Handler) -> Handler {
    let h = configure(h, ACCUM_THRESH + NEXT_CLASS, 100);
    let h = configure(h, CTRL + NEXT_CLASS, ON);
    let h = configure(h, ACCUM_THRESH + 2 * NEXT_CLASS, 100);
    configure(h, CTRL + 2 * NEXT_CLASS, ON)
}

// An event of alert 0 puts line 0 on for this many ticks. Local alert 3 counts in class 1, local alert 1 in class 2.
fn lined(length: u32) -> Handler {
    let h = configure(counting(station(0)), CTRL, LINE0);
    let h = configure(h, PHASE0_CYC, length);
    let h = configure(h, LOCAL0_CLASS + 3, 1);
    let h = configure(h, LOCAL0_CLASS + 1, 2);
    let h = configure(h, LOCAL0_EN + 3, 1);
    configure(h, LOCAL0_EN + 1, 1)
}

// The same with the timer on: alert 0 is not locked, so its turn ends, and the ping of line 0 is due in the tick after this many.
fn pinged(length: u32, timeout: u32, ticks: u32) -> Handler {
    let h = begin(with_timeout(lined(length), timeout), 0);
    given(h, Access::Nothing, ticks)
}

// Line 0's pair, or a question mark where another line's is not (0,1).
fn show_escalation(rt: &impl Print, p: LinePairs) {
    if p.pos / 2 == 0 && p.neg / 2 == 7 {
        say!(rt; "{} {} ", p.pos % 2, p.neg % 2);
    } else {
        say!(rt; "? ");
    }
}

// A tick with this receive pair at line 0 and the others at (0,1), shown as: the receive pair, the lines, line 0's escalation pair, ACCUM_CNT of class 1,
// which counts local 3, and of class 2, which counts local 1, the lines whose ping is open, and the turn's number.
fn show_line(rt: &impl Print, h: Handler, sent: Sent, pos: bool, neg: bool) -> Handler {
    let receive = Receive::Pairs(u32::from(pos), u32::from(neg) | 14);
    let t = handler::tick::tick(
        h,
        timing(sent.access, sent.alert, !sent.alert, sent.word, receive),
    );
    let g = t.handler;
    say!(rt; "  {} {} {} ", u8::from(pos), u8::from(neg), t.output.lines);
    show_escalation(rt, t.output.escalation);
    say!(rt; "{} {} ", value(g, ACCUM_CNT + NEXT_CLASS), value(g, ACCUM_CNT + 2 * NEXT_CLASS));
    say!(rt; "{} {}\n", g.links.lines, g.links.turn.number);
    g
}

// A tick for each column: alert 0 has an event in this one, and every tick has this word.
fn show_wave(
    rt: &impl Print,
    h: Handler,
    word: u32,
    positive: &[u8],
    negative: &[u8],
    event: Option<usize>,
) -> Handler {
    let mut g = h;
    play_wave(positive, negative, |i, pos, neg| {
        let sent = Sent {
            access: Access::Nothing,
            alert: wire(event == Some(i)),
            word,
        };
        g = show_line(rt, g, sent, pos, neg)
    });
    g
}

// A tick with word 0 in which each line answers as it has to, not shown.
fn answer_right(h: Handler) -> Handler {
    let pos = h.links.senders.answer;
    handler::tick::tick(
        h,
        timing(Access::Nothing, REST, !REST, 0, Receive::Pairs(pos, !pos)),
    )
    .handler
}

// n of them.
fn answer_all(h: Handler, n: usize) -> Handler {
    let mut g = h;
    for _ in 0..n {
        g = answer_right(g);
    }
    g
}

// "escalation enable pulse shown at input sender at time 1 and 11; missing response and repeated integfail at time 12 and 14". Class 0 is cleared in the
// gap.
pub fn signaling(rt: &impl Print) {
    say!(rt; "W7: escalation signaling and response\n");
    let h = show_wave(rt, lined(5), 0, b"0.101010.", b"1.010101.", Some(1));
    let clear = Sent {
        access: Access::Write(CLR, 1),
        alert: REST,
        word: 0,
    };
    let h = show_line(rt, h, clear, false, true);
    show_wave(rt, h, 0, b"0........", b"1........", Some(1));
}

// "direct signal integrity failure at time 2; indirect failure at time 6".
pub fn integrity(rt: &impl Print) {
    say!(rt; "W8: signal integrity failures\n");
    show_wave(rt, lined(5), 0, b"0.1.0|..1010", b"1....|.01010", None);
}

// A ping of line 0 answered by 1010, and one that is not; in the gap are the turns of lines 1 to 3, which answer.
pub fn ping_testing(rt: &impl Print) {
    say!(rt; "W9: ping testing of escalation lines\n");
    let h = show_wave(rt, pinged(5, 5, 1), 0, b"0.1010.", b"1.0101.", None);
    show_wave(rt, answer_all(h, 16), 0, b"|.......", b"|.......", None);
}

// "a lone tick lengthened to two".
pub fn lone_tick(rt: &impl Print) {
    say!(rt; "wires: a line of one tick\n");
    show_wave(rt, lined(1), 0, b"001000", b"110111", Some(1));
}

// "answered from the next tick": 1010 one tick late is wrong in four ticks, and "local 1 follows on a ping timeout".
pub fn late_answer(rt: &impl Print) {
    say!(rt; "wires: a ping answered one tick late\n");
    show_wave(rt, pinged(5, 6, 1), LATER, b"000101000", b"111010111", None);
}

// "A real escalation wins over a ping and closes it unfailed": at 3, a tick before its timeout.
pub fn escalation_wins(rt: &impl Print) {
    say!(rt; "wires: an escalation closes a ping\n");
    show_wave(
        rt,
        pinged(4, 3, 1),
        LATER,
        b"001010100",
        b"110101011",
        Some(3),
    );
}

// "a ping due right after one on the wire closes unsent": the pair is on at 1 and 2, the ping is due at 3.
pub fn unsent(rt: &impl Print) {
    say!(rt; "wires: a ping due right after an escalation\n");
    show_wave(rt, pinged(1, 3, 3), LATER, b"0010000", b"1101111", Some(1));
}

// An answer that nothing asked for.
pub fn unasked(rt: &impl Print) {
    say!(rt; "wires: an answer to nothing\n");
    show_wave(rt, lined(5), 0, b"0010", b"1101", None);
}
