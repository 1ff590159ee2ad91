// Request (ix), the ping timer: its turns through the code's own tick, as an older record gives them, with a bit for a line's answer. Registers by the
// map's numbers.
use crate::pairs::{NEXT_CLASS, watched};
use crate::play::{ACCUM_CNT, ALERT0_REGWEN, RAISE, REST, configure, stage, timing, value};
use rules::{Access, Handler, Receive};

// The timer's timeout and enable, REGWEN of alert 0.
const TIMEOUT: u16 = 5;

const ENABLE: u16 = 6;

const REGWEN: u16 = 256;

// EN and CLASS of local alerts 0 and 1, and CAUSE of local alert 0.
pub const LOCAL0_EN: u16 = 24;

pub const LOCAL0_CLASS: u16 = 32;

const LOCAL0_CAUSE: u16 = 40;

// A tick with the wires at rest that is not shown.
pub fn given(h: Handler, x: Access, word: u32) -> Handler {
    handler::tick::tick(h, timing(x, REST, !REST, word, Receive::Answers(0))).handler
}

// Register 6 becomes 1, and this word sets the first turn.
pub fn begin(h: Handler, word: u32) -> Handler {
    given(h, Access::Write(ENABLE, 1), word)
}

// Whether the ping of alert 0 is open.
fn is_open(h: Handler) -> u64 {
    h.links.receivers.pending[0] / RAISE
}

// The level of its ping pair, which changes where its ping opens.
pub fn level(h: Handler) -> u64 {
    h.links.receivers.level[0] / RAISE
}

// The timer's timeout is given, by two equal writes.
pub fn with_timeout(h: Handler, timeout: u32) -> Handler {
    let h = given(h, Access::Write(TIMEOUT, timeout), 0);
    given(h, Access::Write(TIMEOUT, timeout), 0)
}

// Alert 0 counts in class 0, local alerts 0 and 1 in class 1; the timeout is given, and alert 0 is not locked.
fn timed(timeout: u32) -> Handler {
    let h = configure(watched(), LOCAL0_CLASS, 1);
    let h = configure(h, LOCAL0_CLASS + 1, 1);
    let h = configure(h, LOCAL0_EN, 1);
    with_timeout(configure(h, LOCAL0_EN + 1, 1), timeout)
}

// The same with alert 0 locked.
fn locked(timeout: u32) -> Handler {
    stage(timed(timeout), ALERT0_REGWEN, 0)
}

// A tick, shown as: alert 0's positive wire and the lines that answer; the access's answer; the turn's number and count, whether alert 0's ping is open,
// and the lines whose ping is; ACCUM_CNT of classes 0 and 1, CAUSE of local alerts 0 and 1, and the level of alert 0's ping pair.
fn show_tick(rt: &impl Print, h: Handler, x: Access, pos: u64, word: u32, answers: u32) -> Handler {
    let t = handler::tick::tick(h, timing(x, pos, !pos, word, Receive::Answers(answers)));
    let g = t.handler;
    say!(rt; "  {} {} {} ", pos / RAISE, answers, t.answer);
    say!(rt; "{} {} {} {} ", g.links.turn.number, g.links.turn.count, is_open(g), g.links.lines);
    say!(rt; "{} {} ", value(g, ACCUM_CNT), value(g, ACCUM_CNT + NEXT_CLASS));
    say!(rt; "{} {} {}\n", value(g, LOCAL0_CAUSE), value(g, LOCAL0_CAUSE + 1), level(g));
    g
}

// The tick in which 6 becomes 1.
fn show_begin(rt: &impl Print, h: Handler, word: u32) -> Handler {
    show_tick(rt, h, Access::Write(ENABLE, 1), REST, word, 0)
}

// A tick of rest with word 0.
fn show_rest(rt: &impl Print, h: Handler) -> Handler {
    show_tick(rt, h, Access::Nothing, REST, 0, 0)
}

// The first turn is answered in the tick in which its ping opens; the next is line 0's, due in the next tick.
fn line_due(rt: &impl Print, timeout: u32) -> Handler {
    let h = show_begin(rt, locked(timeout), 0);
    show_tick(rt, h, Access::Nothing, RAISE, 0, 0)
}

// "its low 16 bits plus 1 are the ticks to the ping": 3; a rise answers it and is no event, and that tick's word sets the next turn.
pub fn answered(rt: &impl Print) {
    say!(rt; "timer: a ping answered by a rise\n");
    let h = show_begin(rt, locked(9), 2);
    let h = show_rest(rt, h);
    let h = show_rest(rt, h);
    let h = show_rest(rt, h);
    let h = show_rest(rt, h);
    let h = show_tick(rt, h, Access::Nothing, RAISE, 7, 0);
    show_rest(rt, h);
}

// "unanswered up to and in the first tick at least the timeout after it": local 0 occurs, the ping closes, and a rise is an event again.
pub fn failing(rt: &impl Print) {
    say!(rt; "timer: a ping that fails after 2 ticks\n");
    let h = show_begin(rt, locked(2), 0);
    let h = show_rest(rt, h);
    let h = show_rest(rt, h);
    let h = show_tick(rt, h, Access::Nothing, REST, 9, 0);
    show_tick(rt, h, Access::Nothing, RAISE, 0, 0);
}

// A line's ping is answered by its own bit; another line's counts for nothing.
pub fn line_answered(rt: &impl Print) {
    say!(rt; "timer: a line's ping answered by its bit\n");
    let h = line_due(rt, 9);
    let h = show_tick(rt, h, Access::Nothing, REST, 0, 14);
    let h = show_tick(rt, h, Access::Nothing, REST, 5, 1);
    show_rest(rt, h);
}

// Unanswered it makes local 1 occur.
pub fn line_failing(rt: &impl Print) {
    say!(rt; "timer: a line's ping that fails after 1 tick\n");
    let h = line_due(rt, 1);
    let h = show_rest(rt, h);
    let h = show_tick(rt, h, Access::Nothing, REST, 5, 0);
    show_rest(rt, h);
}

// "at timeout 0 it waits for its answer"; a timeout that is given later counts from the ping's opening, and fails it at once.
pub fn waiting(rt: &impl Print) {
    say!(rt; "timer: at timeout 0 a ping waits\n");
    let h = show_begin(rt, locked(0), 0);
    let h = show_rest(rt, h);
    let h = show_rest(rt, h);
    let h = show_rest(rt, h);
    let h = show_tick(rt, h, Access::Write(TIMEOUT, 2), REST, 0, 0);
    show_tick(rt, h, Access::Write(TIMEOUT, 2), REST, 9, 0);
}

// "If the drawn alert isn't locked and enabled when the ping is due, none opens and the turn ends"; a lock in the due tick is in time.
pub fn not_locked(rt: &impl Print) {
    say!(rt; "timer: the drawn alert is not locked\n");
    let h = show_begin(rt, timed(9), 0);
    let h = show_tick(rt, h, Access::Nothing, REST, 3, 0);
    show_rest(rt, h);
    say!(rt; "timer: it is locked in the due tick\n");
    let h = show_begin(rt, timed(9), 0);
    show_tick(rt, h, Access::Write(REGWEN, 0), REST, 0, 0);
}
