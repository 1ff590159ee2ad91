// "Slips that look right": what the handler does instead.
use crate::play::{
    CLR, PHASE0_CYC, RAISE, RAISE_TWO, REGWEN, REST, configure, pause, show, show_after, show_rest,
    station,
};
use rules::Access;

// Counting each alert when two come in one tick: ACCUM_CNT is 1.
pub fn two_alerts(rt: &impl Print) {
    say!(rt; "two alerts in one tick\n");
    show(rt, station(9), Access::Nothing, RAISE_TWO);
}

// A zero phase skipped: each phase has a tick of its own.
pub fn zero_phase(rt: &impl Print) {
    say!(rt; "four phases of length 0\n");
    let h = show(rt, station(0), Access::Nothing, RAISE);
    show_rest(rt, h, 5);
}

// Comparing the threshold after counting: at threshold 1 the first event does not start.
pub fn threshold(rt: &impl Print) {
    say!(rt; "threshold 1\n");
    let h = show(rt, station(1), Access::Nothing, RAISE);
    let h = show_after(rt, h, 2);
    show(rt, h, Access::Nothing, RAISE);
}

// Letting the clear of one tick undo a start of the tick before under LOCK: it is refused.
pub fn clear_under_lock(rt: &impl Print) {
    say!(rt; "clear under LOCK\n");
    let h = configure(station(0), PHASE0_CYC, 3);
    let h = configure(h, REGWEN, 0);
    let h = show(rt, h, Access::Nothing, RAISE);
    let h = show(rt, h, Access::Write(CLR, 1), REST);
    show_rest(rt, h, 3);
}

// Dropping samples when the access is refused: the event is counted.
pub fn refused_sample(rt: &impl Print) {
    say!(rt; "samples of refused accesses\n");
    let h = show(rt, station(9), Access::Write(333, 1), RAISE);
    let h = pause(h);
    show(rt, h, Access::Malformed, RAISE);
}

// Reading a refusal as a value: a refused read answers below zero, and a register that holds 1 answers 1.
pub fn refusal_as_value(rt: &impl Print) {
    say!(rt; "refusals and values\n");
    let h = station(0);
    show(rt, h, Access::Read(333), REST);
    show(rt, h, Access::Read(128), REST);
}
