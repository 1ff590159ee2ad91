// Request (i), a class with no lines: all four line enables off does the same as EN off.
use crate::play::{
    CTRL, INTR_ENABLE, PHASE0_CYC, RAISE, REST, TIMEOUT_CYC, configure, show, show_rest, stage,
    station,
};
use rules::Access;

// INTR_TEST.
const INTR_TEST: u16 = 2;

// CTRL with EN and LOCK, line e mapped to phase e, and no line enable.
const NO_LINES: u32 = 0x3903;

// No event and no interrupt from an alert; an interrupt by INTR_TEST is not due.
pub fn no_event(rt: &impl Print) {
    say!(rt; "no lines: no event\n");
    let h = configure(station(0), TIMEOUT_CYC, 1);
    let h = configure(h, INTR_ENABLE, 1);
    let h = configure(h, CTRL, NO_LINES);
    let h = show(rt, h, Access::Nothing, RAISE);
    let h = show(rt, h, Access::Write(INTR_TEST, 1), REST);
    show_rest(rt, h, 1);
}

// A Timeout falls back to Idle, though the interrupt bit is 1.
pub fn timeout(rt: &impl Print) {
    say!(rt; "no lines: a timeout falls back\n");
    let h = configure(station(100), TIMEOUT_CYC, 4);
    let h = configure(h, INTR_ENABLE, 1);
    let h = stage(h, CTRL, NO_LINES);
    let h = show(rt, h, Access::Nothing, RAISE);
    let h = show_rest(rt, h, 1);
    let h = show(rt, h, Access::Write(CTRL, NO_LINES), REST);
    show_rest(rt, h, 1);
}

// A running phase goes on to Terminal, driving no line; an event is no longer counted.
pub fn phase(rt: &impl Print) {
    say!(rt; "no lines: a phase goes on\n");
    let h = configure(station(0), PHASE0_CYC, 5);
    let h = stage(h, CTRL, NO_LINES);
    let h = show(rt, h, Access::Nothing, RAISE);
    let h = show(rt, h, Access::Write(CTRL, NO_LINES), REST);
    let h = show_rest(rt, h, 2);
    let h = show(rt, h, Access::Nothing, RAISE);
    show_rest(rt, h, 4);
}
