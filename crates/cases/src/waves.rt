// The waves of source document 004 that draw a class, column by column: docs/PAPERS.md has them beside the paper's. A gap is as many
// ticks as the lengths ask for, and its row is that of the last one.
use crate::play::{
    INTR_ENABLE, PHASE0_CYC, RAISE, RAISE_NEXT, REST, TIMEOUT_CYC, configure, play_events, show,
    show_after, show_rest, station,
};
use rules::{Access, Handler};

// Class 0's four phase lengths.
fn with_lengths(h: Handler, p0: u32, p1: u32, p2: u32, p3: u32) -> Handler {
    let h = configure(h, PHASE0_CYC, p0);
    let h = configure(h, PHASE0_CYC + 1, p1);
    let h = configure(h, PHASE0_CYC + 2, p2);
    configure(h, PHASE0_CYC + 3, p3)
}

// "alert class A gathers 16 alerts, triggers first escalation, followed by three more": threshold 15, lengths 1e3 to 1e6. The
// first alert and 13 more are alert 0's, each after a pause, then alert 1 comes, and alert 0 in the tick after it.
pub fn gathering(rt: &impl Print) {
    say!(rt; "W5: 16 alerts, threshold 15\n");
    let h = with_lengths(station(15), 1000, 10000, 100000, 1000000);
    let h = configure(h, INTR_ENABLE, 1);
    let h = show(rt, h, Access::Nothing, REST);
    let h = show(rt, h, Access::Nothing, RAISE);
    let h = show(rt, h, Access::Nothing, REST);
    let h = show_after(rt, play_events(h, 13), 2);
    let h = show(rt, h, Access::Nothing, RAISE_NEXT);
    let h = show(rt, h, Access::Nothing, RAISE);
    let h = show_rest(rt, show_after(rt, h, 998), 2);
    let h = show_rest(rt, show_after(rt, h, 9997), 3);
    let h = show_rest(rt, show_after(rt, h, 99996), 3);
    show_rest(rt, show_after(rt, h, 999996), 2);
}

// "alert class A triggers an interrupt and the timeout counter, which eventually triggers escalation after 1e4 cycles". The
// paper gives no lengths: with these each later gap is one tick.
pub fn timeout(rt: &impl Print) {
    say!(rt; "W6: timeout of 10000\n");
    let h = with_lengths(station(100), 2, 3, 4, 5);
    let h = configure(h, TIMEOUT_CYC, 10000);
    let h = configure(h, INTR_ENABLE, 1);
    let h = show(rt, h, Access::Nothing, REST);
    let h = show(rt, h, Access::Nothing, RAISE);
    let h = show_rest(rt, h, 2);
    show_rest(rt, show_after(rt, h, 9995), 17);
}
