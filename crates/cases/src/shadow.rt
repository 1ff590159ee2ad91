// Request (v), shadow writes: two equal writes commit, a differing one is refused with 12 and raises local 5.
use crate::play::{ACCUM_THRESH, INTR_ENABLE, REST, configure, show, station};
use rules::Access;

// EN of local alert 5.
const LOCAL5_EN: u16 = 29;

// P2: staged, too wide with the stage kept, committed, too wide with the register unchanged.
pub fn two_writes(rt: &impl Print) {
    say!(rt; "two equal writes\n");
    let h = state::new::new(1).handler;
    let h = show(rt, h, Access::Write(ACCUM_THRESH, 65535), REST);
    let h = show(rt, h, Access::Write(ACCUM_THRESH, 65536), REST);
    let h = show(rt, h, Access::Write(ACCUM_THRESH, 65535), REST);
    let h = show(rt, h, Access::Write(ACCUM_THRESH, 65536), REST);
    show(rt, h, Access::Read(ACCUM_THRESH), REST);
}

// Local 5, enabled in class 0 at threshold 0, starts its escalation in the tick of the differing write.
pub fn differing(rt: &impl Print) {
    say!(rt; "a differing write\n");
    let h = configure(station(0), LOCAL5_EN, 1);
    let h = configure(h, INTR_ENABLE, 1);
    let h = show(rt, h, Access::Write(ACCUM_THRESH, 7), REST);
    let h = show(rt, h, Access::Write(ACCUM_THRESH, 8), REST);
    show(rt, h, Access::Read(ACCUM_THRESH), REST);
}
