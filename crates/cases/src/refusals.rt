// Answers of single accesses and of making a handler.
use crate::play::show;
use rules::Access;

// N, and what making a handler for it answers.
fn make(rt: &impl Print, n: usize) {
    say!(rt; "  {} {}\n", n, state::new::new(n).answer);
}

// "N = 64 accepted, 65 refused": since request (iii) in old inputs only, and else 248 accepted, 249 refused; and numbers that would be small
// if cut.
pub fn making(rt: &impl Print) {
    say!(rt; "making\n");
    for n in [0, 1, 64, 65, 248, 249, 256, 4294967296] {
        make(rt, n);
    }
}

// "Read 333: -1. Read 323, write 324: -2. Write 16 to 1: -4.", each on a new handler of one alert; and register 5, which old records do not reach.
pub fn accesses(rt: &impl Print) {
    let h = state::new::new(1).handler;
    say!(rt; "accesses\n");
    for x in [
        Access::Read(333),
        Access::Read(323),
        Access::Write(324, 0),
        Access::Write(1, 16),
        Access::Read(321),
        Access::Malformed,
        Access::Read(129),
        Access::Read(5),
    ] {
        show(rt, h, x, 0);
    }
}
