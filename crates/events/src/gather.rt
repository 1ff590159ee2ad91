// Step 2, events and enables into causes and classes.
ghost use Rattle.std.specs.Prelude.{◌≤◌};
ghost use Rattle.rules.specs.State.{most};
ghost use Rattle.events.specs.Gathered.{GatheredAll};

use crate::note;
use masks::places::{after, first, live};
use rules::{MOST, WORDS};

// The alerts' causes, and the classes that their events are assigned to.
#[derive(Clone, Copy)]
pub struct Gathered {
    pub cause: [u8; MOST],
    pub hits: u8,
}

// The n alerts: of each word those with an event, one after the other, and no other. A word without one is passed over.
pub fn gather(
    n: usize,
    events: &[u64; WORDS],
    en: &[u8; MOST],
    class: &[u8; MOST],
    before: [u8; MOST],
) -> Gathered
    requires { n ≤ most }
    ensures { GatheredAll n events.now en.now class.now before result }
{
    let mut cause = before;
    let mut hits: u8 = 0;
    for v in 0..WORDS {
        let mut left = live(n, v * 64) & events[v];
        while left != 0 {
            let b = first(left);
            let i = v * 64 + b;
            let on = en[i] == 1;
            hits |= note::class_bit(class[i], on);
            note::mark(&mut cause, i, on);
            left = after(left, b);
        }
    }
    Gathered { cause, hits }
}
