// Step 2, equal wires and enables: what raises local alert 2.
ghost use Rattle.std.specs.Prelude.{◌≤◌, ◌≡◌};
ghost use Rattle.bits.specs.Index.{any_to};
ghost use Rattle.rules.specs.State.{most};
ghost use Rattle.events.specs.Gathered.{among_words};

use masks::places::{after, first, live};
use rules::{MOST, WORDS};

// Whether an enabled alert below n has equal wires. Only those with equal wires are looked at, and the first that is enabled ends the search.
pub fn any_broken(n: usize, equal: &[u64; WORDS], en: &[u8; MOST]) -> bool
    requires { n ≤ most }
    ensures { result ≡ any_to (among_words equal.now en.now) n }
{
    for v in 0..WORDS {
        let mut left = live(n, v * 64) & equal[v];
        while left != 0 {
            let b = first(left);
            if en[v * 64 + b] == 1 {
                return true;
            }
            left = after(left, b);
        }
    }
    false
}
