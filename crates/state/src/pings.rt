// Request (ix): the part of refusal 7's test that speaks of the ping timer: "an open ping that isn't the turn's".
ghost use Rattle.std.specs.Prelude.{◌≤◌, ◌<◌, ◌≡◌, not, ◌&&◌, ◌||◌, eqb};
ghost use Rattle.bits.specs.Bits.{bit};
ghost use Rattle.bits.specs.Index.{place_in, all_to};
ghost use Rattle.rules.specs.State.{most, words};
ghost use Rattle.rules.specs.Valid.{timer_fits};
ghost use Rattle.state.specs.Strays.{stray_word, pings_owned};

use masks::places::{live, only};
use rules::{Links, Timer, WORDS};

// The registers of the timer.
pub fn timer_fits(t: Timer) -> bool
    ensures { result ≡ timer_fits t }
{
    (t.regwen < 2) & ((t.timeout < 65536) & (t.enable < 2))
}

// Word v of the open pings of n alerts, without alert i's if it may be open.
fn stray(n: usize, pends: [u64; WORDS], own: bool, i: u8, v: usize) -> u64
    requires { v < words }
    ensures { result ≡ stray_word n pends own i v }
{
    let there = pends[v] & live(n, v * 64);
    if own {
        there & (there ^ only(i, v * 64))
    } else {
        there
    }
}

// No ping of an alert below n is open but alert i's, if it may be.
fn alerts_own(n: usize, pends: [u64; WORDS], own: bool, i: u8) -> bool
    requires { n ≤ most }
    ensures { result ≡ all_to (λ j. not (place_in pends j) || (own && eqb j i)) n }
{
    (0..WORDS).all(|v| stray(n, pends, own, i, v) == 0)
}

// The ping of line l is not open, or it is line e's, which may be.
fn line_owns(lines: u32, own: bool, e: u8, l: u8) -> bool
    requires { l < 4 }
    ensures { result ≡ (not (bit lines l) || (own && eqb l e)) }
{
    ((lines >> l) % 2 != 1) | (own & (l == e))
}

// The same of the four lines.
fn lines_own(lines: u32, own: bool, e: u8) -> bool
    ensures { result ≡ all_to (λ l. not (bit lines l) || (own && eqb l e)) 4 }
{
    (0..4).all(|l| line_owns(lines, own, e, l))
}

// No ping is open but the turn's, of n alerts and the four lines; on says whether the timer is on.
pub fn pings_fit(n: usize, k: Links, on: bool) -> bool
    requires { n ≤ most }
    ensures { result ≡ pings_owned n k on }
{
    let line = k.turn.number % 2 == 1;
    alerts_own(n, k.receivers.pending, on & !line, k.turn.alert)
        & lines_own(k.lines, on & line, k.turn.number / 2 % 4)
}
