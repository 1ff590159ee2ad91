// A step 2 that leaves the links as they are, but for the count of a turn that waits and for what the senders send. It makes no links, so that a tick in
// which the alerts rest copies none.
ghost use Rattle.std.specs.Prelude.{ℕ, ◌+◌, ◌*◌, ◌<◌, ◌≡◌, true, false, not, ◌&&◌, ◌||◌, eqb};
ghost use Rattle.rules.specs.State.{words};
ghost use Rattle.samples.specs.Rest.{stirs, AlertsRest, waited, SendsBy};

use crate::back::wrong_lines;
use crate::links::none_set;
use link_rules::{Senders, Turn};
use masks::places::live;
use rules::{Links, Receivers, Sample, Timer, WORDS, Wires};
use timer::turn::next_count;

// No alert of word v stirs, of the receivers r of n alerts and the wires w.
fn is_word_still(n: usize, r: Receivers, w: Wires, v: usize) -> bool
    requires { v < words }
    ensures { result ≡ true → (b : ℕ) → b < 64 → stirs n r w (v * 64 + b) ≡ false }
{
    (w.pos[v] | !w.neg[v] | r.pausing[v] | r.busy[v]) & live(n, v * 64) == 0
}

// No alert stirs.
fn are_still(n: usize, r: Receivers, w: Wires) -> bool
    ensures { result ≡ true → AlertsRest n r w }
{
    (0..WORDS).fold(true, |still, v| still & is_word_still(n, r, w, v))
}

// Every sender is as a new one.
pub fn are_new(s: Senders) -> bool
    ensures { result ≡ (eqb s.on 0 && (eqb s.first 0 && (eqb s.last 0 && (eqb s.deep 0 && eqb s.answer 0)))) }
{
    (s.on == 0) & ((s.first == 0) & ((s.last == 0) & ((s.deep == 0) & (s.answer == 0))))
}

// The timer is off, or its turn's ping is not due yet.
fn does_wait(c: Timer, t: Turn) -> bool
    ensures { result ≡ (not (eqb c.enable 1) || not (eqb t.count 0)) }
{
    (c.enable != 1) | (t.count != 0)
}

// The count of a turn that waits, after the tick.
pub fn wait(c: Timer, count: u16) -> u16
    ensures { result ≡ waited c count }
{
    if c.enable == 1 {
        next_count(false, false, count)
    } else {
        count
    }
}

// The n alerts, their links and the timer's registers meet the sample s: every alert rests, and no ping is open or opens.
pub fn does_only_send(n: usize, k: Links, c: Timer, s: Sample) -> bool
    ensures { result ≡ true → SendsBy n k c s }
{
    let still = are_still(n, k.receivers, s.alerts);
    let closed = none_set(k.receivers.pending) & ((k.lines == 0) & (k.right == 0));
    let sound = wrong_lines(k.senders, s.receive) == 0;
    still & (closed & (sound & does_wait(c, k.turn)))
}
