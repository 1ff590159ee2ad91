// Request (xi): a line's ping on its wires, as the timer meets it.
ghost use Rattle.std.specs.Prelude.{◌≡◌, ◌&&◌, ◌||◌, not};
ghost use Rattle.link_rules.specs.LinePing.{right_before, answered_by_wires, right_after};
ghost use Rattle.link_rules.specs.Timer.{is_line, opens, open_now};

use crate::turn::{age_of, does_open, is_line, is_open};
use link_rules::{Meets, Turn};

// A ping that opens has no wrong answer yet.
fn was_right(m: Meets, t: Turn, right: bool) -> bool
    ensures { result ≡ right_before m t right }
{
    does_open(m, t) | right
}

// The open ping is answered in this tick, whose answer is wrong or not.
pub fn is_answered_by_wires(m: Meets, t: Turn, right: bool, wrong: bool) -> bool
    ensures { result ≡ answered_by_wires m t right wrong }
{
    let age = age_of(m.pending, t.count);
    is_open(m, t) & ((age == 4) & (was_right(m, t, right) & ((age == 0) | !wrong)))
}

// All answers to it were right, up to this tick's.
#[tactic(auto, unfolding(link_rules::specs::LinePing::right_after))]
pub fn stays_right(checked: bool, m: Meets, t: Turn, right: bool, wrong: bool) -> bool
    ensures { result ≡ right_after checked m t right wrong }
{
    let age = age_of(m.pending, t.count);
    checked & (is_line(t) & (is_open(m, t) & (was_right(m, t, right) & ((age == 0) | !wrong))))
}

// An escalation closes the ping of the turn's line, or keeps it from the wire: the line is on, or its pair was on in the last tick.
pub fn is_closed(checked: bool, m: Meets, t: Turn, on: bool, last: bool) -> bool
    ensures { result ≡ (checked && (is_line t && (open_now m t && (on || (opens m t && not (opens m t && (not on && not last))))))) }
{
    checked & (is_line(t) & (is_open(m, t) & (on | (does_open(m, t) & last))))
}
