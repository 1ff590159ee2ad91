// Steps 3 and 4 of a tick, of one class.
ghost use Rattle.std.specs.Prelude.{◌≡◌, cond, ◌&&◌};
ghost use Rattle.class_rules.specs.Class.{lock};
ghost use Rattle.class_rules.specs.Step.{class_event, class_step, counted};

use crate::ctrl::{enabled, lock};
use crate::moves::{moved_from, starts_from};
use crate::state::{number, state_of};
use class_rules::{Class, Signals};

// The class has an event: something that happened is assigned to it and EN is 1.
pub fn event(assigned: bool, c: Class) -> bool
    ensures { result ≡ class_event assigned c }
{
    assigned & enabled(c)
}

// ACCUM_CNT after the tick: 0 by a clear; else an event adds 1, staying at 65,535.
#[tactic(auto, unfolding(class_rules::specs::Step::counted))]
fn counted(s: Signals, c: Class) -> u16
    ensures { result ≡ counted s c }
{
    if s.clear {
        0
    } else if s.event {
        c.accum.saturating_add(1)
    } else {
        c.accum
    }
}

// CLR_REGWEN after the tick: 0 if the escalation starts with LOCK set.
fn clrwen_after(starts: bool, c: Class) -> u8
    ensures { result ≡ cond (starts && lock c) 0 c.clrwen }
{
    if starts & lock(c) { 0 } else { c.clrwen }
}

// Steps 3 and 4 of one class.
#[tactic(auto, unfolding(class_rules::specs::Step::class_step))]
pub fn step(s: Signals, c: Class) -> Class
    ensures { result ≡ class_step s c }
{
    let m = state_of(c.state);
    let to = moved_from(m, s, c);
    Class {
        count: to.count,
        accum: counted(s, c),
        clrwen: clrwen_after(starts_from(m, s, c), c),
        state: number(to.state),
        ..c
    }
}
