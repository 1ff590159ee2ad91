// The moves of step 4: where each state goes in a tick.
ghost use Rattle.std.specs.Prelude.{◌≡◌, cond, ◌+◌, leb};
ghost use Rattle.class_rules.specs.Step.{at, due, moved_from, starts_from, trigger};

use crate::ctrl::enabled;
use class_rules::{Class, ClassState, Place, Signals};

// An event with no accepted clear in this tick and ACCUM_CNT at or above ACCUM_THRESH before counting.
fn trigger(s: Signals, c: Class) -> bool
    ensures { result ≡ trigger s c }
{
    s.event & (!s.clear & (c.thresh <= c.accum))
}

// EN is 1, the interrupt bit is now 1 and TIMEOUT_CYC is above 0.
pub fn due(s: Signals, c: Class) -> bool
    ensures { result ≡ due s c }
{
    enabled(c) & (s.interrupt & (0 < c.timeout))
}

// Whether the tick takes this state to Phase 0.
#[tactic(auto, unfolding(class_rules::specs::Step::starts_from))]
pub fn starts_from(m: ClassState, s: Signals, c: Class) -> bool
    ensures { result ≡ starts_from m s c }
{
    match m {
        ClassState::Idle => trigger(s, c),
        ClassState::Timeout => trigger(s, c) | (due(s, c) & (c.timeout <= c.count)),
        _ => false,
    }
}

// This state with this count.
fn at(state: ClassState, count: u32) -> Place
    ensures { result ≡ at state count }
{
    Place { state, count }
}

// Idle: a start to Phase 0, count 1; else if due to Timeout, count 1.
#[tactic(auto, unfolding(class_rules::specs::Step::moved_from))]
fn from_idle(s: Signals, c: Class) -> Place
    ensures { result ≡ moved_from ClassState.Idle s c }
{
    if starts_from(ClassState::Idle, s, c) {
        at(ClassState::Phase0, 1)
    } else if due(s, c) {
        at(ClassState::Timeout, 1)
    } else {
        at(ClassState::Idle, c.count)
    }
}

// Timeout: a start to Phase 0, count 1; else due adds 1; else Idle, count 0. A clear is not read: it does not stop a timeout.
#[tactic(auto, using(crate::proofs::TimeoutRoom::waiting), unfolding(class_rules::specs::Step::moved_from))]
fn from_timeout(s: Signals, c: Class) -> Place
    ensures { result ≡ moved_from ClassState.Timeout s c }
{
    if starts_from(ClassState::Timeout, s, c) {
        at(ClassState::Phase0, 1)
    } else if due(s, c) {
        at(ClassState::Timeout, c.count + 1)
    } else {
        at(ClassState::Idle, 0)
    }
}

// A phase, `this`, of `length` ticks: a clear to Idle, count 0; else at its end to `next`, count `first`; else add 1. EN is not read.
fn from_phase(
    this: ClassState,
    length: u32,
    next: ClassState,
    first: u32,
    clear: bool,
    count: u32,
) -> Place
    ensures { result ≡ cond clear (at ClassState.Idle 0) (cond (leb length count) (at next first) (at this (count + 1))) }
{
    if clear {
        at(ClassState::Idle, 0)
    } else if length <= count {
        at(next, first)
    } else {
        at(this, count + 1)
    }
}

// Terminal: a clear to Idle.
#[tactic(auto, unfolding(class_rules::specs::Step::moved_from))]
fn from_terminal(s: Signals, c: Class) -> Place
    ensures { result ≡ moved_from ClassState.Terminal s c }
{
    if s.clear {
        at(ClassState::Idle, c.count)
    } else {
        at(ClassState::Terminal, c.count)
    }
}

// The state and count after the tick, from this state.
#[tactic(auto, unfolding(class_rules::specs::Step::moved_from))]
pub fn moved_from(m: ClassState, s: Signals, c: Class) -> Place
    ensures { result ≡ moved_from m s c }
{
    match m {
        ClassState::Idle => from_idle(s, c),
        ClassState::Timeout => from_timeout(s, c),
        ClassState::Phase0 => from_phase(m, c.lengths[0], ClassState::Phase1, 1, s.clear, c.count),
        ClassState::Phase1 => from_phase(m, c.lengths[1], ClassState::Phase2, 1, s.clear, c.count),
        ClassState::Phase2 => from_phase(m, c.lengths[2], ClassState::Phase3, 1, s.clear, c.count),
        ClassState::Phase3 => from_phase(
            m,
            c.lengths[3],
            ClassState::Terminal,
            0,
            s.clear,
            c.count,
        ),
        ClassState::Terminal => from_terminal(s, c),
    }
}
