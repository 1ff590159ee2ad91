// How long a class that meets the same in every tick stands in its state.
ghost use Rattle.std.specs.Prelude.{◌≡◌, cond, ◌-◌};
ghost use Rattle.class_rules.specs.Step.{due};
ghost use Rattle.calm_laws.specs.Stand.{least, to_trigger, stand_from, stands};

use class::moves::due;
use class::state::state_of;
use class_rules::{Class, ClassState, Signals};

// More ticks than "0 to 4294967295".
pub const FOREVER: u64 = 1 << 32;

// What a count lacks of a bound, 0 where it is there.
fn lack(bound: u32, count: u32) -> u64
    ensures { result ≡ bound - count }
{
    u64::from(bound.saturating_sub(count))
}

// The ticks until ACCUM_CNT is at ACCUM_THRESH.
fn to_trigger(s: Signals, c: Class) -> u64
    ensures { result ≡ to_trigger s c }
{
    if s.event {
        lack(u32::from(c.thresh), u32::from(c.accum))
    } else {
        FOREVER
    }
}

// Idle leaves at once if due, and else by a trigger.
fn idle(s: Signals, c: Class) -> u64
    ensures { result ≡ cond (due s c) 0 (to_trigger s c) }
{
    if due(s, c) { 0 } else { to_trigger(s, c) }
}

// Timeout leaves at once if not due, and else by its count or a trigger.
fn timeout(s: Signals, c: Class) -> u64
    ensures { result ≡ cond (due s c) (least (c.timeout - c.count) (to_trigger s c)) 0 }
{
    if due(s, c) {
        lack(c.timeout, c.count).min(to_trigger(s, c))
    } else {
        0
    }
}

// The ticks that leave it in this state.
#[tactic(auto, unfolding(calm_laws::specs::Stand::stand_from))]
fn stand_from(m: ClassState, s: Signals, c: Class) -> u64
    ensures { result ≡ stand_from m s c }
{
    match m {
        ClassState::Idle => idle(s, c),
        ClassState::Timeout => timeout(s, c),
        ClassState::Phase0 => lack(c.lengths[0], c.count),
        ClassState::Phase1 => lack(c.lengths[1], c.count),
        ClassState::Phase2 => lack(c.lengths[2], c.count),
        ClassState::Phase3 => lack(c.lengths[3], c.count),
        ClassState::Terminal => FOREVER,
    }
}

// The ticks that leave the class in its state, before the tick that moves it.
pub fn stands(s: Signals, c: Class) -> u64
    ensures { result ≡ stands s c }
{
    stand_from(state_of(c.state), s, c)
}
