// What a class is after ticks that leave it in its state.
ghost use Rattle.std.specs.Prelude.{◌≡◌, cond, ◌+◌, ◌<◌, ◌≤◌, ◌^◌};
ghost use Rattle.calm_laws.specs.Stand.{accum_after, counts, jumped, stands, Fits};

use class::state::state_of;
use class_rules::{Class, ClassState, Signals};

// Whether ESC_CNT counts.
fn counts(m: ClassState) -> bool
    ensures { result ≡ counts m }
{
    !matches!(m, ClassState::Idle | ClassState::Terminal)
}

// ESC_CNT after n ticks, if it counts.
fn count_after(on: bool, n: u64, count: u32) -> u32
    requires { cond on (count + n) count < 2 ^ 32 }
    ensures { result ≡ cond on (count + n) count }
{
    if on { count + n as u32 } else { count }
}

// ACCUM_CNT after n ticks: an event each tick adds 1, staying at 65,535.
fn accum_after(event: bool, n: u64, accum: u16) -> u16
    requires { n ≤ 2 ^ 32 }
    ensures { result ≡ accum_after event n accum }
{
    if event {
        (u64::from(accum) + n).min(65535) as u16
    } else {
        accum
    }
}

// The class after n ticks that leave it in its state.
pub fn jumped(s: Signals, n: u64, c: Class) -> Class
    requires { Fits c × (n ≤ stands s c) }
    ensures { result ≡ jumped s n c }
{
    Class {
        count: count_after(counts(state_of(c.state)), n, c.count),
        accum: accum_after(s.event, n, c.accum),
        ..c
    }
}
