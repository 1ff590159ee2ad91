// Step 5 of a tick, of one class: the lines that it drives.
ghost use Rattle.std.specs.Prelude.{◌≡◌, ◌<◌};
ghost use Rattle.bits.specs.Bits.{bits_of};
ghost use Rattle.class_rules.specs.Class.{drives, is_phase};

use crate::ctrl::{line_enable, line_map};
use crate::state::state_of;
use class_rules::{Class, ClassState};

// Whether the state is phase p.
fn is_phase(m: ClassState, p: u16) -> bool
    ensures { result ≡ is_phase m p }
{
    match m {
        ClassState::Phase0 => p == 0,
        ClassState::Phase1 => p == 1,
        ClassState::Phase2 => p == 2,
        ClassState::Phase3 => p == 3,
        _ => false,
    }
}

// Enable e is set, and the class is in the phase that map e names.
#[tactic(auto, unfolding(class_rules::specs::Class::drives))]
fn drives(c: Class, e: u32) -> bool
    requires { e < 4 }
    ensures { result ≡ drives c e }
{
    line_enable(c, e) & is_phase(state_of(c.state), line_map(c, e))
}

// The lines that the class drives, line 0 lowest.
pub fn lines(c: Class) -> u8
    ensures { result ≡ bits_of 4 (drives c) }
{
    (0..4).fold(0, |on, e| on | u8::from(drives(c, e)) << e)
}
