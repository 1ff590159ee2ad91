// The seven states of a class and the numbers that STATE reads.
ghost use Rattle.std.specs.Prelude.{◌≡◌};
ghost use Rattle.class_rules.specs.Class.{state_of, state_number};

use class_rules::ClassState;

// The state of a number; 2 and numbers over 7 are no state's and give Idle.
#[tactic(auto, unfolding(class_rules::specs::Class::state_of))]
pub fn state_of(s: u32) -> ClassState
    ensures { result ≡ state_of s }
{
    match s {
        1 => ClassState::Timeout,
        3 => ClassState::Terminal,
        4 => ClassState::Phase0,
        5 => ClassState::Phase1,
        6 => ClassState::Phase2,
        7 => ClassState::Phase3,
        _ => ClassState::Idle,
    }
}

// The number that STATE reads.
pub fn number(m: ClassState) -> u32
    ensures { result ≡ state_number m }
{
    m as u32
}
