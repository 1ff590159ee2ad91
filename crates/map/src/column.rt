// "Register map": what a register's row says of an access to it.
ghost use Rattle.std.specs.Prelude.{◌≡◌, ◌^◌};
ghost use Rattle.rules.specs.Map.{is_register, write_only, read_only, bits, is_lock, is_shadowed, lock_of, guard_by, guard};

use crate::row::row_of;
use rules::{Field, Guard, Register, Setting, Single, Way};

// Whether there is such a register.
pub fn is_register(q: Register) -> bool
    ensures { result ≡ is_register q }
{
    q != Register::Unassigned
}

#[tactic(auto, unfolding(rules::specs::Map::write_only))]
pub fn write_only(q: Register) -> bool
    ensures { result ≡ write_only q }
{
    row_of(q).way == Way::WriteOnly
}

#[tactic(auto, unfolding(rules::specs::Map::read_only))]
pub fn read_only(q: Register) -> bool
    ensures { result ≡ read_only q }
{
    row_of(q).way == Way::ReadOnly
}

// A written value fits the register exactly if it is below this.
pub fn limit(q: Register) -> u64
    ensures { result ≡ 2 ^ bits q }
{
    1 << row_of(q).bits
}

// Whether it is a REGWEN or CLR_REGWEN, in which a 0 is accepted again.
#[tactic(auto, unfolding(rules::specs::Map::is_lock))]
pub fn is_lock(q: Register) -> bool
    ensures { result ≡ is_lock q }
{
    row_of(q).lock
}

// Whether it takes two equal writes.
#[tactic(auto, unfolding(rules::specs::Map::is_shadowed))]
pub fn is_shadowed(q: Register) -> bool
    ensures { result ≡ is_shadowed q }
{
    row_of(q).shadowed
}

// The lock of the alert or local alert that q belongs to, lock s of its class, and of the single registers the ping timer's.
fn lock_of(s: Setting, q: Register) -> Register
    ensures { result ≡ lock_of s q }
{
    match q {
        Register::Only(_) => Register::Only(Single::PingRegwen),
        Register::Local(_, j) => Register::Local(Field::Regwen, j),
        Register::Alert(_, i) => Register::Alert(Field::Regwen, i),
        Register::Block(_, k) => Register::Block(s, k),
        Register::Unassigned => Register::Unassigned,
    }
}

fn guard_by(g: Guard, q: Register) -> Register
    ensures { result ≡ guard_by g q }
{
    match g {
        Guard::Free => Register::Unassigned,
        Guard::ByRegwen => lock_of(Setting::Regwen, q),
        Guard::ByClrRegwen => lock_of(Setting::ClrRegwen, q),
    }
}

// The REGWEN or CLR_REGWEN that guards a register, and `Unassigned` where none does.
#[tactic(auto, unfolding(rules::specs::Map::guard))]
pub fn guard_of(q: Register) -> Register
    ensures { result ≡ guard q }
{
    guard_by(row_of(q).guard, q)
}
