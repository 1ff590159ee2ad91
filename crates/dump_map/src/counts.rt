// Registers of a kind, by their numbers.
ghost use Rattle.std.specs.Prelude.{◌≡◌, ◌-◌, ◌≤◌, ◌<◌, length};
ghost use Rattle.rules.specs.Map.{decode};
ghost use Rattle.dump_rules.specs.Dump.{to_full, head_bits};
ghost use Rattle.dump_rules.specs.Shown.{picks, limit};
ghost use Rattle.dump_map.specs.Kinds.{has_kind, First};

use crate::Kind;
use dump_rules::REGISTERS;
use map::column::{is_lock, is_shadowed};
use map::number::register_at;
use rules::{Field, Register};

impl Kind {
    pub fn has(self, q: Register) -> bool
        ensures { result ≡ has_kind self q }
    {
        match self {
            Kind::Cause => {
                matches!(
                    q,
                    Register::Local(Field::Cause, _) | Register::Alert(Field::Cause, _)
                )
            }
            Kind::Lock => is_lock(q),
            Kind::Shadowed => is_shadowed(q),
        }
    }

    // Whether a handler of n alerts has one at number r.
    fn has_at(self, n: usize, r: usize) -> bool
        requires { r < 65536 }
        ensures { result ≡ has_kind self (decode n r) }
    {
        self.has(register_at(n, r as u16))
    }

    // How many registers of the kind a handler of n alerts has from number a on and below b.
    pub fn count(self, n: usize, a: usize, b: usize) -> usize
        requires { b ≤ 65536 }
        ensures { (result ≡ length (picks (λ r. has_kind self (decode n r)) a (b - a))) × (result ≤ b) }
    {
        let mut m = 0;
        for r in a..b {
            m += usize::from(self.has_at(n, r));
        }
        m
    }

    // How many it has in all.
    pub fn how_many(self, n: usize) -> usize
        ensures { (result ≡ length (picks (λ r. has_kind self (decode n r)) 0 limit)) × (result ≤ limit) }
    {
        self.count(n, 0, REGISTERS)
    }
}

// The first number from a on of a shadowed register.
pub fn first_shadowed(n: usize, a: usize) -> Option<usize>
    ensures { First n a result }
{
    for r in a..REGISTERS {
        if Kind::Shadowed.has_at(n, r) {
            return Some(r);
        }
    }
    None
}

// From the bits before them, zeros to a full byte.
pub fn zeros_behind(causes: usize, locks: usize) -> usize
    ensures { (result ≡ to_full (head_bits causes locks)) × (result ≤ 64) }
{
    (8 - (4 + causes % 8 + locks % 8) % 8) % 8
}
