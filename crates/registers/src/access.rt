// "One tick", step 1: the access, on the state before any event of this tick.
ghost use Rattle.std.specs.Prelude.{◌≡◌};
ghost use Rattle.rules.specs.Access.{named, accessed};
ghost use Rattle.registers.specs.Change.{left_with};

use crate::change::{NO_EFFECTS, act, refuse};
use crate::verdict::verdict_of;
use map::number::register_at;
use rules::{Access, Accessed, Answer, Effects, Handler, Register};

// The register that an access names.
fn name(h: &Handler, x: Access) -> Register
    ensures { result ≡ named h.now x }
{
    match x {
        Access::Read(r) | Access::Write(r, _) => register_at(h.n, r),
        Access::Nothing | Access::Malformed => Register::Unassigned,
    }
}

// The access on the state where it stands, so that nothing else of it is copied: the answer, and the effects on the later steps. Most ticks have none.
#[inline]
pub fn access_in(h: &mut Handler, x: Access) -> (Answer, Effects)
    ensures { left_with h.new result ≡ accessed h.old x }
{
    match x {
        Access::Nothing => (Answer::Done, NO_EFFECTS),
        _ => judge_and_act(h, x),
    }
}

// The same of any access. The register number is decoded here, once.
#[inline(never)]
#[tactic(auto, unfolding(rules::specs::Access::accessed))]
fn judge_and_act(h: &mut Handler, x: Access) -> (Answer, Effects)
    ensures { left_with h.new result ≡ accessed h.old x }
{
    let q = name(h, x);
    match verdict_of(h, x, q) {
        Ok(()) => act(h, x, q),
        Err(m) => refuse(h, q, m),
    }
}

// The state after it, the answer, and its effects on the later steps.
pub fn access(h: Handler, x: Access) -> Accessed
    ensures { result ≡ accessed h x }
{
    let mut handler = h;
    let (answer, effects) = access_in(&mut handler, x);
    Accessed {
        handler,
        answer,
        effects,
    }
}
