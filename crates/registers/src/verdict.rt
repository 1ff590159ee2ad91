// "One tick", step 1: the refusals of an access, in the order 5, 1, 2, 4, 14, 3, 12.
ghost use Rattle.std.specs.Prelude.{◌≡◌, false, not};
ghost use Rattle.bits.specs.Bits.{fits};
ghost use Rattle.rules.specs.Map.{is_register, bits, write_only, read_only};
ghost use Rattle.rules.specs.Answer.{first_of};
ghost use Rattle.rules.specs.Access.{locked, silly, bars, unlike, in_order, verdict, named};

use crate::silly::is_silly;
use map::column::{guard_of, is_lock, is_register, limit, read_only, write_only};
use register_file::read::value_in;
use register_file::stage::stage_in;
use rules::{Access, Handler, Refusal, Register};

// A register is locked while the REGWEN that guards it is 0.
#[tactic(auto, unfolding(rules::specs::Access::locked))]
fn is_locked(h: &Handler, q: Register) -> bool
    ensures { result ≡ locked h.now q }
{
    let guard = guard_of(q);
    is_register(guard) && value_in(h, guard) == 0
}

// A write to a locked register is barred; in REGWEN and CLR_REGWEN a 0 is accepted again.
fn is_barred(h: &Handler, q: Register, v: u32) -> bool
    ensures { result ≡ bars h.now q v }
{
    is_locked(h, q) && !(is_lock(q) && v == 0)
}

// The register has a stage open with another value.
fn is_unlike(h: &Handler, q: Register, v: u32) -> bool
    ensures { result ≡ unlike h.now q v }
{
    let code = stage_in(&h.stages, q);
    code != 0 && code != v as u64 + 1
}

// The refusals of a read.
#[tactic(auto, unfolding(rules::specs::Answer::first_of))]
fn read_verdict(q: Register) -> Result<(), Refusal>
    ensures { result ≡ first_of (in_order false (not (is_register q)) (write_only q) false false false false) }
{
    if !is_register(q) {
        return Err(Refusal::NoRegister);
    }
    if write_only(q) {
        return Err(Refusal::WrongWay);
    }
    Ok(())
}

// The refusals of a write.
#[tactic(auto, unfolding(rules::specs::Answer::first_of))]
fn write_verdict(h: &Handler, q: Register, v: u32) -> Result<(), Refusal>
    ensures { result ≡ first_of (in_order false (not (is_register q)) (read_only q) (not (fits (bits q) v)) (silly h.now q v) (bars h.now q v) (unlike h.now q v)) }
{
    if !is_register(q) {
        return Err(Refusal::NoRegister);
    }
    if read_only(q) {
        return Err(Refusal::WrongWay);
    }
    if v as u64 >= limit(q) {
        return Err(Refusal::TooWide);
    }
    if is_silly(h, q, v) {
        return Err(Refusal::SillyThreshold);
    }
    if is_barred(h, q, v) {
        return Err(Refusal::Locked);
    }
    if is_unlike(h, q, v) {
        return Err(Refusal::Differs);
    }
    Ok(())
}

// The verdict on an access; q is the register that it names.
#[tactic(auto, unfolding(rules::specs::Answer::first_of, rules::specs::Access::verdict))]
pub fn verdict_of(h: &Handler, x: Access, q: Register) -> Result<(), Refusal>
    requires { q ≡ named h.now x }
    ensures { result ≡ verdict h.now x }
{
    match x {
        Access::Nothing => Ok(()),
        Access::Read(_) => read_verdict(q),
        Access::Write(_, v) => write_verdict(h, q, v),
        Access::Malformed => Err(Refusal::BadRecord),
    }
}
