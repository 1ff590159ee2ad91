// "One tick", step 1: what an access does, written into the state where it stands.
ghost use Rattle.std.specs.Prelude.{◌≡◌, false, ◌&&◌, eqb, ◌^◌, ◌<◌, Ok};
ghost use Rattle.bits.specs.Bits.{bits_of};
ghost use Rattle.rules.specs.Map.{single_number, bits};
ghost use Rattle.rules.specs.Access.{is_clr_of, too_wide, is_first, named, written, accessed_by};
ghost use Rattle.rules.specs.declared.Single.TheVariants.{PingEnable};
ghost use Rattle.rules.specs.declared.Refusal.{Refusal};
ghost use Rattle.registers.specs.Change.{left_with, refused_by};

use map::column::is_shadowed;
use masks::class_bit;
use register_file::read::value_in;
use register_file::restage::{drop_stage, put_stage};
use register_file::stage::stage_in;
use register_file::write::store;
use rules::{Access, Answer, Effects, Handler, Refusal, Register, Setting};

// An access that hands nothing to the later steps.
pub const NO_EFFECTS: Effects = Effects {
    clears: 0,
    raises: 0,
    begins: false,
};

// A write of 1 to CLR is an accepted clear of its class; a 0 does nothing.
fn clears_of(q: Register, v: u32) -> u8
    ensures { result ≡ bits_of 4 (λ k. is_clr_of k q && eqb v 1) }
{
    match q {
        Register::Block(s, k) => class_bit(k, s == Setting::Clr && v == 1),
        _ => 0,
    }
}

// Request (ix), "When 6 becomes 1": a write of v to register r is one of 1 to the ping timer's enable while that is 0.
fn begins_of(r: u16, v: u32, enable: u16) -> bool
    ensures { result ≡ (eqb r (single_number PingEnable) && (eqb v 1 && eqb enable 0)) }
{
    r == 6 && v == 1 && enable == 0
}

// A first write to a shadowed register, while it has no stage.
fn is_first(h: &Handler, q: Register) -> bool
    ensures { result ≡ is_first h.now q }
{
    is_shadowed(q) && stage_in(&h.stages, q) == 0
}

// An accepted write: the first to a shadowed register is staged, any other is stored and leaves no stage.
#[tactic(auto, unfolding(rules::specs::Access::written))]
fn write(h: &mut Handler, q: Register, v: u32)
    requires { v < 2 ^ bits q }
    ensures { h.new ≡ written h.old q v }
{
    if is_first(h, q) {
        put_stage(&mut h.stages, q, v as u64 + 1);
    } else {
        drop_stage(&mut h.stages, q);
        store(h, q, v);
    }
}

// An accepted access, to the register q that it names: a read gives the value and drops the stage, anything else gives 0.
#[tactic(auto, unfolding(bits::specs::Bits::bits_of))]
pub fn act(h: &mut Handler, x: Access, q: Register) -> (Answer, Effects)
    requires { (q ≡ named h.old x) × (too_wide h.old x ≡ false) }
    ensures { left_with h.new result ≡ accessed_by (Ok tt) h.old x }
{
    match x {
        Access::Read(_) => {
            let value = value_in(h, q);
            drop_stage(&mut h.stages, q);
            (Answer::Value(value), NO_EFFECTS)
        }
        Access::Write(r, v) => {
            let begins = begins_of(r, v, h.timer.enable);
            write(h, q, v);
            let clears = clears_of(q, v);
            (
                Answer::Done,
                Effects {
                    clears,
                    begins,
                    ..NO_EFFECTS
                },
            )
        }
        Access::Nothing | Access::Malformed => (Answer::Done, NO_EFFECTS),
    }
}

// A refused access that names q: 3 and 12 drop its stage, and 12 raises local 5, shadow update.
pub fn refuse(h: &mut Handler, q: Register, m: Refusal) -> (Answer, Effects)
    ensures { left_with h.new result ≡ refused_by m h.old q }
{
    if m == Refusal::Locked || m == Refusal::Differs {
        drop_stage(&mut h.stages, q);
    }
    let raises = if m == Refusal::Differs { 32 } else { 0 };
    (
        Answer::Refused(m),
        Effects {
            raises,
            ..NO_EFFECTS
        },
    )
}
