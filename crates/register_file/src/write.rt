// "One tick", step 1: an accepted write, into the state where it stands.
ghost use Rattle.std.specs.Prelude.{◌≡◌, cond, not, ◌&&◌, ◌||◌, ◌^◌, ◌<◌, eqb, get_or};
ghost use Rattle.bits.specs.Bits.{bit, bits_of};
ghost use Rattle.class_rules.specs.Class.{no_class};
ghost use Rattle.rules.specs.Map.{single_bits, setting_bits, bits};
ghost use Rattle.rules.specs.State.{most, local_count, class_count, local_column, alert_column, with_local_column, with_alert_column, put};
ghost use Rattle.rules.specs.Access.{field_stored, with_setting, with_interrupt, with_ping, store};

use crate::list::put_entry;
use crate::read::{alert_value, local_value};
use class_rules::Class;
use rules::{Alerts, Field, Handler, Interrupts, Locals, Register, Setting, Single, Timer};

// INTR_STATE: a 1 clears.
fn cleared(state: u16, v: u16) -> u16
    requires { v < 2 ^ 4 }
    ensures { result ≡ bits_of 4 (λ k. bit state k && not (bit v k)) }
{
    state & (15 - v)
}

// INTR_TEST: a 1 sets INTR_STATE.
fn raised(state: u16, v: u16) -> u16
    requires { v < 2 ^ 4 }
    ensures { result ≡ bits_of 4 (λ k. bit state k || bit v k) }
{
    (state % 16) | v
}

// The interrupt registers with v written at one of them.
fn store_interrupt(i: &mut Interrupts, o: Single, v: u32)
    requires { v < 2 ^ single_bits o }
    ensures { i.new ≡ with_interrupt o v i.old }
{
    match o {
        Single::IntrState => i.state = cleared(i.state, v as u16),
        Single::IntrEnable => i.enable = v as u16,
        Single::IntrTest => i.state = raised(i.state, v as u16),
        _ => {}
    }
}

// The ping timer's registers with v written at one of them; a 0 to the enable does nothing.
fn store_ping(t: &mut Timer, o: Single, v: u32)
    requires { v < 2 ^ single_bits o }
    ensures { t.new ≡ with_ping o v t.old }
{
    match o {
        Single::PingRegwen => t.regwen = v as u16,
        Single::PingTimeout => t.timeout = v,
        Single::PingEnable => if v != 0 {
            t.enable = v as u16;
        },
        _ => {}
    }
}

// In CAUSE a written 1 clears.
fn field_stored(f: Field, old: u8, v: u8) -> u8
    ensures { result ≡ field_stored f old v }
{
    if f != Field::Cause {
        v
    } else if v == 1 {
        0
    } else {
        old
    }
}

// The local alerts with v written at register f of local alert j.
fn store_local(l: &mut Locals, f: Field, j: usize, v: u8)
    ensures { l.new ≡ with_local_column f (put local_count (local_column f l.old) 0 j (field_stored f (get_or (local_column f l.old) j 0) v)) l.old }
{
    let w = field_stored(f, local_value(l, f, j), v);
    match f {
        Field::Regwen => put_entry(&mut l.regwen, j, w),
        Field::En => put_entry(&mut l.en, j, w),
        Field::Class => put_entry(&mut l.class, j, w),
        Field::Cause => put_entry(&mut l.cause, j, w),
    }
}

// The alerts with v written at register f of alert i. Kept beside that of a local alert: two C structs, whose columns have two lengths.
fn store_alert(a: &mut Alerts, f: Field, i: usize, v: u8)
    ensures { a.new ≡ with_alert_column f (put most (alert_column f a.old) 0 i (field_stored f (get_or (alert_column f a.old) i 0) v)) a.old }
{
    let w = field_stored(f, alert_value(a, f, i), v);
    match f {
        Field::Regwen => put_entry(&mut a.regwen, i, w),
        Field::En => put_entry(&mut a.en, i, w),
        Field::Class => put_entry(&mut a.class, i, w),
        Field::Cause => put_entry(&mut a.cause, i, w),
    }
}

// A class's block with v written at one register.
fn store_setting(c: &mut Class, s: Setting, v: u32)
    requires { v < 2 ^ setting_bits s }
    ensures { c.new ≡ with_setting s v c.old }
{
    match s {
        Setting::Regwen => c.regwen = v as u8,
        Setting::Ctrl => c.ctrl = v as u16,
        Setting::ClrRegwen => c.clrwen = v as u8,
        Setting::AccumThresh => c.thresh = v as u16,
        Setting::TimeoutCyc => c.timeout = v,
        Setting::PhaseCyc(p) => put_entry(&mut c.lengths, p, v),
        _ => {}
    }
}

// The classes with v written at one register of the block of class k. Kept beside that of the stages: one with the write as a parameter is as long.
fn store_block(classes: &mut [Class; 4], s: Setting, k: usize, v: u32)
    requires { v < 2 ^ setting_bits s }
    ensures { classes.new ≡ put class_count classes.old no_class k (with_setting s v (get_or classes.old k no_class)) }
{
    if k < 4 {
        store_setting(&mut classes[k], s, v);
    }
}

// The state after an accepted write of v to register q; v fits it.
#[tactic(auto, unfolding(rules::specs::Access::store, rules::specs::Map::bits))]
pub fn store(h: &mut Handler, q: Register, v: u32)
    requires { v < 2 ^ bits q }
    ensures { h.new ≡ store h.old q v }
{
    match q {
        Register::Only(o) => {
            store_interrupt(&mut h.interrupts, o, v);
            store_ping(&mut h.timer, o, v);
        }
        Register::Local(f, j) => store_local(&mut h.locals, f, j, v as u8),
        Register::Alert(f, i) => store_alert(&mut h.alerts, f, i, v as u8),
        Register::Block(s, k) => store_block(&mut h.classes, s, k, v),
        Register::Unassigned => {}
    }
}
