// "One tick", step 1: what a register holds, for every index.
ghost use Rattle.std.specs.Prelude.{◌≡◌, get_or};
ghost use Rattle.class_rules.specs.Class.{no_class};
ghost use Rattle.rules.specs.State.{local_column, alert_column};
ghost use Rattle.rules.specs.Access.{single_value, setting_value, value};

use crate::list::entry;
use class_rules::Class;
use rules::{Alerts, Field, Handler, Locals, Register, Setting, Single};

// Register f of local alert j.
pub fn local_value(l: &Locals, f: Field, j: usize) -> u8
    ensures { result ≡ get_or (local_column f l.now) j 0 }
{
    let column = match f {
        Field::Regwen => &l.regwen,
        Field::En => &l.en,
        Field::Class => &l.class,
        Field::Cause => &l.cause,
    };
    entry(column, j, 0)
}

// Register f of alert i. Kept beside that of a local alert: `Alerts` and `Locals` are two C structs, whose columns have two lengths.
pub fn alert_value(a: &Alerts, f: Field, i: usize) -> u8
    ensures { result ≡ get_or (alert_column f a.now) i 0 }
{
    let column = match f {
        Field::Regwen => &a.regwen,
        Field::En => &a.en,
        Field::Class => &a.class,
        Field::Cause => &a.cause,
    };
    entry(column, i, 0)
}

// A register of a class's block.
fn setting_value(s: Setting, c: &Class) -> u32
    ensures { result ≡ setting_value s c.now }
{
    match s {
        Setting::Regwen => c.regwen as u32,
        Setting::Ctrl => c.ctrl as u32,
        Setting::ClrRegwen => c.clrwen as u32,
        Setting::Clr => 0,
        Setting::AccumCnt => c.accum as u32,
        Setting::AccumThresh => c.thresh as u32,
        Setting::TimeoutCyc => c.timeout,
        Setting::PhaseCyc(p) => entry(&c.lengths, p, 0),
        Setting::EscCnt => c.count,
        Setting::State => c.state,
    }
}

// A register of the block of class k; past the four classes all are 0.
fn block_value(classes: &[Class], s: Setting, k: usize) -> u32
    ensures { result ≡ setting_value s (get_or classes.now k no_class) }
{
    match classes.get(k) {
        Some(c) => setting_value(s, c),
        None => 0,
    }
}

// A register that there is one of.
fn single_value(o: Single, h: &Handler) -> u32
    ensures { result ≡ single_value o h.now }
{
    match o {
        Single::IntrState => h.interrupts.state as u32,
        Single::IntrEnable => h.interrupts.enable as u32,
        Single::IntrTest => 0,
        Single::PingRegwen => h.timer.regwen as u32,
        Single::PingTimeout => h.timer.timeout,
        Single::PingEnable => h.timer.enable as u32,
    }
}

// What a register holds. INTR_TEST, CLR and what is no register hold no value.
#[tactic(auto, unfolding(rules::specs::Access::value))]
pub fn value_in(h: &Handler, q: Register) -> u32
    ensures { result ≡ value h.now q }
{
    match q {
        Register::Only(o) => single_value(o, h),
        Register::Local(f, j) => local_value(&h.locals, f, j) as u32,
        Register::Alert(f, i) => alert_value(&h.alerts, f, i) as u32,
        Register::Block(s, k) => block_value(&h.classes, s, k),
        Register::Unassigned => 0,
    }
}

// The same of a state that is handed in whole, as the writer of dumps does.
pub fn value_of(h: Handler, q: Register) -> u32
    ensures { result ≡ value h q }
{
    value_in(&h, q)
}
