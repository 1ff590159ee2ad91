// Request (v): a register's stage, as its code: 0 for none, the staged value plus 1.
ghost use Rattle.std.specs.Prelude.{◌≡◌, get_or};
ghost use Rattle.rules.specs.Stages.{local_stages, alert_stages, setting_stage, no_class_stages, single_stage, stage_in, stage};

use crate::list::entry;
use rules::{
    AlertStages, ClassStages, Field, Handler, LocalStages, Register, Setting, Single, Stages,
};

// Of register f of local alert j.
fn local_stage(l: &LocalStages, f: Field, j: usize) -> u32
    ensures { result ≡ get_or (local_stages f l.now) j 0 }
{
    match f {
        Field::En => entry(&l.en, j, 0),
        Field::Class => entry(&l.class, j, 0),
        _ => 0,
    }
}

// Of register f of alert i. Kept beside that of a local alert: the codes of the two C structs have two widths.
fn alert_stage(a: &AlertStages, f: Field, i: usize) -> u8
    ensures { result ≡ get_or (alert_stages f a.now) i 0 }
{
    match f {
        Field::En => entry(&a.en, i, 0),
        Field::Class => entry(&a.class, i, 0),
        _ => 0,
    }
}

// Of a register of a class's block.
fn setting_stage(s: Setting, c: &ClassStages) -> u64
    ensures { result ≡ setting_stage s c.now }
{
    match s {
        Setting::Ctrl => c.ctrl as u64,
        Setting::AccumThresh => c.thresh as u64,
        Setting::TimeoutCyc => c.timeout,
        Setting::PhaseCyc(p) => entry(&c.lengths, p, 0),
        _ => 0,
    }
}

// Of a register of the block of class k; past the four classes there is none.
fn block_stage(classes: &[ClassStages], s: Setting, k: usize) -> u64
    ensures { result ≡ setting_stage s (get_or classes.now k no_class_stages) }
{
    match classes.get(k) {
        Some(c) => setting_stage(s, c),
        None => 0,
    }
}

// Of a register that there is one of: the ping timer's timeout alone is shadowed.
fn single_stage(o: Single, s: &Stages) -> u64
    ensures { result ≡ single_stage o s.now }
{
    match o {
        Single::PingTimeout => s.timeout,
        _ => 0,
    }
}

// The stage of a register; what is not shadowed has none.
#[tactic(auto, unfolding(rules::specs::Stages::stage_in))]
pub fn stage_in(s: &Stages, q: Register) -> u64
    ensures { result ≡ stage_in s.now q }
{
    match q {
        Register::Only(o) => single_stage(o, s),
        Register::Local(f, j) => local_stage(&s.locals, f, j) as u64,
        Register::Alert(f, i) => alert_stage(&s.alerts, f, i) as u64,
        Register::Block(t, k) => block_stage(&s.classes, t, k),
        Register::Unassigned => 0,
    }
}

// The same of a state that is handed in whole, as the writer of dumps does.
pub fn stage_of(h: Handler, q: Register) -> u64
    ensures { result ≡ stage h q }
{
    stage_in(&h.stages, q)
}
