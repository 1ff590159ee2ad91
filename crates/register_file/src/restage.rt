// Request (v): a register's stage set and dropped, where the stages stand.
ghost use Rattle.std.specs.Prelude.{◌≡◌, false, cond, ◌^◌, ◌≤◌, eqb, get_or};
ghost use Rattle.rules.specs.Map.{single_number, setting_bits, bits};
ghost use Rattle.rules.specs.Stages.{local_stages, alert_stages, no_class_stages, with_local_stages, with_alert_stages, with_setting_stage, with_stage, dropped};
ghost use Rattle.rules.specs.State.{most, local_count, class_count, put};
ghost use Rattle.register_file.specs.Parts.{is_only};

use crate::list::put_entry;
use crate::stage::stage_in;
use rules::{AlertStages, ClassStages, Field, LocalStages, Register, Setting, Single, Stages};

// The local alerts' stages with the code c at register f of local alert j, if that is shadowed.
fn put_local(l: &mut LocalStages, f: Field, j: usize, c: u32)
    ensures { l.new ≡ with_local_stages f (put local_count (local_stages f l.old) 0 j c) l.old }
{
    match f {
        Field::En => put_entry(&mut l.en, j, c),
        Field::Class => put_entry(&mut l.class, j, c),
        _ => {}
    }
}

// The alerts' stages with the code c at register f of alert i, if that is shadowed. Kept beside that of a local alert: the codes have two widths.
fn put_alert(a: &mut AlertStages, f: Field, i: usize, c: u8)
    ensures { a.new ≡ with_alert_stages f (put most (alert_stages f a.old) 0 i c) a.old }
{
    match f {
        Field::En => put_entry(&mut a.en, i, c),
        Field::Class => put_entry(&mut a.class, i, c),
        _ => {}
    }
}

// The stages of a class's block with the code v at one register, if that is shadowed. Kept beside that of the block itself: two C structs.
fn put_setting(c: &mut ClassStages, s: Setting, v: u64)
    requires { v ≤ 2 ^ setting_bits s }
    ensures { c.new ≡ with_setting_stage s v c.old }
{
    match s {
        Setting::Ctrl => c.ctrl = v as u32,
        Setting::AccumThresh => c.thresh = v as u32,
        Setting::TimeoutCyc => c.timeout = v,
        Setting::PhaseCyc(p) => put_entry(&mut c.lengths, p, v),
        _ => {}
    }
}

// The classes' stages with the code v at one register of the block of class k.
fn put_block(classes: &mut [ClassStages; 4], s: Setting, k: usize, v: u64)
    requires { v ≤ 2 ^ setting_bits s }
    ensures { classes.new ≡ put class_count classes.old no_class_stages k (with_setting_stage s v (get_or classes.old k no_class_stages)) }
{
    if k < 4 {
        put_setting(&mut classes[k], s, v);
    }
}

// The stages with the code c at register q's; of those that there is one of the ping timer's timeout alone is shadowed, and its stage holds any number.
#[tactic(auto, unfolding(rules::specs::Stages::with_stage, rules::specs::Map::bits))]
pub fn put_stage(s: &mut Stages, q: Register, c: u64)
    requires { is_only q ≡ false → c ≤ 2 ^ bits q }
    ensures { s.new ≡ with_stage q c s.old }
{
    match q {
        Register::Only(o) => if o == Single::PingTimeout {
            s.timeout = c;
        },
        Register::Local(f, j) => put_local(&mut s.locals, f, j, c as u32),
        Register::Alert(f, i) => put_alert(&mut s.alerts, f, i, c as u8),
        Register::Block(t, k) => put_block(&mut s.classes, t, k, c),
        Register::Unassigned => {}
    }
}

// The stages with that of register q gone, if it is open.
#[tactic(auto, unfolding(rules::specs::Stages::dropped))]
pub fn drop_stage(s: &mut Stages, q: Register)
    ensures { s.new ≡ dropped q s.old }
{
    if stage_in(s, q) != 0 {
        put_stage(s, q, 0);
    }
}
