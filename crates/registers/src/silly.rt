// "One tick", step 1: refusal 14, the lock of a class that waits for 65,536 events.
ghost use Rattle.std.specs.Prelude.{◌≡◌, get_or};
ghost use Rattle.class_rules.specs.Class.{no_class};
ghost use Rattle.rules.specs.Access.{locks_silly, silly};

use class_rules::Class;
use masks::is_set;
use rules::{Handler, Register, Setting};

// A 0 to a class REGWEN while EN is 1, ACCUM_THRESH is 65535 and REGWEN is still 1.
fn locks_silly(s: Setting, v: u32, c: &Class) -> bool
    ensures { result ≡ locks_silly s v c.now }
{
    s == Setting::Regwen && v == 0 && is_set(c.ctrl, 0) && c.thresh == 65535 && c.regwen == 1
}

// The same of class k; past the four there is no class.
fn locks_silly_block(classes: &[Class], s: Setting, k: usize, v: u32) -> bool
    ensures { result ≡ locks_silly s v (get_or classes.now k no_class) }
{
    match classes.get(k) {
        Some(c) => locks_silly(s, v, c),
        None => false,
    }
}

// Refusal 14 of a write.
pub fn is_silly(h: &Handler, q: Register, v: u32) -> bool
    ensures { result ≡ silly h.now q v }
{
    match q {
        Register::Block(s, k) => locks_silly_block(&h.classes, s, k, v),
        _ => false,
    }
}
