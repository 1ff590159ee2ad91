// CTRL of a class: bit 0 EN, 1 LOCK, 2 to 5 line enables, 6 to 13 line maps, two bits a line.
ghost use Rattle.std.specs.Prelude.{◌≡◌, ◌<◌};
ghost use Rattle.class_rules.specs.Class.{enabled, line_enable, line_map, lock};

use class_rules::Class;
use masks::is_set;

// EN as steps 3 and 4 read it: EN is 1 and at least one line enable is 1.
pub fn enabled(c: Class) -> bool
    ensures { result ≡ enabled c }
{
    is_set(c.ctrl, 0) & (0..4).fold(false, |some, e| some | line_enable(c, e))
}

// LOCK.
pub fn lock(c: Class) -> bool
    ensures { result ≡ lock c }
{
    is_set(c.ctrl, 1)
}

// The enable of line e.
pub fn line_enable(c: Class, e: u32) -> bool
    requires { e < 4 }
    ensures { result ≡ line_enable c e }
{
    is_set(c.ctrl, 2 + e)
}

// The phase that line e's map names.
pub fn line_map(c: Class, e: u32) -> u16
    requires { e < 4 }
    ensures { result ≡ line_map c e }
{
    (c.ctrl >> (6 + 2 * e)) % 4
}
