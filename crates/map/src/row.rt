// "Register map": what is known of each register, a row for each.
ghost use Rattle.std.specs.Prelude.{◌≡◌};
ghost use Rattle.rules.specs.Map.{single_row, field_row, setting_row, row};

use rules::{Field, Guard, Register, Row, Setting, Single, Way};

// A row: bits, way, guard, whether it is a lock, whether steps 2 to 4 of a tick move it, whether it is shadowed. Kept: the table reads line by line as in
// `rules Map`, which has the same six columns.
fn line(bits: u8, way: Way, guard: Guard, lock: bool, moves: bool, shadowed: bool) -> Row
    ensures { result ≡ record { bits = bits; way = way; guard = guard; lock = lock; moves = moves; shadowed = shadowed } }
{
    Row {
        bits,
        way,
        guard,
        lock,
        moves,
        shadowed,
    }
}

// Of a register that there is one of.
fn single_row(o: Single) -> Row
    ensures { result ≡ single_row o }
{
    match o {
        Single::IntrState => line(4, Way::OneClears, Guard::Free, false, true, false),
        Single::IntrEnable => line(4, Way::Both, Guard::Free, false, false, false),
        Single::IntrTest => line(4, Way::WriteOnly, Guard::Free, false, false, false),
        Single::PingRegwen => line(1, Way::Both, Guard::ByRegwen, true, false, false),
        Single::PingTimeout => line(16, Way::Both, Guard::ByRegwen, false, false, true),
        Single::PingEnable => line(1, Way::OneSets, Guard::ByRegwen, false, false, false),
    }
}

// Of an alert or a local alert.
fn field_row(f: Field) -> Row
    ensures { result ≡ field_row f }
{
    match f {
        Field::Regwen => line(1, Way::Both, Guard::ByRegwen, true, false, false),
        Field::En => line(1, Way::Both, Guard::ByRegwen, false, false, true),
        Field::Class => line(2, Way::Both, Guard::ByRegwen, false, false, true),
        Field::Cause => line(1, Way::OneClears, Guard::Free, false, true, false),
    }
}

// Of a class's block.
fn setting_row(s: Setting) -> Row
    ensures { result ≡ setting_row s }
{
    match s {
        Setting::Regwen => line(1, Way::Both, Guard::ByRegwen, true, false, false),
        Setting::Ctrl => line(14, Way::Both, Guard::ByRegwen, false, false, true),
        Setting::ClrRegwen => line(1, Way::Both, Guard::ByClrRegwen, true, true, false),
        Setting::Clr => line(1, Way::WriteOnly, Guard::ByClrRegwen, false, false, false),
        Setting::AccumCnt => line(16, Way::ReadOnly, Guard::Free, false, true, false),
        Setting::AccumThresh => line(16, Way::Both, Guard::ByRegwen, false, false, true),
        Setting::TimeoutCyc => line(32, Way::Both, Guard::ByRegwen, false, false, true),
        Setting::PhaseCyc(_) => line(32, Way::Both, Guard::ByRegwen, false, false, true),
        Setting::EscCnt => line(32, Way::ReadOnly, Guard::Free, false, true, false),
        Setting::State => line(3, Way::ReadOnly, Guard::Free, false, true, false),
    }
}

// A register's row; what is no register has no bits.
pub fn row_of(q: Register) -> Row
    ensures { result ≡ row q }
{
    match q {
        Register::Only(o) => single_row(o),
        Register::Local(f, _) => field_row(f),
        Register::Alert(f, _) => field_row(f),
        Register::Block(s, _) => setting_row(s),
        Register::Unassigned => line(0, Way::Both, Guard::Free, false, false, false),
    }
}
