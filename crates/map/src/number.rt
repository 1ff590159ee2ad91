// "Register map": a register number decoded into kind and index.
use rules::{Field, Register, Setting, Single};

// From one field of the alerts to the next.
const STRIDE: usize = 256;

// The first numbers of the alerts' four fields and of the classes, and what is past them.
const REGWEN: usize = STRIDE;

const EN: usize = 2 * STRIDE;

const CLASS: usize = 3 * STRIDE;

const CAUSE: usize = 4 * STRIDE;

const BLOCKS: usize = 5 * STRIDE;

const END: usize = BLOCKS + 16 * 4;

ghost use Rattle.std.specs.Prelude.{◌≡◌};
ghost use Rattle.rules.specs.Map.{block_at, alert_at, decode};

// The register at +o in the block of class k.
#[tactic(auto, unfolding(rules::specs::Map::block_at))]
fn block_at(k: usize, o: usize) -> Register
    ensures { result ≡ block_at k o }
{
    match o {
        0 => Register::Block(Setting::Regwen, k),
        1 => Register::Block(Setting::Ctrl, k),
        2 => Register::Block(Setting::ClrRegwen, k),
        3 => Register::Block(Setting::Clr, k),
        4 => Register::Block(Setting::AccumCnt, k),
        5 => Register::Block(Setting::AccumThresh, k),
        6 => Register::Block(Setting::TimeoutCyc, k),
        7..=10 => Register::Block(Setting::PhaseCyc(o - 7), k),
        11 => Register::Block(Setting::EscCnt, k),
        12 => Register::Block(Setting::State, k),
        _ => Register::Unassigned,
    }
}

// Register f of alert i, where there is such an alert.
fn alert_at(f: Field, i: usize, n: usize) -> Register
    ensures { result ≡ alert_at n f i }
{
    if i < n {
        Register::Alert(f, i)
    } else {
        Register::Unassigned
    }
}

// The register that a number selects in a handler of n alerts; a number outside all ranges is unassigned.
#[tactic(auto, using(laws::proofs::Map::MapLaws::decode_none), unfolding(rules::specs::Map::decode))]
pub fn register_at(n: usize, r: u16) -> Register
    ensures { result ≡ decode n r }
{
    let r = r as usize;
    match r {
        0 => Register::Only(Single::IntrState),
        1 => Register::Only(Single::IntrEnable),
        2 => Register::Only(Single::IntrTest),
        4 => Register::Only(Single::PingRegwen),
        5 => Register::Only(Single::PingTimeout),
        6 => Register::Only(Single::PingEnable),
        16..=22 => Register::Local(Field::Regwen, r - 16),
        24..=30 => Register::Local(Field::En, r - 24),
        32..=38 => Register::Local(Field::Class, r - 32),
        40..=46 => Register::Local(Field::Cause, r - 40),
        REGWEN..EN => alert_at(Field::Regwen, r - REGWEN, n),
        EN..CLASS => alert_at(Field::En, r - EN, n),
        CLASS..CAUSE => alert_at(Field::Class, r - CLASS, n),
        CAUSE..BLOCKS => alert_at(Field::Cause, r - CAUSE, n),
        BLOCKS..END => block_at((r - BLOCKS) / 16, (r - BLOCKS) % 16),
        _ => Register::Unassigned,
    }
}
