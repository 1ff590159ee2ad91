// Step 2, the local alerts: those that are raised and enabled occur.
ghost use Rattle.std.specs.Prelude.{◌<◌, ◌≤◌, ◌≡◌, ◌&&◌, eqb};
ghost use Rattle.bits.specs.Bits.{bit, bits_of};
ghost use Rattle.rules.specs.State.{local_count};
ghost use Rattle.samples.specs.Occurred.{OccurredAll, among_bits, raised_by};

use events::note;

// The local alerts that are raised, local 0 at the lowest bit: 0 and 1, alert and escalation ping, by a ping that fails, 2 and 3, alert and escalation
// integrity, by equal wires and by a wrong receive pair, and those that step 1 raises.
pub fn raise(broken: bool, wrong: bool, alert: bool, line: bool, raises: u8) -> u8
    ensures { result ≡ bits_of local_count (raised_by broken wrong alert line raises) }
{
    u8::from(alert)
        | (2 * u8::from(line) | (4 * u8::from(broken) | (8 * u8::from(wrong) | raises % 128)))
}

// The local alerts' causes, and the classes that those that occur are assigned to.
#[derive(Clone, Copy)]
pub struct Occurred {
    pub cause: [u8; 7],
    pub hits: u8,
}

// The local alerts that are raised and enabled occur.
pub fn occur(raised: u8, en: &[u8; 7], class: &[u8; 7], before: [u8; 7]) -> Occurred
    ensures { OccurredAll raised en.now class.now before result }
{
    let mut cause = before;
    let mut hits: u8 = 0;
    for j in 0..7 {
        let on = does_occur(raised, en[j], j);
        hits |= note::class_bit(class[j], on);
        note::mark(&mut cause, j, on);
    }
    Occurred { cause, hits }
}

// Local alert j occurs: it is raised and enabled.
fn does_occur(raised: u8, en: u8, j: usize) -> bool
    requires { j < local_count }
    ensures { result ≡ (bit raised j && eqb en 1) }
{
    ((raised >> j) % 2 == 1) & (en == 1)
}

// Those that occur, local 0 at the lowest bit.
pub fn occurring(raised: u8, en: [u8; 7]) -> u8
    ensures { result ≡ bits_of local_count (among_bits raised en) }
{
    (0..7).fold(0, |on, j| on | u8::from(does_occur(raised, en[j], j)) << j)
}
