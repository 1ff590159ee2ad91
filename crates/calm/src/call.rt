// A call of calm ticks, from any state.
ghost use Rattle.std.specs.Prelude.{◌≡◌, pos, neg_ℤ};
ghost use Rattle.calm_rules.specs.Call.{bar_number, calm_verdict};
ghost use Rattle.rules.specs.Tick.{no_output};
ghost use Rattle.calm.specs.CalmedBy.{CalmedBy};

use crate::changes::ENTRIES;
use crate::ticking::Ticking;
use calm_rules::{Bar, Calmed};
use handler::tick::no_output;
use rules::{Handler, Wires};
use state::valid::is_valid;

// Whether a call may begin.
fn admit(h: &Handler, list: &[u64]) -> Result<(), Bar>
    ensures { result ≡ calm_verdict h.now list.now }
{
    if !is_valid(*h) {
        Err(Bar::BadState)
    } else if h.timer.enable == 1 {
        Err(Bar::TimerOn)
    } else if list.len() < ENTRIES {
        Err(Bar::ShortList)
    } else {
        Ok(())
    }
}

// A call that does not begin.
fn refused(h: Handler, bar: Bar) -> Calmed
    ensures { result ≡ record { handler = h; answer = neg_ℤ (pos (bar_number bar)); output = no_output } }
{
    Calmed {
        handler: h,
        answer: -(bar as i64),
        output: no_output(),
    }
}

// The calm ticks of any state on these wires. The list takes a word for each tick at which a line changed.
pub fn calm(h: Handler, wires: Wires, ticks: u32, out: &mut [u64]) -> Calmed
    ensures { CalmedBy h wires ticks out.old result out.new }
{
    if let Err(bar) = admit(&h, out) {
        return refused(h, bar);
    }
    let mut ticking = Ticking::<ENTRIES>::new(h, wires);
    let output = ticking.run(u64::from(ticks));
    Calmed {
        handler: ticking.handler,
        answer: ticking.changes.store(out) as i64,
        output,
    }
}
