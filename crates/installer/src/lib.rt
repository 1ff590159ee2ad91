// The boot policy, installed and read back through the handler's tick.
#![tactic(auto)]

mod table; // table.rt: how the alerts are marked
mod ask; // ask.rt: one access a tick, a register written and read back
mod plan; // plan.rt: what is written, in order

ghost use Rattle.std.specs.Prelude.{◌≡◌, replicate};
ghost use Rattle.policy.specs.Plan.{barred, boot, lifecycle_of};

use crate::plan::install;
use crate::table::ALERTS;
use policy::{Bar, Installed, Lifecycle};
use rules::Handler;
use state::valid::is_valid;

// The lifecycle of a number; one over 5 is read as the strictest, PROD_END.
// Kept a function: boundary's tarravane_install calls it, and no number is refused.
pub fn lifecycle_of(n: u8) -> Lifecycle
    ensures { result ≡ lifecycle_of n }
{
    match n {
        0 => Lifecycle::Raw,
        1 => Lifecycle::Prod,
        2 => Lifecycle::ProdEnd,
        3 => Lifecycle::Dev,
        4 => Lifecycle::Rma,
        5 => Lifecycle::Scrap,
        _ => Lifecycle::ProdEnd,
    }
}

// What a boot gives: register 0 where it stopped at none.
fn outcome(handler: Handler, answer: i64, register: u16) -> Installed
    ensures { result ≡ record { handler = handler; answer = answer; register = register; spare = replicate 6 0 } }
{
    Installed {
        handler,
        answer,
        register,
        spare: [0; 6],
    }
}

// A boot that does not begin.
fn bar(h: Handler, b: Bar) -> Installed
    ensures { result ≡ barred h b }
{
    outcome(h, -(b as i64), 0)
}

// The boot of any state. 7 comes before 13, which is N under 58.
pub fn boot(mut h: Handler, l: Lifecycle) -> Installed
    ensures { result ≡ boot l h }
{
    if !is_valid(h) {
        return bar(h, Bar::BadState);
    }
    if h.n < ALERTS {
        return bar(h, Bar::FewAlerts);
    }
    match install(&mut h, l) {
        Ok(()) => outcome(h, 0, 0),
        Err(stop) => outcome(h, stop.answer, stop.register),
    }
}
