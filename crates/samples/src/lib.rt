// Step 2 of a tick: the samples. First what is heard, then what it does.
#![tactic(auto)]

mod receive; // receive.rt: the receivers, 64 alerts at a time
mod back; // back.rt: what comes back from the lines
pub mod pace; // pace.rt: the ping timer among the receivers and the lines
pub mod hear; // hear.rt: what is heard: receivers, events, local alerts raised
pub mod links; // links.rt: a step 2 of which nothing comes but for the links
pub mod rest; // rest.rt: a step 2 that leaves the links as they are
pub mod link; // link.rt: the links after the tick, by the lines of step 5
pub mod locals; // locals.rt: the local alerts

ghost use Rattle.std.specs.Prelude.{◌≤◌};
ghost use Rattle.rules.specs.State.{most};
ghost use Rattle.samples.specs.Sampled.{SampledBy};

use crate::locals::occur;
use events::gather::{Gathered, gather};
use rules::{Handler, Heard};

// The state after step 2, and the classes that something is assigned to, class 0 at the lowest bit.
#[derive(Clone, Copy)]
pub struct Sampled {
    pub handler: Handler,
    pub assigned: u8,
}

// Step 2 on the state g after step 1, once v is heard: causes and classes. The links are the tick's to write, last.
pub fn sample(g: Handler, v: Heard) -> Sampled
    requires { g.n ≤ most }
    ensures { SampledBy g v result }
{
    let Gathered { cause, hits } = gather(
        g.n,
        &v.events,
        &g.alerts.en,
        &g.alerts.class,
        g.alerts.cause,
    );
    let occurred = occur(v.raises, &g.locals.en, &g.locals.class, g.locals.cause);
    // Written in place: a state made anew by struct update is copied column by column.
    let mut handler = g;
    handler.alerts.cause = cause;
    let cause = occurred.cause;
    handler.locals.cause = cause;
    Sampled {
        handler,
        assigned: hits | occurred.hits,
    }
}
