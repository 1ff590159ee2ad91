// What step 2 leaves for the links, where nothing else comes of it: no alert has an event or equal wires, no ping fails, no receive pair is wrong,
// and step 1 raises nothing and leaves the timer as it is.
ghost use Rattle.std.specs.Prelude.{◌≡◌, IfOk, IfErr};
ghost use Rattle.samples.specs.Quiet.{none_set, QuietBy};
ghost use Rattle.samples.specs.Rest.{left_by};

use crate::pace::{Met, pace};
use rules::{Links, Sample, Timer, WORDS};

// No place is set.
pub fn none_set(w: [u64; WORDS]) -> bool
    ensures { result ≡ none_set w }
{
    w.iter().fold(true, |none, word| none & (*word == 0))
}

// What is left for the links, as Ok if nothing else comes of it: the n alerts, their links and the timer's registers meet the sample s; pingable says so
// of the alert drawn. It reads no column of the alerts, so that a tick without events need not copy one.
pub fn hear_quiet(
    n: usize,
    links: Links,
    timer: Timer,
    pingable: bool,
    s: Sample,
) -> Result<Met, Met>
    ensures quiet { IfOk result (QuietBy n links timer pingable s) }
    ensures other { IfErr result (λ met. met ≡ left_by n links timer pingable s) }
{
    let paced = pace(n, links, timer, false, pingable, s);
    let fails = paced.fails_alert | (paced.fails_line | paced.wrong);
    if none_set(paced.events) & (none_set(paced.equal) & !fails) {
        Ok(paced.met)
    } else {
        Err(paced.met)
    }
}
