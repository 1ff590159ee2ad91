// Step 2, what is heard: the receivers, lines and timer meet the sample, and local alerts are raised. Only here wires and links become events;
// nothing after it knows them.
ghost use Rattle.std.specs.Prelude.{◌≤◌, ◌≡◌, ◌&&◌, eqb, ltb, get_or};
ghost use Rattle.rules.specs.Samples.{heard};
ghost use Rattle.rules.specs.State.{most};

use crate::locals::raise;
use crate::pace::{Paced, pace};
use events::broken::any_broken;
use rules::{Effects, Handler, Heard, MOST, Sample};

// Alert i is below n, locked and enabled.
pub fn is_pingable(n: usize, i: u8, regwen: &[u8; MOST], en: &[u8; MOST]) -> bool
    requires { n ≤ most }
    ensures { result ≡ (ltb i n && (eqb (get_or regwen.now i 0) 0 && eqb (get_or en.now i 0) 1)) }
{
    let at = i as usize;
    at < n && (regwen[at] == 0) & (en[at] == 1)
}

// What step 2 hears, of the state g after step 1, with the sample s and the effects fx of step 1.
pub fn hear(g: Handler, s: Sample, fx: Effects) -> Heard
    requires { g.n ≤ most }
    ensures { result ≡ heard g s fx }
{
    let pingable = is_pingable(g.n, g.links.turn.alert, &g.alerts.regwen, &g.alerts.en);
    let Paced {
        met,
        events,
        answers,
        equal,
        wrong,
        fails_alert,
        fails_line,
    } = pace(g.n, g.links, g.timer, fx.begins, pingable, s);
    let broken = any_broken(g.n, &equal, &g.alerts.en);
    Heard {
        receivers: met.receivers,
        events,
        answers,
        raises: raise(broken, wrong, fails_alert, fails_line, fx.raises),
        meets: met.meets,
        checked: met.checked,
        right: met.right,
    }
}
