// A tick in which, after step 1 and without effects of it, no alert has an event or equal wires, no ping fails and no receive pair is wrong. The links, the classes and INTR_STATE
// alone can move then, so that the state need not be handed from step to step.
ghost use Rattle.std.specs.Prelude.{◌≡◌, ◌≤◌, IfSome};
ghost use Rattle.rules.specs.State.{most};
ghost use Rattle.handler.specs.Finished.{finished};
ghost use Rattle.handler.specs.QuietTick.{moved_by, ended};

use crate::classes::{classes_after, interrupts_after};
use crate::effects::are_none;
use crate::output::{interrupts_on, lines_on};
use class_rules::Class;
use rules::{Effects, Handler, Interrupts, Sample};
use samples::hear::is_pingable;
use samples::links::hear_quiet;
use samples::pace::Met;

// What it moves beside the links, the classes and INTR_STATE, and the interrupts and lines that it puts out.
#[derive(Clone, Copy)]
pub struct Moved {
    pub classes: [Class; 4],
    pub state: u16,
    pub interrupts: u8,
    pub lines: u8,
}

// N has no type that bounds it: a state is a C struct that any bytes may fill.
// What step 2 leaves for the links, if the tick is known to be such a one, of a valid state after step 1.
pub fn quiet_of(h: Handler, e: Effects, s: Sample) -> Option<Met>
    requires { h.n ≤ most }
    ensures { IfSome result (λ met. ended h met (moved_by h.classes h.interrupts) ≡ finished h e s) }
{
    if !are_none(e) {
        return None;
    }
    let pingable = is_pingable(h.n, h.links.turn.alert, &h.alerts.regwen, &h.alerts.en);
    hear_quiet(h.n, h.links, h.timer, pingable, s).ok()
}

// Steps 3 to 5, with nothing assigned to a class and no clear.
pub fn moved_by(before: [Class; 4], registers: Interrupts) -> Moved
    ensures { result ≡ moved_by before registers }
{
    let state = interrupts_after(before, registers.state, 0);
    let classes = classes_after(before, registers.state, 0, 0);
    Moved {
        classes,
        state,
        interrupts: interrupts_on(state, registers.enable),
        lines: lines_on(classes),
    }
}
