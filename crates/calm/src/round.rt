// A round of the engine: ticks in which no class moves, by arithmetic, and one plain tick.
ghost use Rattle.std.specs.Prelude.{◌≤◌};
ghost use Rattle.calm_laws.specs.Four.{met, four_stands, FourFit};
ghost use Rattle.calm.specs.RoundBy.{RoundBy};

use crate::four::Met;
use crate::sending::{send_for, send_lines};
use class_rules::Class;
use handler::output::lines_on;
use link_rules::Senders;

// What calm ticks move of a settled state.
#[derive(Clone, Copy)]
pub struct Moved {
    pub classes: [Class; 4],
    pub senders: Senders,
}

// What they are after it, and the lines before and after its plain tick.
#[derive(Clone, Copy)]
pub struct Round {
    pub moved: Moved,
    pub before: u32,
    pub lines: u32,
}

// `time` ticks that leave every class in its state, and one more.
pub fn go_round(m: &Moved, signals: Met, time: u64) -> Round
    requires { FourFit m.now.classes × (time ≤ four_stands (met signals.events signals.interrupts) m.now.classes) }
    ensures { RoundBy (met signals.events signals.interrupts) m.now.classes m.now.senders time result }
{
    let still = signals.jumped(&m.classes, time);
    let classes = signals.stepped(&still);
    let before = u32::from(lines_on(still));
    let lines = u32::from(lines_on(classes));
    let senders = send_lines(send_for(m.senders, before, time), lines);
    Round {
        moved: Moved { classes, senders },
        before,
        lines,
    }
}
