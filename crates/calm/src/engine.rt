// Calm ticks of the four classes and the senders in one go: from move to move by arithmetic, each move by a plain tick.
ghost use Rattle.std.specs.Prelude.{◌≡◌, ◌+◌, ◌<◌, ◌≤◌, ◌^◌, length};
ghost use Rattle.calm_laws.specs.Four.{met, changes_in, FourFit, Running};

use crate::changes::Changes;
use crate::four::Met;
use crate::round::{Moved, go_round};

// The n ticks that follow tick `from`, with the changes before them: room is needed, and used, for those that the classes have left, and for no more. Kept: a `while`, since a round is not one tick.
pub fn advance<const MOST: usize>(
    start: Moved,
    signals: Met,
    from: u64,
    n: u64,
    changes: &mut Changes<MOST>,
) -> Moved
    requires { FourFit start.classes × (from + n < 2 ^ 32) × (length changes.old + changes_in start.classes ≤ MOST) }
    ensures { Running (met signals.events signals.interrupts) start.classes start.senders from (length changes.old + changes_in start.classes) changes.old n result.classes result.senders changes.new }
{
    let mut now = start;
    let mut done: u64 = 0;
    while done < n {
        let time = (n - done - 1).min(signals.stands(&now.classes));
        let round = go_round(&now, signals, time);
        done += time + 1;
        changes.note(round.before, round.lines, from + done);
        now = round.moved;
    }
    now
}
