// A tick in which the alerts rest but classes and senders can move, as while an escalation runs: after step 1 and without effects of it no alert stirs, no
// ping is open or opens, and no receive pair is wrong. Beside classes and senders INTR_STATE and the count of the ping timer's turn alone can move then.
ghost use Rattle.std.specs.Prelude.{◌≡◌, ◌≤◌, IfSome};
ghost use Rattle.rules.specs.State.{most};
ghost use Rattle.handler.specs.Finished.{finished};
ghost use Rattle.handler.specs.MovingTick.{moved_to};

use crate::effects::are_none;
use crate::output::interrupts_on;
use crate::quiet::{Moved, moved_by};
use crate::rest::are_still;
use link_rules::Senders;
use rules::{Effects, Handler, Sample};
use samples::rest::{are_new, does_only_send, wait};
use senders::send::send;

// What such a tick moves and puts out.
#[derive(Clone, Copy)]
pub enum Moving {
    // the count alone moves, and no line is on
    Rests(u16, u8),
    // the count and the senders, and what steps 3 to 5 move
    Moves(u16, Senders, Moved),
}

// What moves, if the tick is known to be such a one, of a valid state after step 1. It makes no links, so that none are copied, and looks at the classes
// last. Senders and classes that stay are not worked out, and each case is made where it is given, so that a tick that rests copies no classes.
pub fn moving_of(h: Handler, e: Effects, s: Sample) -> Option<Moving>
    requires { h.n ≤ most }
    ensures { IfSome result (λ m. moved_to h m ≡ finished h e s) }
{
    if !(does_only_send(h.n, h.links, h.timer, s) & are_none(e)) {
        return None;
    }
    let next = wait(h.timer, h.links.turn.count);
    let still = are_still(h.classes, h.interrupts.state);
    let new = are_new(h.links.senders);
    if (still & new) & (h.interrupts.state < 16) {
        let interrupts = interrupts_on(h.interrupts.state, h.interrupts.enable);
        return Some(Moving::Rests(next, interrupts));
    }
    let moved = moved_by(h.classes, h.interrupts);
    let senders = send(h.links.senders, moved.lines as u32, 0);
    Some(Moving::Moves(next, senders, moved))
}
