// The links after a tick, once the lines of step 5 are known: the turn, the lines' pings and the senders.
ghost use Rattle.std.specs.Prelude.{ℕ, ◌<◌, ◌≡◌, ◌&&◌, eqb};
ghost use Rattle.bits.specs.Bits.{bit};
ghost use Rattle.samples.specs.Linked.{lines_by, linked_by};

use crate::pace::{Met, is_line_set, line_of};
use link_rules::Meets;
use rules::Links;
use senders::send::send;
use timer::line::is_closed;
use timer::turn::{does_end, does_open, is_line, is_open, turn};

// The lines whose ping is open after the tick.
fn lines_after(lines: u32, line: bool, e: u8, pend: bool) -> u32
    requires { e < 4 }
    ensures { result ≡ lines_by line e pend lines }
{
    let mark = 1 << e;
    if line {
        if pend { lines | mark } else { lines & !mark }
    } else {
        lines
    }
}

// The mask of line e, if its ping opens.
fn ping_mask(opens: bool, e: u8) -> u32
    requires { e < 4 }
    ensures { (l : ℕ) → bit result l ≡ (opens && eqb l e) }
{
    u32::from(opens) << e
}

// The links k before the tick, what step 2 leaves for them, and the lines that are on in step 5.
pub fn link(k: Links, v: Met, lit: u32) -> Links
    ensures { result ≡ linked_by k v lit }
{
    let t = k.turn;
    let m = v.meets;
    let e = line_of(t);
    let line = is_line(t);
    let closed = is_closed(
        v.checked,
        m,
        t,
        is_line_set(lit, e),
        is_line_set(k.senders.last, e),
    );
    let met = Meets { closed, ..m };
    let left = is_open(met, t) & !does_end(met, t);
    let pings = ping_mask(does_open(m, t) & line, e);
    Links {
        receivers: v.receivers,
        turn: turn(met, t),
        lines: lines_after(k.lines, line, e, left),
        senders: send(k.senders, lit, pings),
        right: u32::from(v.right),
    }
}
