// Step 2, the ping timer among the receivers and the lines: it asks before the wires are read, and closes what fails.
ghost use Rattle.std.specs.Prelude.{◌<◌, ◌≡◌, cond, ◌&&◌, not, eqb, ltb};
ghost use Rattle.bits.specs.Bits.{bit};
ghost use Rattle.bits.specs.Index.{place_in, words_by};
ghost use Rattle.link_rules.specs.Pings.{pending};
ghost use Rattle.link_rules.specs.Timer.{is_line, line_of};
ghost use Rattle.rules.specs.State.{words, receiver_in};
ghost use Rattle.samples.specs.Paced.{ask_word, closed_word, closed_by, met_by, line_answer, BegunBy, PacedBy};

use crate::back::{is_checked, said_answered, wrong_lines};
use crate::receive::{Received, receive_all};
use link_rules::{Meets, Turn};
use masks::places::{live, only};
use rules::{Links, Receive, Receivers, Sample, Timer, WORDS};
use std::array::from_fn;
use timer::line::{is_answered_by_wires, stays_right};
use timer::turn::{does_fail, does_open, is_line, is_open};

// What step 2 leaves for the links: the receivers after it, what the timer met, whether the receive pairs are checked, and whether the answers to
// the open ping were right up to now.
#[derive(Clone, Copy)]
pub struct Met {
    pub receivers: Receivers,
    pub meets: Meets,
    pub checked: bool,
    pub right: bool,
}

// What the receivers, the lines and the timer tell: what is left for the links, who had an event, whose open ping was answered, whose wires are
// equal, whether a line's receive pair is wrong, and whether an alert's or a line's ping fails.
#[derive(Clone, Copy)]
pub struct Paced {
    pub met: Met,
    pub events: [u64; WORDS],
    pub answers: [u64; WORDS],
    pub equal: [u64; WORDS],
    pub wrong: bool,
    pub fails_alert: bool,
    pub fails_line: bool,
}

// Place i of the words.
fn is_at(w: [u64; WORDS], i: u8) -> bool
    ensures { result ≡ place_in w i }
{
    (w[(i / 64) as usize] >> (63 - i % 64)) % 2 == 1
}

// Line e of a mask, line 0 at the lowest bit.
pub fn is_line_set(mask: u32, e: u8) -> bool
    requires { e < 4 }
    ensures { result ≡ bit mask e }
{
    (mask >> e) % 2 == 1
}

// The line of a line's turn.
pub fn line_of(t: Turn) -> u8
    ensures { (result ≡ line_of t) × (result < 4) }
{
    t.number / 2 % 4
}

// The turn's ping is open before the tick.
fn turn_pending(n: usize, k: Links) -> bool
    ensures { result ≡ pending n k.turn (λ i. (receiver_in k.receivers i).pending) (bit k.lines) }
{
    let t = k.turn;
    if is_line(t) {
        is_line_set(k.lines, line_of(t))
    } else {
        ((t.alert as usize) < n) & is_at(k.receivers.pending, t.alert)
    }
}

// Word v of the one alert whose ping is asked for.
fn ask_word(opens: bool, line: bool, i: u8, v: usize) -> u64
    requires { v < words }
    ensures { result ≡ ask_word opens line i v }
{
    if opens & !line { only(i, v * 64) } else { 0 }
}

// The alerts whose ping is asked for: the turn's, if its ping opens.
#[tactic(auto, unfolding(bits::specs::Index::each_from))]
fn asks_for(opens: bool, line: bool, i: u8) -> [u64; WORDS]
    ensures { result ≡ words_by words (λ j. opens && (not line && eqb j i)) }
{
    from_fn(|v| ask_word(opens, line, i, v))
}

// Word v of the open pings without the one that fails.
fn close_word(n: usize, pends: [u64; WORDS], fails: bool, i: u8, v: usize) -> u64
    requires { v < words }
    ensures { result ≡ closed_word n pends fails i v }
{
    pends[v] & !(live(n, v * 64) & ask_word(fails, false, i, v))
}

// The receivers of n alerts without the open ping of alert i, if it fails.
#[tactic(auto, unfolding(bits::specs::Index::each_from))]
fn closed(n: usize, r: Receivers, fails: bool, i: u8) -> Receivers
    ensures { result ≡ closed_by n r fails i }
{
    Receivers {
        pending: from_fn(|v| close_word(n, r.pending, fails, i, v)),
        ..r
    }
}

// What the timer meets, before step 5.
fn meet(c: Timer, begins: bool, pingable: bool, pend: bool, word: u32, answered: bool) -> Meets
    ensures { result ≡ met_by c begins pingable pend word answered }
{
    Meets {
        runs: (c.enable == 1) & !begins,
        begins,
        timeout: c.timeout,
        word,
        pingable,
        pending: pend,
        answered,
        closed: false,
    }
}

// What the timer meets before the wires are read, and the alert whose ping it asks for.
#[derive(Clone, Copy)]
pub struct Begun {
    pub meets: Meets,
    pub asks: [u64; WORDS],
}

// Before the wires: the links k of n alerts, the timer's registers c and the entropy word.
fn begin(n: usize, k: Links, c: Timer, begins: bool, pingable: bool, word: u32) -> Begun
    ensures { BegunBy n k c begins pingable word result }
{
    let t = k.turn;
    let pends = turn_pending(n, k);
    let meets = meet(c, begins, pingable, pends, word, false);
    Begun {
        meets,
        asks: asks_for(does_open(meets, t), is_line(t), t.alert),
    }
}

// The ping of the turn's line is answered: by its receive pair, or as an older record says. wrong has the lines whose pair is wrong.
fn is_line_answered(m: Meets, t: Turn, right: bool, wrong: u32, back: Receive) -> bool
    ensures { result ≡ line_answer m t right (bit wrong (line_of t)) back }
{
    let e = line_of(t);
    if is_checked(back) {
        is_answered_by_wires(m, t, right, is_line_set(wrong, e))
    } else {
        is_open(m, t) & is_line_set(said_answered(back), e)
    }
}

// The turn's ping is answered: an alert's by a rise that is taken, a line's as its line tells.
fn is_answered(t: Turn, line: bool, answers: [u64; WORDS]) -> bool
    ensures { result ≡ cond (is_line t) line (place_in answers t.alert) }
{
    if is_line(t) {
        line
    } else {
        is_at(answers, t.alert)
    }
}

// The links k of n alerts, the timer's registers c and the sample s.
pub fn pace(n: usize, k: Links, c: Timer, begins: bool, pingable: bool, s: Sample) -> Paced
    ensures { PacedBy n k c begins pingable s result }
{
    let t = k.turn;
    let right = k.right % 2 == 1;
    let begun = begin(n, k, c, begins, pingable, s.word);
    let Received {
        receivers,
        events,
        answers,
        equal,
    } = receive_all(n, k.receivers, begun.asks, s.alerts);
    let wrong = wrong_lines(k.senders, s.receive);
    let told_line = is_line_answered(begun.meets, t, right, wrong, s.receive);
    let answered = is_answered(t, told_line, answers);
    let meets = Meets {
        answered,
        ..begun.meets
    };
    let fails = does_fail(meets, t);
    let line = is_line(t);
    let checked = is_checked(s.receive);
    let off = is_line_set(wrong, line_of(t));
    Paced {
        met: Met {
            receivers: closed(n, receivers, fails & !line, t.alert),
            meets,
            checked,
            right: stays_right(checked, begun.meets, t, right, off),
        },
        events,
        answers,
        equal,
        wrong: wrong != 0,
        fails_alert: fails & !line,
        fails_line: fails & line,
    }
}
