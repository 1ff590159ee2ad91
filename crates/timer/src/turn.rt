// One tick of the ping timer's turn. What is met and the turn stay two parameters: they are types of the rules, each with definitions of the two.
ghost use Rattle.std.specs.Prelude.{◌≡◌, cond, ◌+◌, ◌-◌, ◌%◌, ltb};
ghost use Rattle.link_rules.specs.Timer.{is_line, is_due, opens, open_now, fails, ends, drawn, next_turn, goes_on, turned};

use link_rules::{Meets, Turn};

// It is a line's turn.
pub fn is_line(t: Turn) -> bool
    ensures { result ≡ is_line t }
{
    t.number % 2 == 1
}

// The turn's ping is due.
pub fn is_due(m: Meets, t: Turn) -> bool
    ensures { result ≡ is_due m t }
{
    m.runs & (!m.pending & (t.count == 0))
}

// It opens in this tick.
pub fn does_open(m: Meets, t: Turn) -> bool
    ensures { result ≡ opens m t }
{
    is_due(m, t) & (is_line(t) | m.pingable)
}

// It is open in this tick, up to its answer.
#[tactic(auto, unfolding(link_rules::specs::Timer::open_now))]
pub fn is_open(m: Meets, t: Turn) -> bool
    ensures { result ≡ open_now m t }
{
    m.runs & (m.pending | does_open(m, t))
}

// The ticks since it opened, staying at 65,535.
pub fn age_of(pending: bool, count: u16) -> u16
    ensures { result ≡ cond pending (cond (ltb count 65535) (count + 1) 65535) 0 }
{
    if pending { count.saturating_add(1) } else { 0 }
}

// It fails in this tick.
#[tactic(auto, unfolding(link_rules::specs::Timer::fails))]
pub fn does_fail(m: Meets, t: Turn) -> bool
    ensures { result ≡ fails m t }
{
    let age = age_of(m.pending, t.count) as u32;
    is_open(m, t) & (!m.answered & ((0 < m.timeout) & (m.timeout <= age)))
}

// The turn ends in this tick.
#[tactic(auto, unfolding(link_rules::specs::Timer::ends))]
pub fn does_end(m: Meets, t: Turn) -> bool
    ensures { result ≡ ends m t }
{
    (is_due(m, t) & !does_open(m, t))
        | (is_open(m, t) & (m.answered | (does_fail(m, t) | m.closed)))
}

// The turn that a word sets.
pub fn draw(number: u8, word: u32) -> Turn
    ensures { result ≡ drawn number word }
{
    Turn {
        number,
        alert: (word / 65536 % 256) as u8,
        count: (word % 65536) as u16,
    }
}

// The next turn's number.
pub fn next_number(number: u8) -> u8
    ensures { result ≡ (number + 1) % 8 }
{
    (number % 8 + 1) % 8
}

// The count of a turn that goes on.
pub fn next_count(opened: bool, pending: bool, count: u16) -> u16
    ensures { result ≡ cond opened (cond pending (cond (ltb count 65535) (count + 1) 65535) 0) (count - 1) }
{
    if opened {
        age_of(pending, count)
    } else {
        count.saturating_sub(1)
    }
}

// A turn that goes on.
pub fn go_on(m: Meets, t: Turn) -> Turn
    ensures { result ≡ goes_on m t }
{
    Turn {
        count: next_count(is_open(m, t), m.pending, t.count),
        ..t
    }
}

// The turn after a tick of a timer that is on.
pub fn run_on(m: Meets, t: Turn) -> Turn
    ensures { result ≡ cond (ends m t) (next_turn t m.word) (goes_on m t) }
{
    if does_end(m, t) {
        draw(next_number(t.number), m.word)
    } else {
        go_on(m, t)
    }
}

// The turn after the tick.
#[tactic(auto, unfolding(link_rules::specs::Timer::turned))]
pub fn turn(m: Meets, t: Turn) -> Turn
    ensures { result ≡ turned m t }
{
    if m.begins {
        draw(0, m.word)
    } else if m.runs {
        run_on(m, t)
    } else {
        t
    }
}
