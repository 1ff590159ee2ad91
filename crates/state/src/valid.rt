// "Numbers that come back": the test of refusal 7, that a state keeps its rule.
ghost use Rattle.std.specs.Prelude.{◌≡◌, ◌&&◌, ℕ, ◌≤◌, length, get_or};
ghost use Rattle.bits.specs.Bits.{fits};
ghost use Rattle.bits.specs.Index.{all_to};
ghost use Rattle.class_rules.specs.Class.{state_of, count_fits, class_fits, no_class};
ghost use Rattle.rules.specs.State.{class_count};
ghost use Rattle.rules.specs.Valid.{column_fits, valid};

use crate::pings::{pings_fit, timer_fits};
use crate::stages::fit;
use class_rules::Class;
use rules::{Handler, MOST};

// A loop of its own beside `largest`: one is of bits, one of codes, and each is as long as a call with a closure.
// The first n entries together, bit by bit: they fit a field of any width exactly if this does.
fn union(xs: &[u8], n: usize) -> u8
    requires { n ≤ length xs.now }
    ensures { (b : ℕ) → fits b result ≡ column_fits b xs.now n }
{
    let mut r: u8 = 0;
    for i in 0..n {
        r = r | xs[i];
    }
    r
}

// Four columns of n entries, those of the local alerts or of the alerts; entries at n and above are not looked at.
fn columns_fit(regwen: &[u8], en: &[u8], class: &[u8], cause: &[u8], n: usize) -> bool
    requires { (n ≤ length regwen.now) × (n ≤ length en.now) × (n ≤ length class.now) × (n ≤ length cause.now) }
    ensures { result ≡ (column_fits 1 regwen.now n && (column_fits 1 en.now n && (column_fits 2 class.now n && column_fits 1 cause.now n))) }
{
    (union(regwen, n) < 2) & ((union(en, n) < 2) & ((union(class, n) < 4) & (union(cause, n) < 2)))
}

// A count is 0 in Idle or Terminal and is not 0 in Timeout or a phase.
#[tactic(auto, unfolding(class_rules::specs::Class::state_of))]
fn count_fits(s: u32, n: u32) -> bool
    ensures { result ≡ count_fits (state_of s) n }
{
    match s {
        1 | 4 | 5 | 6 | 7 => n != 0,
        _ => n == 0,
    }
}

// The registers of a block; those of 16 and 32 bits can hold no more.
fn class_fits(c: Class) -> bool
    ensures { result ≡ class_fits c }
{
    (c.regwen < 2)
        & ((c.ctrl < 16384)
            & ((c.clrwen < 2) & (((c.state < 8) & (c.state != 2)) & count_fits(c.state, c.count))))
}

fn classes_fit(c: [Class; 4]) -> bool
    ensures { result ≡ all_to (λ k. class_fits (get_or c k no_class)) class_count }
{
    c.iter().all(|class| class_fits(*class))
}

// Whether the state keeps the rule: what gets no refusal 7.
pub fn is_valid(h: Handler) -> bool
    ensures { result ≡ valid h }
{
    if MOST < h.n {
        return false;
    }
    let l = columns_fit(
        &h.locals.regwen,
        &h.locals.en,
        &h.locals.class,
        &h.locals.cause,
        7,
    );
    let a = columns_fit(
        &h.alerts.regwen,
        &h.alerts.en,
        &h.alerts.class,
        &h.alerts.cause,
        h.n,
    );
    let c = classes_fit(h.classes);
    let s = fit(h.stages, h.n);
    let t = timer_fits(h.timer);
    let p = pings_fit(h.n, h.links, h.timer.enable == 1);
    (h.interrupts.state < 16) & ((h.interrupts.enable < 16) & (l & (a & (c & (t & (p & s))))))
}
