// Request (xiv): the registers that a dump shows, by their numbers.
#![tactic(auto)]

pub mod counts;

// Their kinds: causes, locks, and shadowed registers, which may have a stage. Kept an enum and no closure: the contracts name a kind in one word.
#[derive(Clone, Copy, PartialEq, Eq)]
pub enum Kind {
    Cause,
    Lock,
    Shadowed,
}
