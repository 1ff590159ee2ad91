// Request (xii), skip the calm: types. Its definitions are in specs/, what is true of them in crate calm_laws.
#![tactic(auto)]

use rules::{Handler, Output};

// Why a calm call does not begin, each with the number of its refusal. No access gives these, so that they stand apart from an access's refusals.
#[derive(Clone, Copy)]
pub enum Bar {
    BadState = 7,
    TimerOn = 15,
    ShortList = 18,
}

// What a calm call gives: the state after its ticks, the answer as one signed number, and the outputs of the last tick.
#[repr(C)]
#[derive(Clone, Copy)]
pub struct Calmed {
    pub handler: Handler,
    pub answer: i64,
    pub output: Output,
}
