// The ping timer, requests (ix) and (xi): one tick of its turn. It reads no state; the handler hands in what it meets.
#![tactic(auto)]

pub mod line; // line.rt: a line's ping on its wires
pub mod turn; // turn.rt: when a ping is due, opens, fails, and the turn after the tick
