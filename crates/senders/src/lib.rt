// The escalation senders, request (xi), and the receivers at the lines' ends, the four lines at once: bit e is line e's.
#![tactic(auto)]

pub mod listen; // listen.rt: what the receivers send back, and what they see
pub mod send; // send.rt: what the senders send, and whose answer is wrong
