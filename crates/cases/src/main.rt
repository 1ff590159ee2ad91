// The cases of document 01 that are run, its slips that look right, the waves of the public papers, the handshake, the ping timer, the escalation
// wires and a class with no lines, through the code's own tick, the trace writer and shadow writes. What each prints is held to the file `stdout`.
#![tactic(auto)]

// Prints. What the output doesn't take is dropped: the cases that follow are printed all the same.
macro_rules! say {
    ($rt:expr; $($what:tt)+) => {
        let _ = print!($rt; $($what)+);
    };
}

mod play; // play.rt: one tick, played and shown
mod refusals; // refusals.rt: answers of single accesses
mod slips; // slips.rt: "Slips that look right"
mod waves; // waves.rt: waves of the public papers, of a class
mod pairs; // pairs.rt: those of an alert's pair
mod pings; // pings.rt: the ping timer
mod handshake; // handshake.rt: an alert's receiver, its acknowledge and ping pairs
mod wires; // wires.rt: the escalation wires of a line
mod lines; // lines.rt: a class with no lines
mod writing; // writing.rt: the trace writer
mod shadow; // shadow.rt: shadow writes

fn main(rt: HostRuntime) {
    refusals::making(&rt);
    refusals::accesses(&rt);
    slips::two_alerts(&rt);
    slips::zero_phase(&rt);
    slips::threshold(&rt);
    slips::clear_under_lock(&rt);
    slips::refused_sample(&rt);
    slips::refusal_as_value(&rt);
    waves::gathering(&rt);
    waves::timeout(&rt);
    handshake::alert_signaling(&rt);
    handshake::ping_testing(&rt);
    pairs::integrity(&rt);
    pairs::skewed(&rt);
    handshake::earliest_rise(&rt);
    handshake::waiting_rise(&rt);
    handshake::held_pause(&rt);
    handshake::answered_ping(&rt);
    handshake::alert_answers(&rt);
    pings::answered(&rt);
    pings::failing(&rt);
    pings::line_answered(&rt);
    pings::line_failing(&rt);
    pings::waiting(&rt);
    pings::not_locked(&rt);
    wires::signaling(&rt);
    wires::integrity(&rt);
    wires::ping_testing(&rt);
    wires::lone_tick(&rt);
    wires::late_answer(&rt);
    wires::escalation_wins(&rt);
    wires::unsent(&rt);
    wires::unasked(&rt);
    lines::no_event(&rt);
    lines::timeout(&rt);
    lines::phase(&rt);
    writing::two_records(&rt);
    shadow::two_writes(&rt);
    shadow::differing(&rt);
}
