// Request (viii), the whole handshake: waves of alert 0 with its acknowledge and ping pairs, through the code's own tick, from its receiver at rest. Letters
// and columns are those of pairs.rt; crates/link_rules/proofs/Waves.antt has the same waves of one receiver.
use crate::pairs::{NEXT_CLASS, play_wave, watched, wire};
use crate::pings::{begin, level};
use crate::play::{ACCUM_CNT, ALERT0_REGWEN, RAISE, input, stage, value};
use rules::{Access, Handler, Wires};

// Whether the pairs of all other alerts are (0,1), at N and above too.
fn others_low(w: Wires) -> bool {
    let first = (w.pos[0] | !w.neg[0]) % RAISE;
    let high = w.pos[1] | w.pos[2] | w.pos[3];
    let no_low = !w.neg[1] | !w.neg[2] | !w.neg[3];
    (first | high | no_low) == 0
}

// A space and alert 0's pair, or a question mark where another alert's is not (0,1).
fn show_output_pair(rt: &impl Print, w: Wires) {
    if others_low(w) {
        say!(rt; " {} {}", w.pos[0] / RAISE, w.neg[0] / RAISE);
    } else {
        say!(rt; " ?");
    }
}

// The same with alert 0 locked and the timer on: its ping opens in the second tick from here. The next turn is line 0's, whose ping waits.
fn pinged() -> Handler {
    begin(stage(watched(), ALERT0_REGWEN, 0), 1)
}

// A tick, shown as: the alert's pair, whether its ping opens, ACCUM_CNT of class 0, which counts its events, and of class 1, which counts its equal
// wires, its acknowledge pair and its ping pair.
fn show_receiver(rt: &impl Print, h: Handler, pos: bool, neg: bool) -> Handler {
    let t = handler::tick::tick(h, input(Access::Nothing, wire(pos), wire(neg) | !RAISE));
    let g = t.handler;
    say!(rt; "  {} {} {} ", u8::from(pos), u8::from(neg), level(h) ^ level(g));
    say!(rt; "{} {}", value(g, ACCUM_CNT), value(g, ACCUM_CNT + NEXT_CLASS));
    show_output_pair(rt, t.output.acknowledge);
    show_output_pair(rt, t.output.ping);
    say!(rt; "\n");
    g
}

fn show_wave(rt: &impl Print, h: Handler, positive: &[u8], negative: &[u8]) {
    let mut g = h;
    play_wave(
        positive,
        negative,
        |_, pos, neg| g = show_receiver(rt, g, pos, neg),
    );
}

// A wave of source document 004: "Native alert at time 1 with 4-phase handshake; repeated alert at time 12", the sender's wires.
pub fn alert_signaling(rt: &impl Print) {
    say!(rt; "W1: alert signaling and repeat pattern\n");
    show_wave(rt, watched(), b"01.|..|0.|..1|..", b"10.|..|1.|..0|..");
}

// Another one: "Level change at time 1 triggers a full handshake (ping response) at time 4"; the ping opens where ping_req_i rises.
pub fn ping_testing(rt: &impl Print) {
    say!(rt; "W2: ping testing\n");
    show_wave(rt, pinged(), b"0..|1.|..|0.|..", b"1..|0.|..|1.|..");
}

// "acknowledged in the next tick", and the earliest next rise.
pub fn earliest_rise(rt: &impl Print) {
    say!(rt; "handshake: the earliest next rise\n");
    show_wave(rt, watched(), b"011000110000", b"100111001111");
}

// "two ticks of pause, in which a rise waits".
pub fn waiting_rise(rt: &impl Print) {
    say!(rt; "handshake: a rise held through the pause\n");
    show_wave(rt, watched(), b"1011110000", b"0100001111");
}

// "Equal wires .. hold the receiver where it is, a due acknowledge change apart": in the tick in which the acknowledgement drops.
pub fn held_pause(rt: &impl Print) {
    say!(rt; "handshake: equal wires as the acknowledgement drops\n");
    show_wave(rt, watched(), b"1001111", b"0100000");
}

// "A rise taken while a ping is open answers and closes it and is no event".
pub fn answered_ping(rt: &impl Print) {
    say!(rt; "handshake: a ping answered\n");
    show_wave(rt, pinged(), b"000110000", b"111001111");
}

// The alert itself answers the ping, and the sender's answer is then the event.
pub fn alert_answers(rt: &impl Print) {
    say!(rt; "handshake: a ping and a real alert\n");
    show_wave(rt, pinged(), b"001100010000", b"110011101111");
}
