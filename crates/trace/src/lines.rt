// What a record has of the lines, line 0 first, and a sample with line 0 lowest: answer bits of request (ix), receive pairs of request (xi).
ghost use Rattle.std.specs.Prelude.{◌≡◌, ◌+◌, ◌-◌, ◌*◌, ◌<◌, ◌≤◌};
ghost use Rattle.bits.specs.Bits.{bit, bits_of, num};
ghost use Rattle.rules.specs.declared.Receive.{Receive};
ghost use Rattle.trace_rules.specs.Record as rules;

use crate::word::{digit, four};
use rules::Receive;
use trace_rules::Edition;

// Every other bit from the highest one on: those of the positive wires from bit 7, those of the negative wires from bit 6.
#[tactic(auto, unfolding(bits::specs::Bits::bits_of))]
fn every_other(last: u8, highest: u32) -> u32
    requires { (6 ≤ highest) × (highest ≤ 7) }
    ensures { result ≡ bits_of 4 (λ l. bit last (highest - 2 * l)) }
{
    (digit(last, highest)
        + digit(last, highest - 2) * 2
        + digit(last, highest - 4) * 4
        + digit(last, highest - 6) * 8) as u32
}

// What comes back from the lines, by the last field of a record: older editions leave the senders unchecked.
pub fn receive_of(edition: Edition, last: u8) -> Receive
    ensures { result ≡ rules.receive_of edition last }
{
    match edition {
        Edition::Alerts64 | Edition::Alerts248 => Receive::Answers(0),
        Edition::Pings => Receive::Answers(four(last) as u32),
        Edition::Wires => Receive::Pairs(every_other(last, 7), every_other(last, 6)),
    }
}

// The receive pairs of a line and of the next one: the line and its positive wire first.
fn two_pairs(positive: u8, negative: u8, line: u32) -> u64
    requires { line < 7 }
    ensures { (result ≡ num (bit positive line) * 8 + num (bit negative line) * 4 + num (bit positive (line + 1)) * 2 + num (bit negative (line + 1))) × (result < 16) }
{
    digit(positive, line) * 8
        + digit(negative, line) * 4
        + digit(positive, line + 1) * 2
        + digit(negative, line + 1)
}

// The byte of four receive pairs, by their positive and negative wires: line 0 and positive wire first.
#[tactic(auto, unfolding(trace_rules::specs::Record::pair_bits, bits::specs::Bits::word_of))]
pub fn pair_bits(positive: u8, negative: u8) -> u8
    ensures { result ≡ rules.pair_bits (Receive.Pairs positive negative) }
{
    (two_pairs(positive, negative, 0) * 16 + two_pairs(positive, negative, 2)) as u8
}
