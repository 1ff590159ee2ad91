// What the senders send in a tick, and whose answer is wrong.
ghost use Rattle.std.specs.Prelude.{◌≡◌};
ghost use Rattle.bits.specs.Bits.{bit, bits_of};
ghost use Rattle.link_rules.specs.Sender.{wrong};
ghost use Rattle.link_rules.specs.Senders.{line_count, sender_in, sent_all};

use link_rules::Senders;

// The senders after a tick with these lines on and these pings opening. The pair of the tick is `last` after it.
pub fn send(s: Senders, lines: u32, pings: u32) -> Senders
    ensures { result ≡ sent_all s (λ e. record { line = bit lines e; ping = bit pings e }) }
{
    let pulses = pings & !lines & !s.last;
    let pairs = lines | s.first | pulses;
    Senders {
        on: lines % 16,
        first: (lines & !s.on) % 16,
        last: pairs % 16,
        deep: (s.last & (pairs | !s.deep)) % 16,
        answer: ((pairs | (s.last ^ s.deep)) & !s.answer) % 16,
    }
}

// The lines whose receive pair (p, m) has equal wires or is not the right answer.
pub fn find_wrong(s: Senders, p: u32, m: u32) -> u32
    ensures { result ≡ bits_of line_count (λ e. wrong (sender_in s e) (bit p e) (bit m e)) }
{
    (!(p ^ m) | (p ^ s.answer)) % 16
}
