// What the receivers at the lines' ends send back in a tick, and what they see in it.
ghost use Rattle.std.specs.Prelude.{◌≡◌};
ghost use Rattle.bits.specs.Bits.{bit};
ghost use Rattle.link_rules.specs.EscalationReceiver.{listened};
ghost use Rattle.link_rules.specs.LineReceivers.{escalation_receiver_in, line_receivers_by, listened_all};

use link_rules::{LineReceivers, Listened};

// A tick of the receivers, in which the lines' pairs are (p, m).
pub fn listen(r: LineReceivers, p: u32, m: u32) -> Listened
    ensures { result ≡ listened_all r (bit p) (bit m) }
{
    let seen = !(p ^ m) | (!r.broken & p & r.last);
    Listened {
        receivers: follow(r, p, m),
        positive: r.answer % 16,
        negative: !(r.broken ^ r.answer) % 16,
        seen: seen % 16,
    }
}

// The receivers after it: on equal wires they toggle, on sound ones after equal ones they start anew.
fn follow(r: LineReceivers, p: u32, m: u32) -> LineReceivers
    ensures { result ≡ line_receivers_by (λ e. listened (escalation_receiver_in r e) (bit p e) (bit m e)) }
{
    let sound = p ^ m;
    let last = !r.broken & r.last;
    let deep = !r.broken & r.deep;
    let answer = (p | (last ^ deep)) & !(!r.broken & r.answer);
    let toggled = r.broken & !r.answer;
    LineReceivers {
        last: (sound & p) % 16,
        deep: (sound & last & (p | !deep)) % 16,
        answer: ((sound & answer) | (!sound & toggled)) % 16,
        broken: !sound % 16,
    }
}
