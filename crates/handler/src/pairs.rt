// Step 5: request (viii)'s acknowledge and ping pairs, a bit for each alert in its words, and request (xi)'s escalation pairs, a bit for each line. A batch
// does not build them.
ghost use Rattle.std.specs.Prelude.{◌<◌, ◌≡◌};
ghost use Rattle.rules.specs.State.{words};
ghost use Rattle.link_rules.specs.Codes.{last_bit};
ghost use Rattle.link_rules.specs.Senders.{sender_in};
ghost use Rattle.rules.specs.Tick.{pairs, line_pairs};
ghost use Rattle.handler.specs.PairWords.{spread, is_acknowledged, is_high, word_by};

use link_rules::Senders;
use masks::places::live;
use rules::{LinePairs, Receivers, WORDS, Wires};
use std::array::from_fn;

// The pair (1,0) where a bit is set, else (0,1).
fn spread(on: [u64; WORDS]) -> Wires
    ensures { result ≡ spread on }
{
    Wires {
        pos: on,
        neg: on.map(|word| !word),
    }
}

// Word v of who of n alerts is acknowledged: busy, and not pausing.
fn acknowledged(n: usize, r: Receivers, v: usize) -> u64
    requires { v < words }
    ensures { result ≡ word_by (is_acknowledged n r) v }
{
    r.busy[v] & (r.busy[v] ^ r.pausing[v]) & live(n, v * 64)
}

// The acknowledge pairs of n alerts, whose receivers stand so before the tick's wires.
pub fn acknowledge_pairs(n: usize, r: Receivers) -> Wires
    ensures { result ≡ pairs (is_acknowledged n r) }
{
    spread(from_fn(|v| acknowledged(n, r, v)))
}

// Word v of whose ping pair of n alerts is (1,0).
fn high(n: usize, r: Receivers, v: usize) -> u64
    requires { v < words }
    ensures { result ≡ word_by (is_high n r) v }
{
    r.level[v] & live(n, v * 64)
}

// The ping pairs of n alerts, whose receivers stand so after the tick.
pub fn ping_pairs(n: usize, r: Receivers) -> Wires
    ensures { result ≡ pairs (is_high n r) }
{
    spread(from_fn(|v| high(n, r, v)))
}

// The escalation pairs: what the senders sent in the tick that left them so.
pub fn escalation_pairs(s: Senders) -> LinePairs
    ensures { result ≡ line_pairs (λ e. last_bit (sender_in s e).sound.stands) }
{
    LinePairs {
        pos: s.last % 16,
        neg: !s.last % 16,
    }
}
