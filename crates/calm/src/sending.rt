// The senders over calm ticks: no ping opens, and they go by the lines.
ghost use Rattle.std.specs.Prelude.{◌≡◌, not, ◌≤◌};
ghost use Rattle.bits.specs.Bits.{bits_of};
ghost use Rattle.calm_laws.specs.Steady.{steady, senders_for, short};
ghost use Rattle.link_rules.specs.Senders.{line_count, sender_in, sent_all};
ghost use Rattle.rules.specs.declared.Receive.TheVariants.{Pairs};

use link_rules::Senders;
use rules::Receive;
use senders::send::send;

// After a tick with these lines on.
pub fn send_lines(s: Senders, lines: u32) -> Senders
    ensures { result ≡ sent_all s (steady lines) }
{
    send(s, lines, 0)
}

// As many ticks as do for m of them: after four a sender is as it was every second tick.
#[tactic(auto, unfolding(calm_laws::specs::Steady::short))]
fn short_of(m: u64) -> u64
    ensures { (result ≡ short m) × (result ≤ 5) }
{
    if m < 4 { m } else { 4 + (m - 4) % 2 }
}

// After m ticks in which these lines are on.
pub fn send_for(s: Senders, lines: u32, m: u64) -> Senders
    ensures { result ≡ senders_for lines m s }
{
    let mut now = s;
    for _ in 0..short_of(m) {
        now = send_lines(now, lines);
    }
    now
}

// What sound receivers send back in the coming tick: the right answer of each line.
pub fn sound_receive(s: Senders) -> Receive
    ensures { result ≡ Pairs (bits_of line_count (λ e. (sender_in s e).sound.answer)) (bits_of line_count (λ e. not (sender_in s e).sound.answer)) }
{
    Receive::Pairs(s.answer % 16, !s.answer % 16)
}
