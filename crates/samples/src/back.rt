// Step 2, what comes back from the lines: receive pairs that are checked, or what an older record says.
ghost use Rattle.std.specs.Prelude.{ℕ, ◌≡◌, ◌&&◌};
ghost use Rattle.bits.specs.Bits.{bit, bits_of};
ghost use Rattle.link_rules.specs.Sender.{wrong};
ghost use Rattle.link_rules.specs.Senders.{line_count, sender_in};
ghost use Rattle.rules.specs.Samples.{checks, receive_positive, receive_negative, says_answered};

use link_rules::Senders;
use rules::Receive;
use senders::send::find_wrong;

// The pairs are checked.
pub fn is_checked(back: Receive) -> bool
    ensures { result ≡ checks back }
{
    matches!(back, Receive::Pairs(..))
}

// The lines whose receive pair is checked and wrong.
pub fn wrong_lines(s: Senders, back: Receive) -> u32
    ensures { result ≡ bits_of line_count (λ e. checks back && wrong (sender_in s e) (receive_positive back e) (receive_negative back e)) }
{
    match back {
        Receive::Pairs(p, m) => find_wrong(s, p, m),
        Receive::Answers(_) => 0,
    }
}

// The lines whose ping an older record says to be answered.
pub fn said_answered(back: Receive) -> u32
    ensures { (e : ℕ) → bit result e ≡ says_answered back e }
{
    match back {
        Receive::Pairs(_, _) => 0,
        Receive::Answers(a) => a,
    }
}
