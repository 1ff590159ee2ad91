// "Traces": the word of a tick.
ghost use Rattle.std.specs.Prelude.{◌≡◌, [], ◌∷◌, ◌<◌};
ghost use Rattle.bits.specs.Bits.{bit, num};
ghost use Rattle.bits.specs.Fields.{pack};
ghost use Rattle.trace_rules.specs.Word.{refusal_of, read_of, word_by};

use answers::refusal_number;
use rules::Answer;

// Bit k as a number, which the layouts of words and records name place by place.
pub fn digit(x: u8, k: u32) -> u64
    requires { k < 8 }
    ensures { (result ≡ num (bit x k)) × (result < 2) }
{
    ((x >> k) % 2) as u64
}

// Bits 0 to 3, bit 0 first.
#[tactic(auto, unfolding(bits::specs::Fields::pack))]
pub fn four(x: u8) -> u64
    ensures { (result ≡ pack (1 ∷ 1 ∷ 1 ∷ 1 ∷ []) (num (bit x 0) ∷ num (bit x 1) ∷ num (bit x 2) ∷ num (bit x 3) ∷ [])) × (result < 16) }
{
    digit(x, 0) * 8 + digit(x, 1) * 4 + digit(x, 2) * 2 + digit(x, 3)
}

// The refusal number of an answer, 0 where it is none.
fn refusal_of(a: Answer) -> u64
    ensures { (result ≡ refusal_of a) × (result < 16) }
{
    match a {
        Answer::Done | Answer::Value(_) => 0,
        Answer::Refused(m) => refusal_number(m) as u64,
    }
}

// The value that was read, or 0.
fn read_of(a: Answer) -> u32
    ensures { result ≡ read_of a }
{
    match a {
        Answer::Done => 0,
        Answer::Value(v) => v,
        Answer::Refused(_) => 0,
    }
}

// Interrupts (4 bits, class 0 first), lines (4, line 0 first), refusal number (4), 20 zeros, read value or 0.
// It takes no `Output`, so that a caller need not build the outputs that a word does not show.
#[tactic(auto, unfolding(bits::specs::Fields::pack, trace_rules::specs::Word::word_by))]
pub fn word(interrupts: u8, lines: u8, a: Answer) -> u64
    ensures { result ≡ word_by interrupts lines a }
{
    (four(interrupts) << 60) + (four(lines) << 56) + (refusal_of(a) << 52) + read_of(a) as u64
}
