// "Numbers that come back": an answer as one signed 64-bit number.
#![tactic(auto)]

ghost use Rattle.std.specs.Prelude.{◌≡◌, ◌<◌};
ghost use Rattle.rules.specs.Answer.{refusal_number, number};
ghost use Rattle.answers.specs.Meaning.{Meaning};

use rules::{Answer, Refusal};

// The table's first column. Four bits hold it, as a word of a batch does.
pub fn refusal_number(m: Refusal) -> u8
    ensures { (result ≡ refusal_number m) × (result < 16) }
{
    m as u8
}

// A read gives its value, anything else accepted 0, and a refusal the negated refusal number.
pub fn signed(a: Answer) -> i64
    ensures value { result ≡ number a }
    ensures meaning { Meaning a }
{
    match a {
        Answer::Done => 0,
        Answer::Value(v) => v as i64,
        Answer::Refused(m) => -(refusal_number(m) as i64),
    }
}
