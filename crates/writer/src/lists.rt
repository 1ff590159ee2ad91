// How accesses and samples are lent: eight lists of numbers, of which entry i is tick i's.
ghost use Rattle.std.specs.Prelude.{◌≡◌, ◌*◌, eqb, length};
ghost use Rattle.rules.specs.State.{words};
ghost use Rattle.writer.specs.Lent.{even};

use rules::WORDS;
use std::marker::Model;

// An entry has WORDS words of positive and of negative wires, and a number in each other list.
#[derive(Drop)]
pub struct Lists<'a> {
    pub kinds: &'a [u8],
    pub registers: &'a [u16],
    pub values: &'a [u32],
    pub positive: &'a [u64],
    pub negative: &'a [u64],
    pub entropy: &'a [u32],
    pub receive_positive: &'a [u8],
    pub receive_negative: &'a [u8],
}

// Contracts see the lists of numbers.
impl<'a> Model for Lists<'a> {
    ghost use Rattle.writer.specs.Lent.{Lent, lent};

    ghost Value = { Lent };

    ghost view = { λ l. lent l.kinds.now l.registers.now l.values.now l.positive.now l.negative.now l.entropy.now l.receive_positive.now l.receive_negative.now };
}

// Whether a list has the words of as many entries: by a division, since a product may overflow.
fn has_words(list: &[u64], count: usize) -> bool
    ensures { result ≡ eqb (length list.now) (count * words) }
{
    list.len() % WORDS == 0 && list.len() / WORDS == count
}

impl Lists<'_> {
    // Whether no list is longer or shorter than another, so that no tick lacks a part.
    pub fn are_even(&self) -> bool
        ensures { result ≡ even self.now }
    {
        let count = self.kinds.len();
        self.registers.len() == count
            && self.values.len() == count
            && has_words(self.positive, count)
            && has_words(self.negative, count)
            && self.entropy.len() == count
            && self.receive_positive.len() == count
            && self.receive_negative.len() == count
    }
}
