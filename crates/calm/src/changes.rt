// The changes of a calm call: a word for each tick at which a line changed.
ghost use Rattle.std.specs.Prelude.{◌≡◌, ℕ, ◌<◌, ◌≤◌, ◌^◌, ◌≢◌, List, [], ◌∷◌, ◌++◌, length, take, drop};
ghost use Rattle.bits.specs.Bits.{bit, num};
ghost use Rattle.calm_rules.specs.Ticks.{change, change_word};

use std::marker::Model;

// As many as a call can have: five for each class.
pub const ENTRIES: usize = 20;

// The words so far, oldest first; MOST of them at most.
#[derive(Drop)]
pub struct Changes<const MOST: usize> {
    words: [u64; MOST],
    count: usize,
}

impl<const MOST: usize> Model for Changes<MOST> {
    ghost Value = { List ℕ };

    ghost view = { λ c. take c.count c.words };

    ghost invariant = { λ c. c.count ≤ MOST };
}

impl<const MOST: usize> Changes<MOST> {
    pub fn new() -> Self
        ensures { result ≡ [] }
    {
        Changes {
            words: [0; MOST],
            count: 0,
        }
    }

    // The tick of this number, with the lines after it and before it: a word if they differ.
    pub fn note(&mut self, before: u32, lines: u32, tick: u64)
        requires { (tick < 2 ^ 32) × (lines ≢ before → length self.old < MOST) }
        ensures { self.new ≡ self.old ++ change before lines tick }
    {
        if lines != before {
            self.push(change_word(lines, tick));
        }
    }

    fn push(&mut self, word: u64)
        requires { length self.old < MOST }
        ensures { self.new ≡ self.old ++ word ∷ [] }
    {
        self.words[self.count] = word;
        self.count += 1;
    }

    // Writes the words to the start of the list, and says how many they are.
    pub fn store(&self, out: &mut [u64]) -> usize
        requires { length self.now ≤ length out.old }
        ensures written { result ≡ length self.now }
        ensures most { result ≤ MOST }
        ensures words { out.new ≡ self.now ++ drop (length self.now) out.old }
    {
        out[..self.count].copy_from_slice(&self.words[..self.count]);
        self.count
    }
}

// Line e as a number.
fn line(lines: u32, e: u32) -> u64
    requires { e < 4 }
    ensures { (result ≡ num (bit lines e)) × (result ≤ 1) }
{
    u64::from((lines >> e) % 2 == 1)
}

// Lines (4 bits, line 0 first), 28 zeros, tick.
#[tactic(auto, unfolding(calm_rules::specs::Ticks::change_word, bits::specs::Fields::pack))]
pub fn change_word(lines: u32, tick: u64) -> u64
    requires { tick < 2 ^ 32 }
    ensures { result ≡ change_word lines tick }
{
    let first = 8 * line(lines, 0) + 4 * line(lines, 1) + 2 * line(lines, 2) + line(lines, 3);
    (first << 60) + tick
}
