// Masks: numbers with a bit for each class, line or local alert, 0 lowest; and words with one for each of 64 alerts, alert 0 highest.
#![tactic(auto)]

pub mod places; // places.rt: the places of such a word

ghost use Rattle.std.specs.Prelude.{◌≡◌, ◌&&◌, ◌<◌, ◌≤◌, eqb};
ghost use Rattle.bits.specs.Bits.{bit, bits_of, num};

// Bit k of a mask. Masks of 32 bits and words of 64 have tests of their own (`samples`): one for all would put a cast at each call.
pub fn is_set(mask: u16, k: u32) -> bool
    requires { k < 16 }
    ensures { result ≡ bit mask k }
{
    (mask >> k) % 2 == 1
}

// A bit as a number.
pub fn num(b: bool) -> u8
    ensures { (result ≡ num b) × (result ≤ 1) }
{
    u8::from(b)
}

// The bit of class k, if on.
pub fn class_bit(k: usize, on: bool) -> u8
    ensures { result ≡ bits_of 4 (λ j. on && eqb k j) }
{
    if on & (k < 4) { 1 << k } else { 0 }
}
