// The places of a word of 64, the highest bit first: those of alerts that are there, and a walk over those that are set.
ghost use Rattle.std.specs.Prelude.{ℕ, ◌+◌, ◌<◌, ◌≡◌, eqb, ltb};
ghost use Rattle.bits.specs.Bits.{place};
ghost use Rattle.masks.specs.Places.{First, Rest};

// The first place that is set.
pub fn first(w: u64) -> usize
    requires { 0 < w }
    ensures { First w result }
{
    u64::leading_zeros(w) as usize
}

// The places after the first one, i.
pub fn after(w: u64, i: usize) -> u64
    requires { First w i }
    ensures { Rest w i result }
{
    let one: u64 = 1;
    w % (one << (63 - i))
}

// The places of the alerts from b on that are below n.
pub fn live(n: usize, b: usize) -> u64
    ensures { (i : ℕ) → i < 64 → place result i ≡ ltb (b + i) n }
{
    let ones: u64 = 0xFFFF_FFFF_FFFF_FFFF;
    if n <= b {
        0
    } else if n - b < 64 {
        !(ones >> (n - b))
    } else {
        ones
    }
}

// The place of alert i among those from b on, if it is there.
pub fn only(i: u8, b: usize) -> u64
    ensures { (j : ℕ) → j < 64 → place result j ≡ eqb (b + j) i }
{
    let at = i as usize;
    live(at + 1, b) ^ live(at, b)
}
