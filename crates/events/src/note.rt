// What one event does: it sets its cause and hits its class.
ghost use Rattle.std.specs.Prelude.{◌≡◌, ◌&&◌, ◌<◌, eqb, get_or, length, set};
ghost use Rattle.bits.specs.Bits.{bits_of};
ghost use Rattle.rules.specs.Samples.{marked};

// The bit of class c, if on.
pub fn class_bit(c: u8, on: bool) -> u8
    ensures { result ≡ bits_of 4 (λ k. on && eqb c k) }
{
    masks::class_bit(c as usize, on)
}

// The cause at i is set if on. A place that is not on is not written.
pub fn mark(causes: &mut [u8], i: usize, on: bool)
    requires { i < length causes.old }
    ensures { causes.new ≡ set causes.old i (marked on (get_or causes.old i 0)) }
{
    if on {
        causes[i] = 1;
    }
}
