// Bits of bytes, most significant bit first.
ghost use Rattle.std.specs.Prelude.{◌≡◌, false, ◌+◌, ◌*◌, ◌^◌, ◌≤◌, ◌<◌, get_or, drop};
ghost use Rattle.bits.specs.Bits.{num};
ghost use Rattle.formats.specs.BitList.{bits_of_bytes, filled};

// Bit p, and 0 past the end.
fn bit_at(bytes: &[u8], p: usize) -> u64
    ensures { result ≡ num (get_or (bits_of_bytes bytes.now) p false) }
{
    let i = p / 8;
    if i < bytes.len() {
        let b = bytes[i] as u64;
        (b >> (7 - p % 8)) % 2
    } else {
        0
    }
}

// The number of the w bits from bit `at` on, with zeros past the end.
pub fn take_bits(bytes: &[u8], at: usize, w: usize) -> u64
    requires { (at ≤ 1000000) × (w ≤ 64) }
    ensures { (result ≡ filled w (drop at (bits_of_bytes bytes.now))) × (result < 2 ^ w) }
{
    let mut v: u64 = 0;
    for i in 0..w {
        v = 2 * v + bit_at(bytes, at + i);
    }
    v
}
