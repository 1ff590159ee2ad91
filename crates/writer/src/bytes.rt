// Numbers as bytes at a place of the lent buffer, most significant first.
ghost use Rattle.std.specs.Prelude.{◌≡◌, ◌+◌, ◌/◌, ◌^◌, ◌≤◌, length};
ghost use Rattle.std.proofs.lemmas.List.Edits.{sets};
ghost use Rattle.bits.specs.Fields.{to_bytes};

// Four bytes.
pub fn put_half(out: &mut [u8], at: usize, x: u32)
    requires { at + 4 ≤ length out.old }
    ensures { out.new ≡ sets out.old at (to_bytes 4 x) }
{
    out[at..at + 4].copy_from_slice(&x.to_be_bytes());
}

// Seven bytes: the highest of a word.
pub fn put_seven(out: &mut [u8], at: usize, w: u64)
    requires { at + 7 ≤ length out.old }
    ensures { out.new ≡ sets out.old at (to_bytes 7 (w / 2 ^ 8)) }
{
    out[at..at + 7].copy_from_slice(&w.to_be_bytes()[..7]);
}

// Eight bytes.
pub fn put_word(out: &mut [u8], at: usize, w: u64)
    requires { at + 8 ≤ length out.old }
    ensures { out.new ≡ sets out.old at (to_bytes 8 w) }
{
    out[at..at + 8].copy_from_slice(&w.to_be_bytes());
}
