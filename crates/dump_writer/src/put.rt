// Bits into a lent buffer, one after the other: a byte is stored when its eighth bit comes, and till then its bits wait in a number.
ghost use Rattle.std.specs.Prelude.{[], ◌∷◌, ◌+◌, ◌*◌, ◌≤◌, ◌<◌, length};

// The buffer, the place of the next bit in it, and the bits that wait. No fact of the place is a ghost field, as none stands beside a `&mut` field yet.
#[derive(Drop)]
pub(crate) struct Pen<'a> {
    pub(crate) out: &'a mut [u8],
    pub(crate) at: usize,
    pub(crate) wait: u64,
}

impl<'a> Pen<'a> {
    ghost use Rattle.formats.specs.BitList.{bit_list};
    ghost use Rattle.dump_writer.specs.Puts.{Puts};

    fn push(&mut self, b: bool)
        requires { (self.old.at < 8 * length self.old.out.now) × (self.old.at < 1000064) }
        ensures { Puts (b ∷ []) self.old self.new }
    {
        let wait = 2 * (self.wait % 128) + u64::from(b);
        if self.at % 8 == 7 {
            self.out[self.at / 8] = wait as u8;
            self.wait = 0;
        } else {
            self.wait = wait;
        }
        self.at += 1;
    }

    // A number of w bits, most significant first.
    pub(crate) fn number(&mut self, w: usize, x: u64)
        requires { (self.old.at + w ≤ 8 * length self.old.out.now) × (w ≤ 64) × (self.old.at ≤ 1000000) }
        ensures { Puts (bit_list w x) self.old self.new }
    {
        for i in 0..w {
            self.push((x >> (w - 1 - i)) % 2 == 1);
        }
    }
}
