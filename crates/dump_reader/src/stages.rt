// The stages of a dump, one after the other.
ghost use Rattle.std.specs.Prelude.{◌≡◌, ◌-◌, ◌^◌, ◌≤◌};
ghost use Rattle.dump_map.specs.Kinds.{Counted};

use crate::reader::Reader;
use dump_map::Kind;
use dump_map::counts::first_shadowed;
use dump_rules::Unread;
use map::column::limit;
use map::number::register_at;

// The shadowed registers of a handler of n alerts from number `from` on: `below` are before them, and there are `total` in all.
#[derive(Clone, Copy)]
pub(crate) struct Shadowed {
    n: usize,
    from: usize,
    below: usize,
    total: usize,
    ghost counted: { Counted n from below total },
}

impl Shadowed {
    ghost use Rattle.std.specs.Prelude.{◌+◌, ◌<◌};
    ghost use Rattle.bits.specs.Index.{any_to};
    ghost use Rattle.dump_rules.specs.Reader.{shadowed_from, stage_at};

    pub(crate) fn all(n: usize) -> Shadowed
        ensures { (result.n ≡ n) × (result.from ≡ 0) }
    {
        Shadowed {
            n,
            from: 0,
            below: 0,
            total: Kind::Shadowed.how_many(n),
        }
    }

    // How many stages there can be.
    pub(crate) fn most(self) -> usize
        ensures { result ≡ shadowed_from self.n 0 }
    {
        self.total
    }

    // Those above number r: each is counted once on the way up.
    fn above(self, r: usize) -> Shadowed
        requires { (self.from ≤ r) × (r < 65536) }
        ensures { (result.n ≡ self.n) × (result.from ≡ r + 1) }
    {
        Shadowed {
            n: self.n,
            from: r + 1,
            below: self.below + Kind::Shadowed.count(self.n, self.from, r + 1),
            total: self.total,
        }
    }

    // Whether one of the `span` numbers from lo on is theirs and has k of them above it: the first that is theirs decides.
    fn is_left(self, lo: usize, span: usize, k: usize) -> bool
        requires { (lo ≤ 65536) × (span ≤ 65536) × (k ≤ 65536) }
        ensures { result ≡ any_to (λ x. stage_at self.n self.from k (lo + x)) span }
    {
        match first_shadowed(self.n, lo.max(self.from)) {
            Some(r) => {
                let passed = Kind::Shadowed.count(self.n, self.from, r);
                (r < lo + span) & (self.below + passed + k + 1 <= self.total)
            }
            None => false,
        }
    }
}

// How many numbers of 16 bits begin with so many bits.
fn span_of(have: usize) -> usize
    ensures { (result ≡ 2 ^ (16 - have)) × (result ≤ 65536) }
{
    if have < 16 { 1 << (16 - have) } else { 1 }
}

impl Reader<'_> {
    ghost use Rattle.bits.specs.Bits.{fits};
    ghost use Rattle.formats.specs.Format.{chain};
    ghost use Rattle.rules.specs.Map.{decode, bits};
    ghost use Rattle.dump_rules.specs.Reader.{stage_at, stage_format, stage_chain};
    ghost use Rattle.dump_reader.specs.Reads.{Reads, ReadsFirst, ReadsNumber};

    // The register of a stage that k follow, whether its number is whole or cut.
    fn register(&mut self, left: Shadowed, k: usize) -> Result<u16, Unread>
        requires { k ≤ 65536 }
        ensures { ReadsNumber 16 (stage_at left.n left.from k) self.old self.new result }
    {
        let r = self.peek(16) as u16;
        let span = span_of(self.left());
        self.step(16, left.is_left(r as usize, span, k))?;
        Ok(r)
    }

    // Its value.
    fn value(&mut self, n: usize, r: u16) -> Result<u64, Unread>
        ensures { ReadsNumber 32 (fits (bits (decode n r))) self.old self.new result }
    {
        self.number(32, limit(register_at(n, r)) - 1)
    }

    fn stage(&mut self, left: Shadowed, k: usize) -> Result<u16, Unread>
        requires { k ≤ 65536 }
        ensures { ReadsFirst (stage_format left.n left.from k) 16 self.old self.new result }
    {
        let r = self.register(left, k)?;
        self.value(left.n, r)?;
        Ok(r)
    }

    // So many stages, numbers rising.
    pub(crate) fn stages(&mut self, mut left: Shadowed, m: usize) -> Result<(), Unread>
        requires { (left.from ≡ 0) × (m ≤ 65536) }
        ensures { Reads (chain (stage_chain left.n) m 0) self.old self.new result }
    {
        for i in 0..m {
            let r = self.stage(left, m - (i + 1))?;
            left = left.above(r as usize);
        }
        Ok(())
    }
}
