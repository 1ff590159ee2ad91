// A place in bytes that may be a dump, and the fields of the format that are read from there on.
ghost use Rattle.std.specs.Prelude.{◌≡◌, ◌*◌, ◌≤◌, length};
ghost use Rattle.class_rules.specs.Class.{state_of, state_fits, count_fits};

use crate::places::take_bits;
use crate::steps::step;
use dump_rules::Unread;

const CLASSES: usize = 4;

// Bit `at` of the bytes, most significant first. No dump is longer than 10,000 bytes.
#[derive(Drop)]
pub(crate) struct Reader<'a> {
    bytes: &'a [u8],
    at: usize,
    ghost within: { at ≤ 8 * length bytes.now },
    ghost short: { length bytes.now ≤ 10000 },
}

impl<'a> Reader<'a> {
    ghost use Rattle.std.specs.Prelude.{◌-◌, ◌^◌, ◌<◌, ℕ, Bool, leb, drop};
    ghost use Rattle.formats.specs.BitList.{bits_of_bytes, filled};
    ghost use Rattle.formats.specs.Format.{field, chain};
    ghost use Rattle.dump_rules.specs.Dump.{mark};
    ghost use Rattle.dump_rules.specs.Reader.{any_number, mark_chain, class_format, classes_format};
    ghost use Rattle.dump_reader.specs.Steps.{step_by};
    ghost use Rattle.dump_reader.specs.Reads.{Came, Reads, ReadsNumber};

    pub(crate) fn new(bytes: &'a [u8]) -> Reader<'a>
        requires { length bytes.now ≤ 10000 }
        ensures { (result.bytes.now ≡ bytes.now) × (result.at ≡ 0) }
    {
        Reader { bytes, at: 0 }
    }

    // How many bits are left.
    pub(crate) fn left(&self) -> usize
        ensures { result ≡ 8 * length self.now.bytes.now - self.now.at }
    {
        8 * self.bytes.len() - self.at
    }

    // The number of the next w bits, with zeros past the end.
    pub(crate) fn peek(&self, w: usize) -> u64
        requires { w ≤ 64 }
        ensures { (result ≡ filled w (drop self.now.at (bits_of_bytes self.now.bytes.now))) × (result < 2 ^ w) }
    {
        take_bits(self.bytes, self.at, w)
    }

    // Over w bits, where what is there of them is fine.
    pub(crate) fn step(&mut self, w: usize, fine: bool) -> Result<(), Unread>
        ensures { Came (step_by (8 * length self.old.bytes.now) self.old.at w fine) self.old self.new result }
    {
        self.at = step(8 * self.bytes.len(), self.at, w, fine)?;
        Ok(())
    }

    // Any number of w bits.
    pub(crate) fn any(&mut self, w: usize) -> Result<(), Unread>
        ensures { Reads (field w any_number) self.old self.new result }
    {
        self.step(w, true)
    }

    // A number up to m.
    pub(crate) fn number(&mut self, w: usize, m: u64) -> Result<u64, Unread>
        requires { w ≤ 64 }
        ensures { (ok : ℕ → Bool) → ((x : ℕ) → ok x ≡ leb x m) → ReadsNumber w ok self.old self.new result }
    {
        let v = self.peek(w);
        self.step(w, v <= m)?;
        Ok(v)
    }

    // The four bytes TDMP, at the start.
    pub(crate) fn mark(&mut self) -> Result<(), Unread>
        requires { self.old.at ≡ 0 }
        ensures { Reads (chain mark_chain 4 mark) self.old self.new result }
    {
        let text = b"TDMP";
        for i in 0..4 {
            if i >= self.bytes.len() {
                return Err(Unread::CutDump);
            }
            if self.bytes[i] != text[i] {
                return Err(Unread::NoDump);
            }
        }
        self.at = 32;
        Ok(())
    }

    // STATE. One that is cut can still be other than 2.
    fn state(&mut self) -> Result<u64, Unread>
        ensures { ReadsNumber 3 state_fits self.old self.new result }
    {
        let s = self.peek(3);
        let cut = self.left() < 3;
        self.step(3, (s != 2) | cut)?;
        Ok(s)
    }

    // The count of a class in state s. One that is cut can still be other than 0.
    fn count(&mut self, s: u64) -> Result<u64, Unread>
        ensures { ReadsNumber 32 (count_fits (state_of s)) self.old self.new result }
    {
        let c = self.peek(32);
        let cut = self.left() < 32;
        self.step(32, count_fits(s, c) | (cut & count_fits(s, 1)))?;
        Ok(c)
    }

    // STATE, count and accumulator.
    fn class(&mut self) -> Result<(), Unread>
        ensures { Reads class_format self.old self.new result }
    {
        let s = self.state()?;
        self.count(s)?;
        self.any(16)
    }

    // The four classes.
    pub(crate) fn classes(&mut self) -> Result<(), Unread>
        ensures { Reads classes_format self.old self.new result }
    {
        for _class in 0..CLASSES {
            self.class()?;
        }
        Ok(())
    }
}

// A count is 0 in Idle or Terminal and is not 0 in Timeout or a phase. The same test of a state stands in `state`, on which no reader of dumps stands:
// one match in two places is less than a crate between them.
fn count_fits(s: u64, c: u64) -> bool
    ensures { result ≡ count_fits (state_of s) c }
{
    match s {
        1 => c != 0,
        3 => c == 0,
        4 => c != 0,
        5 => c != 0,
        6 => c != 0,
        7 => c != 0,
        _ => c == 0,
    }
}
