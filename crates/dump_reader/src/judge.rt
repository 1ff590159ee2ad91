// Whether bytes are a dump, the start of one, or neither.
ghost use Rattle.std.specs.Prelude.{◌≡◌};
ghost use Rattle.dump_rules.specs.Reader.{read_dump};
ghost use Rattle.dump_reader.specs.Steps.{judged_of};

use crate::reader::Reader;
use crate::stages::Shadowed;
use dump_map::Kind;
use dump_map::counts::zeros_behind;
use dump_rules::Unread;

impl Reader<'_> {
    ghost use Rattle.dump_rules.specs.Reader.{body_format, dump_format};
    ghost use Rattle.dump_reader.specs.Reads.{Reads};

    // The classes, all causes, all locks, zeros to a full byte, and the stages. Registers are counted where the bytes come to them: a dump that is cut
    // before has none to count.
    fn body(&mut self, n: usize) -> Result<(), Unread>
        ensures { Reads (body_format n) self.old self.new result }
    {
        self.classes()?;
        let causes = Kind::Cause.how_many(n);
        self.any(causes)?;
        let locks = Kind::Lock.how_many(n);
        self.any(locks)?;
        self.number(zeros_behind(causes, locks), 0)?;
        let shadowed = Shadowed::all(n);
        let m = self.number(16, shadowed.most() as u64)?;
        self.stages(shadowed, m as usize)
    }

    // The whole, from the start on: TDMP, N, and the rest.
    fn dump(&mut self) -> Result<(), Unread>
        requires { self.old.at ≡ 0 }
        ensures { Reads dump_format self.old self.new result }
    {
        self.mark()?;
        let n = self.number(8, 248)?;
        self.body(n as usize)
    }
}

// A dump and nothing behind it, the start of a dump, or neither. No dump is longer than 10,000 bytes.
#[inline(never)]
pub fn judge(bytes: &[u8]) -> Result<(), Unread>
    ensures { result ≡ judged_of (read_dump bytes.now) }
{
    if bytes.len() > 10000 {
        return Err(Unread::NoDump);
    }
    let mut reader = Reader::new(bytes);
    reader.dump()?;
    if reader.left() == 0 {
        Ok(())
    } else {
        Err(Unread::NoDump)
    }
}
