// The writer: the dump of a state into a lent buffer.
ghost use Rattle.std.specs.Prelude.{◌≡◌, true, ◌++◌, ◌≤◌, pos, neg_ℤ, length, drop};
ghost use Rattle.rules.specs.Valid.{valid};
ghost use Rattle.dump_rules.specs.Dump.{dump_of};
ghost use Rattle.dump_rules.specs.Shown.{shown};
ghost use Rattle.dump_rules.specs.Writer.{unwritten_number, WroteDump};
ghost use Rattle.dump_writer.specs.Written.{Sized};

use crate::fill::count_open;
use crate::put::Pen;
use dump_map::Kind;
use dump_map::counts::zeros_behind;
use dump_rules::Unwritten;
use rules::Handler;
use state::valid::is_valid;

// The four bytes TDMP.
const MARK: u64 = 0x5444_4d50;

// The whole dump, with so many zeros and stages. A call of its own, so that the test of the state before it has no room of this one below it.
#[inline(never)]
fn put_dump(h: &Handler, out: &mut [u8], zeros: usize, stages: usize)
    requires { (valid h.now ≡ true) × Sized h.now (length out.old) zeros stages }
    ensures { out.new ≡ dump_of (shown h.now) ++ drop (length (dump_of (shown h.now))) out.old }
{
    let mut pen = Pen {
        out,
        at: 0,
        wait: 0,
    };
    pen.number(32, MARK);
    pen.number(8, h.n as u64);
    pen.classes(h.classes);
    pen.flags(Kind::Cause, h);
    pen.flags(Kind::Lock, h);
    pen.number(zeros, 0);
    pen.number(16, stages as u64);
    pen.stages(h);
}

// The negated refusal number.
fn refused(u: Unwritten) -> i64
    ensures { result ≡ neg_ℤ (pos (unwritten_number u)) }
{
    -(u as i64)
}

// Refused by 7 for a state that breaks its rule, then by 11 for a buffer too short. Else the dump stands at the start of the buffer, and the answer is
// the number of bytes written.
pub fn write_dump(h: Handler, out: &mut [u8]) -> i64
    ensures { WroteDump h out.old result out.new }
{
    if !is_valid(h) {
        return refused(Unwritten::BadState);
    }
    let causes = Kind::Cause.how_many(h.n);
    let locks = Kind::Lock.how_many(h.n);
    let open = count_open(&h);
    let size = 6 + (219 + causes + locks) / 8 + 6 * open;
    if size > out.len() {
        return refused(Unwritten::ShortBuffer);
    }
    put_dump(&h, out, zeros_behind(causes, locks), open);
    size as i64
}
