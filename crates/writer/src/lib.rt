// Request (ii): a trace writer for a list of accesses and samples, lent as eight lists of numbers: entry i is tick i's, and has WORDS words
// of positive and of negative wires.
#![tactic(auto)]

mod bytes;
mod entries;
mod lists;
mod records;

ghost use Rattle.std.specs.Prelude.{◌≤◌, pos, length, MatchResult};
ghost use Rattle.rules.specs.Answer.{number};
ghost use Rattle.writer.specs.Lent.{lent, Wrote, ReadBack, WrittenBack};

use crate::entries::Entries;
use crate::lists::Lists;
use answers::signed;
use rules::{Answer, Refusal};
use trace::edition::WIRES_BYTES;

// The bytes written, or the refusal: 10 comes before 11.
fn put(lists: Lists, out: &mut [u8]) -> Result<usize, Refusal>
    ensures { MatchResult result (λ bytes. (bytes ≤ length out.old) × Wrote lists.entry out.old (pos bytes) out.new) (λ m. Wrote lists.entry out.old (number (Answer.Refused m)) out.new) }
{
    let entries = Entries::of(lists)?;
    if entries.any_unrecordable() {
        return Err(Refusal::NoRecord);
    }
    if out.len() / WIRES_BYTES < entries.count() {
        return Err(Refusal::ShortBuffer);
    }
    entries.put_all(out);
    Ok(entries.count() * WIRES_BYTES)
}

// Refused by 10 for lists of unequal lengths or an access that no well-formed record holds, and by 11 for a buffer too short.
// Else a record for each entry stands at the start of the buffer, and the answer is the number of bytes written.
// Kept: eight lists, as C lends them to `tarravane_record`.
pub fn write(
    kinds: &[u8],
    registers: &[u16],
    values: &[u32],
    positive: &[u64],
    negative: &[u64],
    entropy: &[u32],
    receive_positive: &[u8],
    receive_negative: &[u8],
    out: &mut [u8],
) -> i64
    ensures wrote { Wrote (lent kinds.now registers.now values.now positive.now negative.now entropy.now receive_positive.now receive_negative.now) out.old result out.new }
    ensures readback { ReadBack (lent kinds.now registers.now values.now positive.now negative.now entropy.now receive_positive.now receive_negative.now) out.old out.new }
    ensures writtenback { WrittenBack (lent kinds.now registers.now values.now positive.now negative.now entropy.now receive_positive.now receive_negative.now) out.old out.new }
{
    let lists = Lists {
        kinds,
        registers,
        values,
        positive,
        negative,
        entropy,
        receive_positive,
        receive_negative,
    };
    match put(lists, out) {
        Ok(bytes) => bytes as i64,
        Err(refusal) => signed(Answer::Refused(refusal)),
    }
}
