// Lists of one length, and the records of their entries in the lent buffer.
ghost use Rattle.std.specs.Prelude.{◌≡◌, true, false, ◌++◌, ◌+◌, ◌*◌, ◌<◌, ◌≤◌, length, drop, MatchResult};
ghost use Rattle.std.proofs.lemmas.List.Edits.{sets};
ghost use Rattle.bits.specs.Index.{any_to};
ghost use Rattle.rules.specs.declared.Refusal.{Refusal};
ghost use Rattle.trace_rules.specs.Edition.{newest, record_bytes};
ghost use Rattle.trace_rules.specs.Record.{record_of, recordable};
ghost use Rattle.trace_rules.specs.Writer.{records_of};
ghost use Rattle.writer.specs.Lent.{input_at, list_of, even};
ghost use Rattle.writer.specs.EntryParts.{unrecordable_at, Ready};

use crate::bytes::put_word;
use crate::lists::Lists;
use crate::records::{first_word, is_recordable, put_last, put_wires};
use rules::{Access, Refusal};
use trace::edition::WIRES_BYTES;
use trace::record::access_of;

// The entries of lists of which none is longer or shorter than another.
#[derive(Drop)]
pub struct Entries<'a> {
    lists: Lists<'a>,
    ghost is_even: { even lists ≡ true },
}

impl<'a> Entries<'a> {
    // Refused by 10 where a tick lacks a part, which no record holds.
    pub fn of(lists: Lists<'a>) -> Result<Self, Refusal>
        ensures { MatchResult result (λ entries. entries.lists ≡ lists.entry) (λ m. (m ≡ Refusal.NoRecord) × (even lists.entry ≡ false)) }
    {
        if lists.are_even() {
            Ok(Entries { lists })
        } else {
            Err(Refusal::NoRecord)
        }
    }

    pub fn count(&self) -> usize
        ensures { result ≡ length self.now.lists.kinds }
    {
        self.lists.kinds.len()
    }

    // The access of entry i.
    fn access(&self, i: usize) -> Access
        requires { i < length self.now.lists.kinds }
        ensures { result ≡ (input_at self.now.lists i).access }
    {
        access_of(
            self.lists.kinds[i],
            self.lists.registers[i],
            self.lists.values[i],
        )
    }

    // Whether some entry has an access that no well-formed record holds.
    pub fn any_unrecordable(&self) -> bool
        ensures { result ≡ any_to (unrecordable_at self.now.lists) (length self.now.lists.kinds) }
    {
        for i in 0..self.count() {
            if !is_recordable(self.access(i)) {
                return true;
            }
        }
        false
    }

    // The record of entry i: the access, the positive wires with alert 0 first, the negative wires, the word and the receive pairs.
    fn put_record(&self, i: usize, out: &mut [u8], at: usize)
        requires { (i < length self.now.lists.kinds) × (at + record_bytes newest ≤ length out.old) × (recordable newest (input_at self.now.lists i).access ≡ true) }
        ensures { out.new ≡ sets out.old at (record_of newest (input_at self.now.lists i)) }
    {
        put_word(
            out,
            at,
            first_word(
                self.lists.kinds[i],
                self.lists.registers[i],
                self.lists.values[i],
            ),
        );
        put_wires(out, at + 8, self.lists.positive, i);
        put_wires(out, at + 39, self.lists.negative, i);
        put_last(
            out,
            at + 70,
            self.lists.entropy[i],
            self.lists.receive_positive[i],
            self.lists.receive_negative[i],
        );
    }

    // The records of all entries, from the start of the buffer.
    pub fn put_all(&self, out: &mut [u8])
        requires { Ready self.now.lists out.old }
        ensures { out.new ≡ records_of newest (list_of self.now.lists) ++ drop (length self.now.lists.kinds * record_bytes newest) out.old }
    {
        for i in 0..self.count() {
            self.put_record(i, out, i * WIRES_BYTES);
        }
    }
}
