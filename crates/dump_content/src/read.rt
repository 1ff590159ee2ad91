// The reader: any bytes.
ghost use Rattle.std.specs.Prelude.{◌≡◌, pos, neg_ℤ};
ghost use Rattle.dump_rules.specs.Content.{unread_number, nothing_of, content_by};
ghost use Rattle.dump_rules.specs.Reader.{read_dump};

use crate::shown::content_of;
use dump_reader::judge::judge;
use dump_rules::{Content, ContentClass, REGISTERS, Unread};

// The negated refusal number.
fn refused(u: Unread) -> i64
    ensures { result ≡ neg_ℤ (pos (unread_number u)) }
{
    -(u as i64)
}

// Nothing is shown.
fn nothing(u: Unread) -> Content
    ensures { result ≡ nothing_of u }
{
    Content {
        answer: refused(u),
        n: 0,
        classes: [ContentClass::default(); 4],
        stages: [0; REGISTERS],
        causes: [0; REGISTERS],
        locked: [0; REGISTERS],
    }
}

// The content of a dump, 17 for a cut start of one or no bytes, 16 for the rest.
pub fn read_dump(bytes: &[u8]) -> Content
    ensures { result ≡ content_by (read_dump bytes.now) }
{
    match judge(bytes) {
        Ok(()) => content_of(bytes),
        Err(u) => nothing(u),
    }
}
