// The text that a part of the input gives: a line for the word of each record.
ghost use Rattle.std.specs.Prelude.{◌≡◌, true, ◌*◌, ◌≤◌, length};
ghost use Rattle.trace_rules.specs.Batch.{admits};
ghost use Rattle.trace_rules.specs.Record.{record_count};
ghost use Rattle.replay.specs.ReplayedBy.{ReplayedBy};

use batch::batch;
use rules::Handler;
use text::hex_lines;
use trace::edition::record_bytes;
use trace_rules::Edition;

// The records of a turn, and the bytes of their lines.
pub const TURN: usize = 2048;

pub const TEXT: usize = TURN * 17;

// The state after a part's records, and how many bytes of text they gave.
#[derive(Clone, Copy)]
pub struct Replayed {
    pub handler: Handler,
    pub written: usize,
}

// Runs the records that the bytes hold whole, and writes the lines of their words to the start of text.
pub fn replay(edition: Edition, h: Handler, bytes: &[u8], text: &mut [u8]) -> Replayed
    requires { (admits edition h ≡ true) × (record_count edition bytes.now ≤ 2048) × (17 * record_count edition bytes.now ≤ length text.old) }
    ensures { ReplayedBy edition h bytes.now text.old result text.new }
{
    let mut words = [0u64; TURN];
    let size = record_bytes(edition);
    let count = bytes.len() / size;
    let done = batch(edition, h, &bytes[..count * size], &mut words);
    Replayed {
        handler: done.handler,
        written: hex_lines(&words[..count], text),
    }
}
