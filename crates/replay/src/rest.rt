// The bytes of a record that has not come whole. They wait at the start of the buffer for the next read.
ghost use Rattle.std.specs.Prelude.{◌≤◌, length, take};
ghost use Rattle.replay.specs.Rest.{Kept};

use trace::edition::record_bytes;
use trace_rules::Edition;

// Moves the bytes after the last whole record, of count bytes, to the start of buf, and answers how many they are.
pub fn keep_rest(edition: Edition, buf: &mut [u8], count: usize) -> usize
    requires { count ≤ length buf.old }
    ensures { Kept edition (take count buf.old) result buf.new }
{
    let rest = count % record_bytes(edition);
    buf.copy_within(count - rest..count, 0);
    rest
}
