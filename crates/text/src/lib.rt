// "prints each word as 16 lower-case hex digits and a newline": words as lines of text.
#![tactic(auto)]

ghost use Rattle.std.specs.Prelude.{◌≡◌, ◌<◌, length};
ghost use Rattle.text.specs.HexLines.{digit_of, line_of, Written};

// The hex digit of a number below 16, in ASCII.
fn digit(d: u64) -> u8
    requires { d < 16 }
    ensures { result ≡ digit_of d }
{
    if d < 10 {
        b'0' + d as u8
    } else {
        b'a' + (d - 10) as u8
    }
}

// Writes the line of a word: its 16 digits, and a newline.
fn put_line(word: u64, line: &mut [u8])
    requires { length line.old ≡ 17 }
    ensures { line.new ≡ line_of word }
{
    for j in 0..16 {
        line[j] = digit((word >> (60 - 4 * j)) % 16);
    }
    line[16] = b'\n';
}

// Writes the lines of the words to the start of out, as many as fit whole, and answers how many bytes that took. Each line is put by its place: of a
// list's parts that are lent one after the other (chunks_mut) a proof knows only how long they are.
pub fn hex_lines(words: &[u64], out: &mut [u8]) -> usize
    ensures { Written words.now out.old result out.new }
{
    let count = words.len().min(out.len() / 17);
    for i in 0..count {
        put_line(words[i], &mut out[17 * i..17 * i + 17]);
    }
    17 * count
}
