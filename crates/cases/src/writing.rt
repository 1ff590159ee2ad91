// Request (ii), write our own traces: what the writer answers, and the buffer that it leaves.
use rules::WORDS;
use writer::write;

// The buffer's bytes.
fn show_bytes(rt: &impl Print, bytes: &[u8]) {
    for byte in bytes {
        say!(rt; " {byte}");
    }
    say!(rt; "\n");
}

// A read of 1281 and a write of 0 to this register, with negative wire 0 at 1, into the first bytes of a buffer. The second has a word, lines
// 0 and 2 at (1,0), and bits that are no line's.
fn show_two(rt: &impl Print, register: u16, out: &mut [u8]) {
    let registers: [u16; 2] = [1281, register];
    let positive: [u64; 2 * WORDS] = [0; 2 * WORDS];
    let mut negative: [u64; 2 * WORDS] = [0; 2 * WORDS];
    negative[0] = 0x8000_0000_0000_0000;
    negative[WORDS] = 0x8000_0000_0000_0000;
    let entropy: [u32; 2] = [0, 0x0102_0304];
    let answer = write(
        &[1, 2],
        &registers,
        &[0, 0],
        &positive,
        &negative,
        &entropy,
        &[0, 0x15],
        &[15, 0x2A],
        out,
    );
    say!(rt; "  {answer}");
    show_bytes(rt, out);
}

// The two records of document 01 in the newest form; a register that no record holds; a buffer one byte too short; both.
pub fn two_records(rt: &impl Print) {
    say!(rt; "writing\n");
    let mut long: [u8; 152] = [7; 152];
    show_two(rt, 2047, &mut long);
    show_two(rt, 2048, &mut long);
    let mut short: [u8; 149] = [7; 149];
    show_two(rt, 2047, &mut short);
    show_two(rt, 2048, &mut short);
}
