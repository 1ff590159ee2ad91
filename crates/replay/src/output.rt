// What the program prints beside the words, and what it tells on standard error.

// Prints to standard output, and says whether it could; that it could not is told on standard error.
pub fn print(rt: &(impl Print + Eprint), text: &[u8]) -> bool {
    let done = rt.write_all(text).is_ok();
    if !done {
        let _ = rt.eprint("replay: write failed\n");
    }
    done
}

// A missing or refused N prints `refused` only.
pub fn refuse(rt: &(impl Print + Eprint)) {
    print(rt, b"refused\n");
}

// After the last record: rest bytes print `cut`. That a read failed is told on standard error.
pub fn finish(rt: &(impl Print + Eprint), rest: usize, failed: bool) {
    if rest != 0 {
        print(rt, b"cut\n");
    }
    if failed {
        let _ = rt.eprint("replay: read failed\n");
    }
}
