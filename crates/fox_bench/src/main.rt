// The bench program: one block by the card engine. It reads a sheet from standard input and prints the answer; all that it does beyond that is in
// `fox_sheet_answer`. The first 240 bytes of a sheet settle its answer, however long it is (`answer-of-prefix`), so no more than one buffer is read.
#![tactic(auto)]

use fox_sheet_answer::answer::{ROOM, answer};

fn main() {
    let mut sheet = io::buffer();
    let n = io::read_full(0, &mut sheet);
    let mut out = [0; ROOM];
    let count = answer(&sheet[..n], &mut out);
    io::write_all(1, &out[..count]);
}
