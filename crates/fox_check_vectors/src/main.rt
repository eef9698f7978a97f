// Runs the rows of vectors in its input, each by every engine, and prints a line for each row and how many rows differ.
// A row is seven lines: `cipher`, `rounds`, `key`, `block`, `seal` and `open`, which are the refusals of either direction, or 0, and `sealed`. What is printed for the file `stdin` is compared with the file `stdout`.
#![tactic(auto)]

ghost use Rattle.std.specs.Prelude.{◌-◌, ◌≤◌, length};

use engines::Row;
use fox_text_lines::lines::after_line;
use fox_text_read::fields::{decimal_line, pairs_line};

mod engine;
mod engines;
mod lines;

// The size of the text's buffer in bytes.
const FULL: usize = 65536;

fn main() {
    let mut text = io::large_buffer();
    let n = io::read_full(0, &mut text);
    run_rows(&text[..n]);
}

// A text that fills the buffer may have been cut, so it counts as having one more row, which differs.
// A loop by hand: how long a row is shows only where it is read. `successors` would take this step and this test in two closures, and is no plainer.
fn run_rows(text: &[u8]) {
    let cut = text.len() / FULL;
    let mut left = text;
    let mut rows: usize = 0;
    let mut differ: usize = 0;
    while !left.is_empty() {
        rows += 1;
        differ += usize::from(!run_row(left));
        left = after_row(left);
    }
    lines::print_sum(rows + cut, differ + cut);
}

// What follows the text's first row.
fn after_row(t: &[u8]) -> &[u8]
    ensures { length result.now ≤ length t.now - 1 }
{
    after_six(after_line(t))
}

fn after_six(t: &[u8]) -> &[u8]
    ensures { length result.now ≤ length t.now }
{
    let fourth = after_line(after_line(after_line(t)));
    after_line(after_line(after_line(fourth)))
}

// Prints the line of the text's first row, and returns whether it is a row and no engine differs.
fn run_row(t: &[u8]) -> bool {
    let fifth = after_line(after_line(after_line(after_line(t))));
    let sixth = after_line(fifth);
    match (
        decimal_line(fifth, b"seal=", 65535),
        decimal_line(sixth, b"open=", 65535),
    ) {
        (Some(seal), Some(open)) => run_due(t, after_line(sixth), due(seal), due(open)),
        _ => {
            lines::print_malformed();
            false
        }
    }
}

// The refusal that a row tells: 0 is none.
fn due(told: u32) -> Option<u32> {
    (told != 0).then_some(told)
}

// The same, with the refusals that are due; `last` is the text from the row's last line on.
fn run_due(t: &[u8], last: &[u8], seal: Option<u32>, open: Option<u32>) -> bool {
    let second = after_line(t);
    let third = after_line(second);
    let fourth = after_line(third);
    let mut key = [0; 64];
    let mut block = [0; 64];
    let mut sealed = [0; 64];
    let cipher = decimal_line(t, b"cipher=", 65535);
    let rounds = decimal_line(second, b"rounds=", 65535);
    let k = pairs_line(third, b"key=", 64, &mut key);
    let b = pairs_line(fourth, b"block=", 64, &mut block);
    let s = pairs_line(last, b"sealed=", 64, &mut sealed);
    let (Some(cipher), Some(rounds), Some(k), Some(b), Some(s)) = (cipher, rounds, k, b, s) else {
        lines::print_malformed();
        return false;
    };
    lines::print_head(cipher, rounds, k, seal, open);
    let row = Row {
        cipher,
        rounds,
        seal,
        open,
        key: &key[..k],
        block: &block[..b],
        sealed: &sealed[..s],
    };
    let agrees = row.agree();
    lines::print_verdict(agrees);
    agrees
}
