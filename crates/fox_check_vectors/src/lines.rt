// The lines that are printed: one for each row, `cipher rounds key-length`, the refusals that are due, and whether every engine agrees; and at the end how many
// rows there were and how many differ.
// By the calls of `io`: std's printing rests on C functions that nothing else here trusts, takes the runtime through every function down to an engine's name, and
// answers a Result each time.
use crate::engine::Engine;

// The start of a row's line.
pub(crate) fn print_head(
    cipher: u32,
    rounds: u32,
    key_len: usize,
    seal: Option<u32>,
    open: Option<u32>,
) {
    io::print_decimal(1, cipher as u64);
    io::write_all(1, b" ");
    io::print_decimal(1, rounds as u64);
    io::write_all(1, b" ");
    io::print_decimal(1, key_len as u64);
    print_due(b" sealing refused ", seal);
    print_due(b" opening refused ", open);
}

// The refusal that is due in one direction, where one is.
fn print_due(name: &[u8], due: Option<u32>) {
    if let Some(refusal) = due {
        io::write_all(1, name);
        io::print_decimal(1, refusal as u64);
    }
}

// Names an engine that differs.
pub(crate) fn print_engine(engine: Engine, seals: bool) {
    io::write_all(1, engine.name());
    io::write_all(1, if seals { b"-seal" } else { b"-open" });
}

// The end of a row's line.
pub(crate) fn print_verdict(agrees: bool) {
    io::write_all(1, if agrees { b" ok\n" } else { b" differs\n" });
}

// The line for a text that is no row, which counts as a row that differs.
pub(crate) fn print_malformed() {
    io::write_all(1, b"malformed\n");
}

pub(crate) fn print_sum(rows: usize, differ: usize) {
    io::print_decimal(1, rows as u64);
    io::write_all(1, b" rows, ");
    io::print_decimal(1, differ as u64);
    io::write_all(1, b" differ\n");
}
