// Plays the calls on sessions that its input lists, and prints what each told. A session begins with five lines, `way` (`seal` or `open`), `cipher`, `rounds`,
// `key` and `counter`; a line `advance` has the next bytes, and a line `move` a position. What is printed for the file `stdin` is compared with the file `stdout`, which was written by the
// plain machine of the second implementation.
#![tactic(auto)]

ghost use Rattle.std.specs.Prelude.{◌-◌, ◌≤◌, length};

use crate::out::Out;
use crate::told::Told;
use fox_refusals::refusal::Refusal;
use fox_server_key::prepared::prepare;
use fox_server_session::session::Session;
use fox_text_lines::lines::{after_line, starts_with};
use fox_text_read::fields::{decimal_in, decimal_line, pairs_in, pairs_line};
use std::fmt;
use std::fmt::Write;

mod out;
mod told;

// Where nothing more can be printed, nothing more is played.
fn main() {
    let mut text = io::large_buffer();
    let n = io::read_full(0, &mut text);
    let _ = play(&mut Out, &text[..n]);
}

// Plays from the text's first line to its last. A loop by hand: how many lines a call has shows only where it is read. `successors` would take this step and this
// test in two closures, and is no plainer.
fn play(out: &mut Out, text: &[u8]) -> fmt::Result {
    let mut session = Session::none();
    let mut left = text;
    while !left.is_empty() {
        play_call(out, &mut session, left)?;
        left = after_call(left);
    }
    Ok(())
}

// What follows the text's first call.
fn after_call(t: &[u8]) -> &[u8]
    ensures { length result.now ≤ length t.now - 1 }
{
    let second = after_line(t);
    if starts_with(b"way=", t) {
        let fourth = after_line(after_line(second));
        return after_line(after_line(fourth));
    }
    second
}

// Plays the text's first call.
fn play_call(out: &mut Out, session: &mut Session, t: &[u8]) -> fmt::Result {
    if starts_with(b"way=", t) {
        *session = play_start(out, t)?;
        return Ok(());
    }
    if starts_with(b"move=", t) {
        return play_move(out, session, t);
    }
    play_advance(out, session, t)
}

// From a prepared key, or where that is refused, from key bytes.
fn begin(
    sealing: bool,
    cipher: u32,
    rounds: u32,
    key: &[u8],
    counter: &[u8],
) -> Result<Session, Refusal> {
    match prepare(cipher, rounds, key) {
        Ok(prepared) => Session::start(sealing, prepared, counter),
        Err(_) => Session::start_from_key(sealing, cipher, rounds, key, counter),
    }
}

fn play_start(out: &mut Out, t: &[u8]) -> Result<Session, fmt::Error> {
    let second = after_line(t);
    let third = after_line(second);
    let fourth = after_line(third);
    let fifth = after_line(fourth);
    let sealing = starts_with(b"way=seal\n", t);
    let mut key = [0; 64];
    let mut counter = [0; 64];
    let known = sealing | starts_with(b"way=open\n", t);
    let settings = decimal_line(second, b"cipher=", 65535).is_some()
        & decimal_line(third, b"rounds=", 65535).is_some();
    let bytes = pairs_line(fourth, b"key=", 64, &mut key).is_some()
        & pairs_line(fifth, b"counter=", 64, &mut counter).is_some();
    if !(known & settings & bytes) {
        writeln!(out, "malformed")?;
    }
    let cipher = decimal_in(second, b"cipher=", 65535).unwrap_or(0);
    let rounds = decimal_in(third, b"rounds=", 65535).unwrap_or(0);
    let key = bytes_in(fourth, b"key=", &mut key);
    let counter = bytes_in(fifth, b"counter=", &mut counter);
    let started = begin(sealing, cipher, rounds, key, counter);
    let session = started.unwrap_or(Session::none());
    let told = Told::of(started.map(|_| 0), &session);
    let way = if sealing { "seal" } else { "open" };
    let size = key.len();
    writeln!(out, "start {way} {cipher} {rounds} {size}:{told}")?;
    Ok(session)
}

// The bytes that a line tells in pairs of digits; none where it tells none.
fn bytes_in<'a>(t: &[u8], name: &[u8], room: &'a mut [u8; 64]) -> &'a [u8] {
    let n = pairs_in(t, name, 64, &mut room[..]).unwrap_or(0);
    &room[..n]
}

fn play_move(out: &mut Out, session: &mut Session, t: &[u8]) -> fmt::Result {
    let Some(to) = decimal_line(t, b"move=", 4294967295) else {
        return writeln!(out, "malformed");
    };
    let answer = session.move_to(u64::from(to));
    let told = Told::of(answer, session);
    writeln!(out, "  move{told}")
}

fn play_advance(out: &mut Out, session: &mut Session, t: &[u8]) -> fmt::Result {
    let mut input = [0; 128];
    let Some(n) = pairs_line(t, b"advance=", 128, &mut input) else {
        return writeln!(out, "malformed");
    };
    let mut shown = [0; 128];
    let answer = session.advance(&input[..n], &mut shown[..n]);
    let told = Told::of(answer, session);
    write!(out, "  advance{told} output=")?;
    for b in &shown[..n] {
        write!(out, "{b:02x}")?;
    }
    writeln!(out)
}
