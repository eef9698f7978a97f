// The answer to a bench sheet, by the card engine.
// A buffer has a fixed size, and its part in use is a slice: there is no heap.
ghost use Rattle.std.specs.Prelude.{◌≤◌, length};
ghost use Rattle.fox_text.specs.Put.{Put};
ghost use Rattle.fox_sheet.specs.Answer.{Answers, Room, values_from, block_text, broken_text, served_text};

use fox_card_block::block::turn;
use fox_sheet_read::sheet::{read_settings, read_task};
use fox_text_lines::lines::after_line;
use fox_text_write::writing::{put_decimal_line, put_pairs_line};

// The size of an answer's buffer in bytes.
pub const ROOM: usize = 128;

fn put_broken(line: u32, out: &mut [u8]) -> usize
    requires { 125 ≤ length out.old }
    ensures { Put 125 (broken_text line) out.old out.new 0 result }
{
    let at = put_decimal_line(out, 0, b"refusal=", 8);
    put_decimal_line(out, at, b"line=", line)
}

fn put_served(cipher: u32, rounds: u32, key: usize, block: &[u8], out: &mut [u8]) -> usize
    requires { Room key block.now out.old }
    ensures { Put 125 (served_text cipher rounds key block.now) out.old out.new 0 result }
{
    let a = put_decimal_line(out, 0, b"refusal=", 0);
    let b = put_decimal_line(out, a, b"cipher=", cipher);
    let c = put_decimal_line(out, b, b"rounds=", rounds);
    let d = put_decimal_line(out, c, b"keybits=", (key * 8) as u32);
    put_pairs_line(out, d, b"block=", block)
}

fn answer_block(
    sealing: bool,
    cipher: u32,
    rounds: u32,
    key: &[u8],
    block: &[u8],
    out: &mut [u8],
) -> usize
    requires { Room (length key.now) block.now out.old }
    ensures { Put 125 (block_text (values_from sealing cipher rounds key.now block.now)) out.old out.new 0 result }
{
    let mut room = [0; 32];
    let turned = &mut room[..block.len()];
    match turn(sealing, cipher, rounds, key, block, turned) {
        Ok(_) => put_served(cipher, rounds, key.len(), turned, out),
        Err(refusal) => put_decimal_line(out, 0, b"refusal=", refusal.number()),
    }
}

// Every byte that the bench program prints for the sheet, at the start of the output; returns their count.
pub fn answer(sheet: &[u8], out: &mut [u8; ROOM]) -> usize
    ensures { Answers sheet.now out.old out.new result }
{
    let mut key = [0; 64];
    let s = match read_settings(sheet, &mut key) {
        Ok(settings) => settings,
        Err(line) => return put_broken(line, out),
    };
    let fourth = after_line(after_line(after_line(sheet)));
    let mut block = [0; 32];
    let t = match read_task(fourth, &mut block) {
        Ok(task) => task,
        Err(line) => return put_broken(line, out),
    };
    answer_block(
        t.sealing,
        s.cipher,
        s.rounds,
        &key[..s.size],
        &block[..t.size],
        out,
    )
}
