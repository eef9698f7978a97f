// The run file, written by the server engine. The data is sealed in one go, into the end of the file's room; the header is written at the front, and each
// scan's bytes are brought to their place after the lines before them; the tag is made last.
// Cipher, rounds and key come one by one, as C programs hand them over and the promises name them.
// A buffer has a fixed size, and its part in use is a slice: there is no heap.
ghost use Rattle.std.specs.Prelude.{◌≡◌, length, take, drop};
ghost use Rattle.fox_key_schedule.specs.Schedule.{round_keys};
ghost use Rattle.fox_refusals.specs.Answer.{answer_of};
ghost use Rattle.fox_refusals.specs.Refusals.{block_size};
ghost use Rattle.fox_server_key.specs.Prepared.{round_keys_in};
ghost use Rattle.fox_tag.specs.Tag.{tag_with};
ghost use Rattle.fox_text.specs.Fields.{PutsPairs};
ghost use Rattle.fox_text.specs.Put.{Put};
ghost use Rattle.fox_run_file.specs.Format.{close_name, cut_by, unclosed, run_file};
ghost use Rattle.fox_run_file.specs.Promise.{WritesFileWith};
ghost use Rattle.fox_run_file.specs.Sizes.{file_size};
ghost use Rattle.fox_run_file_lay.specs.Laid.{Laid};
ghost use Rattle.fox_run_file_write.specs.Ready.{FileRoom, CloseRoom, ToWrite};

use fox_refusals::refusal::Refusal;
use fox_refusals::refusals::block_size;
use fox_run_file_lay::lay::put_scans;
use fox_run_file_lines::lines::put_key_lines;
use fox_run_file_sizes::sizes::for_write;
use fox_server_key::prepared::{Prepared, prepare};
use fox_server_run::run::stretch;
use fox_server_tag::tag::make_by;
use fox_text_write::writing::{put_decimal_line, put_pairs_line};

// Writes all that comes before the line `close`, from sealed bytes that stand at `from`; returns the place after it.
fn put_unclosed(
    out: &mut [u8],
    cipher: u32,
    rounds: u32,
    counter: &[u8],
    from: usize,
    sizes: &[u64],
) -> usize
    requires { FileRoom cipher rounds counter.now from sizes.now out.old }
    ensures { Laid 0 (file_size cipher rounds sizes.now)
        (unclosed cipher rounds counter.now (cut_by sizes.now (drop from out.old)))
        out.old out.new result }
{
    let lines = put_key_lines(out, 0, cipher, rounds);
    let header = put_pairs_line(out, lines, b"counter=", counter);
    let scans = put_scans(out, header, from, sizes);
    put_decimal_line(out, scans, b"scans=", sizes.len() as u32)
}

// Writes the line `close` after the text that is the output's first bytes; `tag` is the output for the tag, which is made, since no refusal applies. Returns
// the place after it.
fn put_tag(p: &Prepared, out: &mut [u8], at: usize, tag: &mut [u8]) -> usize
    requires close_room { CloseRoom p.now at out.old }
    requires tag_len { length tag.old ≡ block_size p.now.cipher }
    ensures { PutsPairs close_name (tag_with p.now.cipher (round_keys_in p.now) (take at out.old)) out.old out.new at result }
{
    let _ = make_by(p, &out[..at], tag);
    put_pairs_line(out, at, b"close=", tag)
}

// The same, with room of its own for the tag.
fn put_close(p: &Prepared, out: &mut [u8], at: usize) -> usize
    requires { CloseRoom p.now at out.old }
    ensures { PutsPairs close_name (tag_with p.now.cipher (round_keys_in p.now) (take at out.old)) out.old out.new at result }
{
    let mut tag = [0u8; 16];
    let size = block_size(p.cipher);
    put_tag(p, out, at, &mut tag[..size])
}

// Writes a file of `size` bytes at the start of the output; returns its length. What it is written from comes as parameters: the calls below are public with
// these, and a struct would be filled in for this one call.
fn put_file(
    p: &Prepared,
    counter: &[u8],
    input: &[u8],
    sizes: &[u64],
    out: &mut [u8],
    size: usize,
) -> usize
    requires { ToWrite p.now counter.now input.now sizes.now out.old size }
    ensures { Put size (run_file p.now.cipher p.now.rounds (round_keys_in p.now) counter.now (cut_by sizes.now input.now))
        out.old out.new 0 result }
{
    let from = size - input.len();
    let rounds = p.rounds as usize;
    stretch(
        p.cipher,
        &p.keys,
        rounds,
        counter,
        0,
        input,
        &mut out[from..size],
    );
    let end = put_unclosed(out, p.cipher, p.rounds, counter, from, sizes);
    put_close(p, out, end)
}

// From a prepared key that is lent.
fn write_by(
    p: &Prepared,
    counter: &[u8],
    input: &[u8],
    sizes: &[u64],
    out: &mut [u8],
) -> Result<usize, Refusal>
    ensures { WritesFileWith p.now.cipher p.now.rounds p.now.key_len (round_keys_in p.now) counter.now input.now sizes.now
        out.old out.new (answer_of result) }
{
    let size = for_write(
        p.cipher,
        p.rounds,
        p.key_len,
        counter.len(),
        input.len(),
        sizes,
        out.len(),
    )?;
    let count = put_file(p, counter, input, sizes, out, size);
    Ok(count)
}

// From a prepared key: the file is that of the round keys it holds, also where the caller filled it.
pub fn write(
    p: Prepared,
    counter: &[u8],
    input: &[u8],
    sizes: &[u64],
    out: &mut [u8],
) -> Result<usize, Refusal>
    ensures { WritesFileWith p.cipher p.rounds p.key_len (round_keys_in p) counter.now input.now sizes.now
        out.old out.new (answer_of result) }
{
    write_by(&p, counter, input, sizes, out)
}

// From key bytes; the key is prepared within the call, and lent: by `?` it lies in the stack twice, which is more than a call may take.
pub fn write_from_key(
    cipher: u32,
    rounds: u32,
    key: &[u8],
    counter: &[u8],
    input: &[u8],
    sizes: &[u64],
    out: &mut [u8],
) -> Result<usize, Refusal>
    ensures { WritesFileWith cipher rounds (length key.now) (round_keys cipher rounds key.now) counter.now
        input.now sizes.now out.old out.new (answer_of result) }
{
    for_write(
        cipher,
        rounds,
        key.len(),
        counter.len(),
        input.len(),
        sizes,
        out.len(),
    )?;
    match &prepare(cipher, rounds, key) {
        Ok(p) => write_by(p, counter, input, sizes, out),
        Err(refusal) => Err(*refusal),
    }
}
