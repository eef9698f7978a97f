// Scans written from a place on, from sealed bytes that stand further back in the same buffer. What is written never reaches the bytes that are still to be moved.
ghost use Rattle.std.specs.Prelude.{◌+◌, ◌≤◌, length, take, drop};
ghost use Rattle.fox_run_file.specs.Format.{cut_by, scan_text, scans_text};
ghost use Rattle.fox_run_file.specs.Sizes.{total};
ghost use Rattle.fox_run_file_lay.specs.Laid.{Laid, ScanRoom, Room};

use fox_text_write::writing::{put, put_decimal_line};

// Writes a scan whose sealed bytes stand at `src`; returns the place after it.
fn put_scan(out: &mut [u8], at: usize, src: usize, number: u32, size: usize) -> usize
    requires { ScanRoom at src number size out.old }
    ensures { Laid at (src + size) (scan_text number (take size (drop src out.old))) out.old out.new result }
{
    let a = put_decimal_line(out, at, b"scan=", number);
    let b = put_decimal_line(out, a, b"bytes=", size as u32);
    out.copy_within(src..src + size, b);
    put(out, b + size, b"\n")
}

// Writes the scans of these lengths, whose sealed bytes stand one after the other at `src`; returns the place after the last.
pub fn put_scans(out: &mut [u8], at: usize, src: usize, sizes: &[u64]) -> usize
    requires { Room at src sizes.now out.old }
    ensures { Laid at (src + total sizes.now) (scans_text 0 (cut_by sizes.now (drop src out.old)))
        out.old out.new result }
{
    let mut to = at;
    let mut from = src;
    for (i, size) in sizes.iter().enumerate() {
        let size = *size as usize;
        to = put_scan(out, to, from, i as u32 + 1, size);
        from += size;
    }
    to
}
