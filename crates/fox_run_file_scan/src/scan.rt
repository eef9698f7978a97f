// A scan at the start of a text, all whole scans from a place on, and whether what follows a file's header is right.
ghost use Rattle.std.specs.Prelude.{◌≡◌, length};
ghost use Rattle.fox_run_file.specs.Sizes.{header_size, block_line_size};
ghost use Rattle.fox_run_file.specs.Format.{close_name};
ghost use Rattle.fox_run_file.specs.Says.{is_rest};
ghost use Rattle.fox_run_file.specs.Parts.{FindsScan, PassesScans};

use fox_run_file::scan::{Scan, Scans};
use fox_run_file_lines::lines::{end_fits, number_line};
use fox_text_lines::lines::{line_end, rest, starts_with};
use fox_text_read::fields::decimal_line;

// Looks for the scan with this number at the start of a text.
pub fn scan_at(t: &[u8], number: u32) -> Option<Scan>
    ensures { FindsScan number t.now result }
{
    let n = number_line(t, b"scan=", number)?;
    let second = rest(t, n);
    let size = decimal_line(second, b"bytes=", 65_536)? as usize;
    let head = n + line_end(second) + 1;
    let bytes = rest(t, head);
    starts_with(b"\n", rest(bytes, size)).then_some(Scan { head, size })
}

// Passes over the whole scans from a place on, at most 65,535 of them, by the number that the first line of each has.
pub fn pass_scans(file: &[u8], from: usize) -> Scans
    ensures { PassesScans file.now from result }
{
    let mut at = from;
    // By its number, which the scan's line has to say, and which is the count once a scan is missing.
    for number in 0..65_535 {
        let Some(s) = scan_at(rest(file, at), number as u32 + 1) else {
            return Scans { at, number };
        };
        at = at + s.head + s.size + 1;
    }
    Scans { at, number: 65_535 }
}

// Whether what comes after the header, of `header` bytes, is right. A file past the limit is told by its length alone; the close line has `close` bytes.
pub fn rest_fits(file: &[u8], cipher: u32, rounds: u32, header: usize, close: usize) -> bool
    requires { (header ≡ header_size cipher rounds) × (close ≡ block_line_size close_name cipher) }
    ensures { result ≡ is_rest cipher rounds file.now }
{
    if file.len() > 1_073_741_824 + close {
        return false;
    }
    let scans = pass_scans(file, header);
    end_fits(rest(file, scans.at), cipher, scans.number as u32)
}
