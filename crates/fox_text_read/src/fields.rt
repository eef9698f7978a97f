// Reads a text's first line, which is to be a name and a value. The functions `.._in` do not ask for the line feed that ends it, and `decimal_in` does not ask
// for the name, but passes over as many bytes.
ghost use Rattle.std.specs.Prelude.{◌≤◌, length};
ghost use Rattle.fox_text.specs.Lines.{line};
ghost use Rattle.fox_text.specs.Decimal.{Found, decimal_of, is_decimal};
ghost use Rattle.fox_text.specs.Fields.{ReadsDecimal, ReadsPairs, TakesPairs, value_text};

use crate::decimal::read_decimal;
use crate::hex::{is_pairs, join_pairs};
use fox_text_lines::lines::{first_line, has_line, rest, starts_with};

pub fn decimal_in(t: &[u8], name: &[u8], most: u32) -> Option<u32>
    ensures { let v = value_text name.now (line t.now) in Found (is_decimal most v) (decimal_of v) result }
{
    read_decimal(rest(first_line(t), name.len()), most)
}

pub fn decimal_line(t: &[u8], name: &[u8], most: u32) -> Option<u32>
    ensures { ReadsDecimal most name.now t.now result }
{
    if has_line(t) & starts_with(name, first_line(t)) {
        return decimal_in(t, name, most);
    }
    None
}

// How many bytes the pairs are; they are written at the start of the output.
pub fn pairs_in(t: &[u8], name: &[u8], most: usize, out: &mut [u8]) -> Option<usize>
    requires { most ≤ length out.old }
    ensures { TakesPairs most name.now (line t.now) out.old out.new result }
{
    let line = first_line(t);
    let ds = rest(line, name.len());
    if starts_with(name, line) & is_pairs(ds, most) {
        join_pairs(ds, out);
        return Some(ds.len() / 2);
    }
    None
}

pub fn pairs_line(t: &[u8], name: &[u8], most: usize, out: &mut [u8]) -> Option<usize>
    requires { most ≤ length out.old }
    ensures { ReadsPairs most name.now t.now out.old out.new result }
{
    let count = pairs_in(t, name, most, out);
    if has_line(t) { count } else { None }
}
