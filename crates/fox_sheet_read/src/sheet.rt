// The sheet's five lines, read in two steps: the settings (cipher, rounds and key), and the task (way and block, with nothing after them). Each step answers
// what the lines say, or the number of the first line that breaks its rule. That number is the error itself, a plain u32 and no kind: it is what is printed.
ghost use Rattle.fox_sheet.specs.Reading.{ReadsSettings, ReadsTask, ReadsWay};

use fox_sheet::sheet::{Settings, Task};
use fox_text_lines::lines::{after_line, first_line, has_line, same};
use fox_text_read::fields::{decimal_line, pairs_line};

// The key's bytes are written wherever its line is well-formed, also where an earlier line is not.
pub fn read_settings(sheet: &[u8], key: &mut [u8; 64]) -> Result<Settings, u32>
    ensures { ReadsSettings sheet.now key.old key.new result }
{
    let second = after_line(sheet);
    let third = after_line(second);
    let bytes = pairs_line(third, b"key=", 64, key);
    let cipher = decimal_line(sheet, b"cipher=", 65535).ok_or(1u32)?;
    let rounds = decimal_line(second, b"rounds=", 65535).ok_or(2u32)?;
    let size = bytes.ok_or(3u32)?;
    Ok(Settings {
        cipher,
        rounds,
        size,
    })
}

// Whether the way is to seal.
fn way_line(t: &[u8]) -> Option<bool>
    ensures { ReadsWay t.now result }
{
    let line = first_line(t);
    if !has_line(t) {
        return None;
    }
    if same(b"way=seal", line) {
        return Some(true);
    }
    if same(b"way=open", line) {
        return Some(false);
    }
    None
}

// Reads what follows the first three lines. The block's bytes are written wherever their line is well-formed.
pub fn read_task(t: &[u8], block: &mut [u8; 32]) -> Result<Task, u32>
    ensures { ReadsTask t.now block.old block.new result }
{
    let fifth = after_line(t);
    let sixth = after_line(fifth);
    let bytes = pairs_line(fifth, b"block=", 32, block);
    let sealing = way_line(t).ok_or(4u32)?;
    let size = bytes.ok_or(5u32)?;
    if !sixth.is_empty() {
        return Err(6);
    }
    Ok(Task { sealing, size })
}
