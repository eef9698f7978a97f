// Runs one row by every engine, sealing and opening.
ghost use Rattle.std.specs.Prelude.{◌≤◌, length};

use crate::engine::Engine;
use crate::lines;
use fox_text_lines::lines::{same, starts_with};

const PAINT: u8 = 0xA5;

// What a row says: a block and what it is sealed into, and the numbers of the refusals that are due.
#[derive(Clone, Copy)]
pub(crate) struct Row<'a> {
    pub(crate) cipher: u32,
    pub(crate) rounds: u32,
    pub(crate) seal: Option<u32>,
    pub(crate) open: Option<u32>,
    pub(crate) key: &'a [u8],
    pub(crate) block: &'a [u8],
    pub(crate) sealed: &'a [u8],
    ghost short: { (length block.now ≤ 64) × (length sealed.now ≤ 64) },
}

// What is asked of an engine, and the number of the refusal that is due.
#[derive(Clone, Copy)]
struct Call {
    engine: Engine,
    seals: bool,
    due: Option<u32>,
}

impl Row<'_> {
    // Prints the engines that differ from what the row says, and returns whether none does.
    pub(crate) fn agree(&self) -> bool {
        let mut agrees = true;
        for engine in Engine::ALL {
            agrees &= self.undoes(engine);
        }
        agrees
    }

    // Whether sealing gives the sealed block, and opening gives the block back, or each is refused as is due. Where opening is refused there is nothing sealed
    // to open: it gets the block, and `sealed` has only the output's length.
    fn undoes(&self, engine: Engine) -> bool {
        let seals = Call {
            engine,
            seals: true,
            due: self.seal,
        };
        let opens = Call {
            engine,
            seals: false,
            due: self.open,
        };
        if self.open.is_some() {
            return self.tries(seals, self.block, self.sealed)
                & self.tries(opens, self.block, self.sealed);
        }
        self.tries(seals, self.block, self.sealed) & self.tries(opens, self.sealed, self.block)
    }

    // Whether a call turns `from` into `to`, or is refused and leaves its output as it was: the output is painted first, so that a change shows.
    fn tries(&self, c: Call, from: &[u8], to: &[u8]) -> bool
        requires { length to.now ≤ 64 }
    {
        let mut out = [PAINT; 64];
        let right = self.puts(c, from, to, &mut out[..to.len()]);
        if !right {
            lines::print_engine(c.engine, c.seals);
        }
        right
    }

    fn puts(&self, c: Call, from: &[u8], to: &[u8], out: &mut [u8]) -> bool {
        match c
            .engine
            .turn(c.seals, self.cipher, self.rounds, self.key, from, out)
        {
            Ok(count) => c.due.is_none() & (count == out.len()) & same(out, to),
            Err(refusal) => (c.due == Some(refusal.number())) & starts_with(out, &[PAINT; 64]),
        }
    }
}
