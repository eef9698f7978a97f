// A session on a run: what its calls promise (specs/), and the theorems on lists of calls (proofs/). The code is in the crates above; here are the structs that
// they pass on.
#![tactic(auto)]

ghost use Rattle.std.specs.Prelude.{◌≡◌};
ghost use Rattle.fox_session.specs.InUse.{bytes_in};

use fox_bytes::bytes::{load, store};

// A block in two words, the most significant byte first; a block of FOX64 is in the left one.
#[derive(Clone, Copy)]
pub struct Pair {
    pub left: u64,
    pub right: u64,
}

impl From<[u8; 16]> for Pair {
    ghost from_gives = { λ bytes w. bytes_in w ≡ bytes };

    fn from(bytes: [u8; 16]) -> Pair {
        Pair {
            left: load(&bytes, 0),
            right: load(&bytes, 8),
        }
    }
}

impl From<Pair> for [u8; 16] {
    ghost from_gives = { λ w bytes. bytes ≡ bytes_in w };

    fn from(w: Pair) -> [u8; 16] {
        let mut bytes = [0; 16];
        store(&mut bytes, w.left);
        store(&mut bytes[8..], w.right);
        bytes
    }
}

// Where a session stands in its run: the position, and the block in use, which is the sealed counter block that the position is in.
#[derive(Clone, Copy)]
pub struct Here {
    pub position: u64,
    pub block: Pair,
}
