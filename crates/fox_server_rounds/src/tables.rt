// The tables of the server engine (001 §4.2.2), passed by reference, so that they are neither built nor copied where a round looks into them.
ghost use Rattle.std.specs.Prelude.{◌≡◌, ℕ, List};
ghost use Rattle.fox_layers.specs.Tables.{TBSM};
ghost use Rattle.fox_server_rounds.specs.Tables.{TablesOf};

use fox_rounds::block::Block;

// A block of a cipher that has joined S-box/diffusion tables (TBSM).
pub trait Joined: Block {
    // The joined tables, one after the other.
    type Tables: Drop;

    // The matrix that they are joined with, and their entries.
    ghost rows: { List (List ℕ) };

    ghost entries: { Self.Tables → List ℕ };

    fn joined() -> Self::Tables
        ensures { entries result ≡ TBSM rows };
}

// The shifted S-box (TBS) and the joined tables of a cipher.
#[derive(Drop)]
pub struct Tables<'a, B: Joined> {
    pub s: &'a [u32; 1024],
    pub t: &'a B::Tables,
    ghost rule: { TablesOf B.rows s.now (B.entries t.now) },
}
