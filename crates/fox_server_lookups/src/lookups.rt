// Lookups in an array of tables that is passed by reference (001 §2.2.6, §4.2.2).
//
// A lookup's promise holds for any tables. In the shifted S-box (TBS) a lookup is sigma, and in the joined S-box/diffusion tables (TBSM) of a matrix it is mu
// after sigma: so say the laws picked-TBS, picked-mu4 and picked-mu8.
//
// A word's byte is taken by a remainder or by a mask. The mask is 255, and comes in as a number that the compiler cannot know. The compiler joins a remainder
// with the scaling of the index, which on Arm takes two instructions for a byte; by the mask it takes one. Which bytes go by the mask is settled by counting
// instructions on both processors and by timing (docs/SPEED.md, "What was tried").
ghost use Rattle.std.specs.Prelude.{◌≡◌, ◌/◌, ◌%◌, ◌^◌, ◌<◌, [], ◌∷◌};
ghost use Rattle.fox_layers.specs.Words.{xor_over};
ghost use Rattle.fox_layers.specs.Tables.{TBS, picked};
ghost use Rattle.fox_server_lookups.specs.Entry.{entry};

// The mask of a byte. The last table of the shifted S-box, at entry 300 (hex), is the S-box itself, which has FF at F9.
pub fn byte_mask(s: &[u32; 1024]) -> u32
    requires { s.now ≡ TBS 4 }
    ensures { result ≡ 255 }
{
    s[0x3F9]
}

// The last byte of a word: by a remainder, and by the mask.
fn last(w: u64) -> usize
    ensures { result ≡ w % 256 }
{
    (w % 256) as usize
}

fn under(mask: u32, w: u64) -> usize
    requires { mask ≡ 255 }
    ensures { result ≡ w % 256 }
{
    (w & (mask as u64)) as usize
}

// The entries of four tables, each at a byte of its own, XORed.
fn four(t: &[u32; 1024], a: usize, b: usize, c: usize, d: usize) -> u32
    requires { (a < 256) × (b < 256) × (c < 256) × (d < 256) }
    ensures { result ≡ xor_over (entry t.now) (0 ∷ 1 ∷ 2 ∷ 3 ∷ []) (a ∷ b ∷ c ∷ d ∷ []) }
{
    t[a] ^ t[0x100 + b] ^ t[0x200 + c] ^ t[0x300 + d]
}

pub fn pick4(t: &[u32; 1024], mask: u32, w: u32) -> u32
    requires { mask ≡ 255 }
    ensures { result ≡ picked 4 t.now w }
{
    four(
        t,
        last((w / 0x0100_0000) as u64),
        under(mask, (w / 0x0001_0000) as u64),
        last((w / 0x0000_0100) as u64),
        under(mask, w as u64),
    )
}

// A function over entries of either width would have to speak of them as numbers, and say more than these eight.
pub fn pick8(t: &[u64; 2048], mask: u32, w: u64) -> u64
    requires { mask ≡ 255 }
    ensures { result ≡ picked 8 t.now w }
{
    t[last(w / 0x0100_0000_0000_0000)]
        ^ t[0x100 + under(mask, w / 0x0001_0000_0000_0000)]
        ^ t[0x200 + under(mask, w / 0x0000_0100_0000_0000)]
        ^ t[0x300 + under(mask, w / 0x0000_0001_0000_0000)]
        ^ t[0x400 + under(mask, w / 0x0000_0000_0100_0000)]
        ^ t[0x500 + last(w / 0x0000_0000_0001_0000)]
        ^ t[0x600 + last(w / 0x0000_0000_0000_0100)]
        ^ t[0x700 + last(w)]
}

// The left half, and the right half, of a word of eight bytes, looked up in four tables. The bytes are taken from the whole word, and other bytes go by the mask
// than in `pick4` and in one another: docs/SPEED.md says what each way costs.
pub fn pick_left(t: &[u32; 1024], mask: u32, w: u64) -> u32
    requires { mask ≡ 255 }
    ensures { result ≡ picked 4 t.now (w / 2 ^ 32) }
{
    four(
        t,
        last(w / 0x0100_0000_0000_0000),
        under(mask, w / 0x0001_0000_0000_0000),
        under(mask, w / 0x0000_0100_0000_0000),
        under(mask, w / 0x0000_0001_0000_0000),
    )
}

pub fn pick_right(t: &[u32; 1024], mask: u32, w: u64) -> u32
    requires { mask ≡ 255 }
    ensures { result ≡ picked 4 t.now (w % 2 ^ 32) }
{
    four(
        t,
        last(w / 0x0000_0000_0100_0000),
        under(mask, w / 0x0000_0000_0001_0000),
        last(w / 0x0000_0000_0000_0100),
        last(w),
    )
}
