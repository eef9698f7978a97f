// The shifted S-box (TBS) of a word of four bytes (001 §4.2.2): four tables, one after the other, with the S-box shifted to each of the four bytes, so that
// substitution is an XOR of lookups. They are computed from the S-box.
ghost use Rattle.std.specs.Prelude.{◌≡◌};
ghost use Rattle.fox_layers.specs.Tables.{TBS};

use fox_engine_sbox::sbox::sbox;

pub fn tbs() -> [u32; 1024]
    ensures { result ≡ TBS 4 }
{
    let s = sbox();
    let mut t = [0; 1024];
    for (i, entry) in t.iter_mut().enumerate() {
        *entry = u32::from(s[i % 256]) << (24 - i / 256 * 8);
    }
    t
}
