// Pairs of upper-case hex digits, read from a text of any length.
ghost use Rattle.std.specs.Prelude.{◌≡◌, true};
ghost use Rattle.std.specs.List.{list_all};
ghost use Rattle.std.proofs.lemmas.List.Edits.{sets};
ghost use Rattle.fox_text.specs.Hex.{Joins, is_hex, is_pairs, nibble, pairs_of};

pub fn is_hex(d: u8) -> bool
    ensures { result ≡ is_hex d }
{
    matches!(d, b'0'..=b'9' | b'A'..=b'F')
}

fn all_hex(ds: &[u8]) -> bool
    ensures { result ≡ list_all is_hex ds.now }
{
    ds.iter().all(|d| is_hex(*d))
}

// Whether the digits are pairs of hex digits, at most `most` of them.
pub fn is_pairs(ds: &[u8], most: usize) -> bool
    ensures { result ≡ is_pairs most ds.now }
{
    (ds.len() % 2 == 0) & (ds.len() / 2 <= most) & all_hex(ds)
}

fn nibble(d: u8) -> u8
    requires { is_hex d ≡ true }
    ensures { result ≡ nibble d }
{
    if d < b'A' { d - b'0' } else { d - b'A' + 10 }
}

// Writes the bytes of the pairs at the start of the output, and nothing past them.
pub fn join_pairs(ds: &[u8], out: &mut [u8])
    requires { Joins ds.now out.old }
    ensures { out.new ≡ sets out.old 0 (pairs_of ds.now) }
{
    // By the pair's index: tried `zip` over `out.iter_mut()` and the chunks: the proof does not close, since it knows nothing of a place that `zip` lends.
    for (i, pair) in ds.chunks_exact(2).enumerate() {
        out[i] = nibble(pair[0]) * 16 + nibble(pair[1]);
    }
}
