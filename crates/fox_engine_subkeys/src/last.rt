// The last block of a message with its subkey (SP 800-38B §6.1, §6.2), made of the sealed zero block, in its place, on bytes, for every block size.
ghost use Rattle.std.specs.Prelude.{◌≡◌, ◌++◌, ◌*◌, ◌≤◌, ◌<◌, length, drop};
ghost use Rattle.fox_layers.specs.Words.{xor_each};
ghost use Rattle.fox_tag.specs.Cmac.{reduction, doubled, subkey_of, keyed_block};

// XORs bytes into the front of a block. The block goes by its index for the reason that stands at `xor_bytes` of fox_engine_run: a loop by `zip` over
// `iter_mut` has no name for the block, of which the proof speaks.
fn xor_into(block: &mut [u8], part: &[u8])
    requires { length part.now ≤ length block.old }
    ensures { block.new
        ≡ xor_each block.old part.now ++ drop (length part.now) block.old }
{
    for (i, p) in part.iter().enumerate() {
        block[i] ^= *p;
    }
}

// What doubling XORs into the last byte: 1B or 87 where the bit that left, `top`, is 1, and else 0.
fn reduced(size: usize, top: u8) -> u8
    requires { top < 2 }
    ensures { result ≡ top * reduction size }
{
    if size == 8 { top * 0x1B } else { top * 0x87 }
}

// Doubles a block: every byte moves left by one bit and takes the top bit of the next. The loop counts an index, since the proof of one over
// `iter_mut().rev()`, which carries the bit, did not close.
fn double(block: &mut [u8])
    requires { 1 ≤ length block.old }
    ensures { block.new ≡ doubled (length block.old) block.old }
{
    let last = block.len() - 1;
    let top = block[0] / 128;
    for i in 0..last {
        block[i] = (block[i] % 128) * 2 + block[i + 1] / 128;
    }
    block[last] = ((block[last] % 128) * 2) ^ reduced(block.len(), top);
}

// Turns the sealed zero block into a subkey: the first for a whole last block, the second for any other.
fn subkey(block: &mut [u8], whole: bool)
    requires { 1 ≤ length block.old }
    ensures { block.new ≡ subkey_of (length block.old) block.old whole }
{
    double(block);
    if !whole {
        double(block);
    }
}

// Turns the sealed zero block into the message's last block, filled up and XORed with its subkey. `part` is what that block has of the message.
pub fn last_block(block: &mut [u8], part: &[u8])
    requires { (1 ≤ length block.old) × (length part.now ≤ length block.old) }
    ensures { block.new ≡ keyed_block (length block.old) block.old part.now }
{
    subkey(block, part.len() == block.len());
    xor_into(block, part);
    if part.len() < block.len() {
        block[part.len()] ^= 0x80;
    }
}
