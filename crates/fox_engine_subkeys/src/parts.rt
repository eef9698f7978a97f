// The parts of a message that a tag goes over (SP 800-38B §6.2): its blocks, of which the last may be short or empty.
ghost use Rattle.std.specs.Prelude.{◌≡◌, ◌+◌, ◌*◌, ◌≤◌, length};
ghost use Rattle.fox_tag.specs.Cmac.{blocks_before, block_at, last_at};

// How many blocks stand before a message's last one. The empty message has one block, an empty one.
pub fn blocks_before(message: &[u8], size: usize) -> usize
    requires { 1 ≤ size }
    ensures { result ≡ blocks_before size message.now }
{
    message.len().saturating_sub(1) / size
}

// Block number i, which lies within the message.
pub fn block_part(message: &[u8], size: usize, i: usize) -> &[u8]
    requires { (i + 1) * size ≤ length message.now }
    ensures { (result.now ≡ block_at size message.now i) × (length result.now ≡ size) }
{
    let at = i * size;
    &message[at..at + size]
}

// The last block, as much of it as the message has.
pub fn last_part(message: &[u8], size: usize) -> &[u8]
    requires { 1 ≤ size }
    ensures { (result.now ≡ last_at size message.now) × (length result.now ≤ size) }
{
    let at = blocks_before(message, size) * size;
    &message[at..]
}
