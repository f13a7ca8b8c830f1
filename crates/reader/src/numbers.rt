// Numbers as they stand in the bytes: one byte, or two with the low one first.
ghost use Rattle.std.specs.Prelude.{◌≡◌, ◌+◌, ◌<◌, length};
ghost use Rattle.reader.specs.Bytes.{byte_at, number_at};

// The byte at a place. Inner: the byte is there.
pub fn byte_at(t: &[u8], at: usize) -> usize
    requires { at < length t.now }
    ensures { result ≡ byte_at t.now at }
{
    usize::from(t[at])
}

// The number in the two bytes at a place. Inner: the bytes are there.
#[tactic(auto, unfolding(crate::specs::Bytes::number_at))]
pub fn number_at(t: &[u8], at: usize) -> usize
    requires { at + 1 < length t.now }
    ensures { result ≡ number_at t.now at }
{
    usize::from(u16::from_le_bytes([t[at], t[at + 1]]))
}
