ghost use Rattle.std.specs.Prelude.{◌≡◌, ◌≤◌, ◌↔◌, ◌-◌, ◌++◌, replicate, length, IsSome, IfSome};
ghost use Rattle.tlsf_calls.specs.Bytes.{bytes_of, chunk_of};

/// Up to 64 bytes, held in place.
#[derive(Clone, Copy, Debug, PartialEq, Eq)]
pub struct Chunk {
    // The bytes, and zeros behind them.
    held: [u8; 64],
    len: usize,
}

/// The bytes with zeros behind them.
fn with_zeros(bytes: &[u8]) -> [u8; 64]
    requires { length bytes.now ≤ 64 }
    ensures { result ≡ bytes.now ++ replicate (64 - length bytes.now) 0 }
{
    let mut held = [0u8; 64];
    held[..bytes.len()].copy_from_slice(bytes);
    held
}

impl Chunk {
    /// The bytes as a chunk, `None` exactly where they are more than 64.
    pub fn new(bytes: &[u8]) -> Option<Chunk>
        ensures some { IsSome result ↔ (length bytes.now ≤ 64) }
        ensures chunk { IfSome result (λ chunk. chunk ≡ chunk_of bytes.now) }
        ensures bytes { IfSome result (λ chunk. bytes_of chunk ≡ bytes.now) }
    {
        if bytes.len() > 64 {
            return None;
        }
        Some(Chunk {
            held: with_zeros(bytes),
            len: bytes.len(),
        })
    }

    /// The bytes.
    pub fn as_slice(&self) -> &[u8]
        ensures bytes { result.now ≡ bytes_of self.now }
        ensures most { length result.now ≤ 64 }
    {
        // `len` is at most 64, which no type says: `min` shows that the slice is within.
        &self.held[..self.len.min(64)]
    }
}
