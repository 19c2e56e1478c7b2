//! Single bits of a row of bytes, the low bit of a byte first.

ghost use Rattle.std.specs.Prelude.{◌≡◌, ◌-◌, ◌*◌, ◌/◌, ◌<◌, ◌≤◌, length, IfSome};
ghost use Rattle.alignment.specs.Links.{least};
ghost use Rattle.grid.specs.Layout.{block_bytes, bit_at, filled};
ghost use Rattle.grid.specs.Blocks.{flipped};

/// Whether bit `b` is set.
pub(crate) fn is_set(bytes: &[u8], b: usize) -> bool
    requires { b / 8 < length bytes.now }
    ensures { result ≡ bit_at bytes.now b }
{
    (bytes[b / 8] >> (b % 8)) % 2 == 1
}

/// The first set bit in `from..end`. Empty bytes are passed over whole.
pub(crate) fn first_set(bytes: &[u8], from: usize, end: usize) -> Option<usize>
    requires long { block_bytes ≤ length bytes.now }
    requires end { end ≤ 8 * block_bytes }
    ensures first { result ≡ least (bit_at bytes.now) from (end - from) }
    ensures inside { IfSome result (λ b. from ≤ b × b < end) }
{
    if from >= end {
        return None;
    }
    let rest = bytes[from / 8] >> (from % 8);
    if rest % 2 == 1 {
        // In a row with many links most searches end where they begin.
        return Some(from);
    }
    let b = if rest != 0 {
        from + rest.trailing_zeros() as usize
    } else {
        let byte = first_filled(bytes, from / 8 + 1, end.div_ceil(8))?;
        8 * byte + bytes[byte].trailing_zeros() as usize
    };
    (b < end).then_some(b)
}

/// The first byte in `from..end` that has a set bit.
fn first_filled(bytes: &[u8], from: usize, end: usize) -> Option<usize>
    requires { end ≤ length bytes.now }
    ensures first { result ≡ least (filled bytes.now) from (end - from) }
    ensures inside { IfSome result (λ k. from ≤ k × k < end) }
{
    (from..end).find(|byte| bytes[*byte] != 0)
}

/// Turns bit `b` over.
pub(crate) fn flip(bytes: &mut [u8], b: usize)
    requires { b / 8 < length bytes.old }
    ensures { bytes.new ≡ flipped bytes.old b }
{
    bytes[b / 8] ^= 1 << (b % 8);
}
