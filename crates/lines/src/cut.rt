//! Bytes cut at a byte.
ghost use Rattle.std.specs.Prelude.{◌≡◌, ◌==◌, [], ◌∷◌, MatchOption};
ghost use Rattle.std.specs.List.{position};
ghost use Rattle.lines.specs.Parts.{parts, CutAt};

/// Where the byte `b` first stands.
fn find_byte(bytes: &[u8], b: u8) -> Option<usize>
    ensures { result ≡ position (λ x. x == b) bytes.now }
{
    bytes.iter().position(|x| *x == b)
}

/// What stands before the first byte `b`, and what stands behind it.
pub(crate) fn cut_at(bytes: &[u8], b: u8) -> Option<(&[u8], &[u8])>
    ensures { MatchOption result (parts b bytes.now ≡ bytes.now ∷ []) (λ p. CutAt b bytes.now p.0.now p.1.now) }
{
    let n = find_byte(bytes, b)?;
    Some((&bytes[0..n], &bytes[n + 1..]))
}
