// A list of bytes cut in two at a separator.
ghost use Rattle.std.specs.Prelude.{◌≡◌, ◌++◌, [], ◌∷◌, IsTrue, IfSome, IfNone, MatchOption};
ghost use Rattle.prov_base.specs.Pieces.{is_free, pieces_at};

/// What stands before the first `separator` and behind it. `None` where there is none.
pub fn split_once(bytes: &[u8], separator: u8) -> Option<(&[u8], &[u8])>
    ensures whole { IfSome result (λ parts. bytes.now ≡ parts.0.now ++ separator ∷ parts.1.now) }
    ensures pieces { MatchOption result (pieces_at separator bytes.now ≡ bytes.now ∷ [])
        (λ parts. pieces_at separator bytes.now ≡ parts.0.now ∷ pieces_at separator parts.1.now) }
    ensures none { IfNone result (IsTrue (is_free separator bytes.now)) }
{
    for (i, byte) in bytes.iter().enumerate() {
        if *byte == separator {
            return Some((&bytes[..i], &bytes[i + 1..]));
        }
    }
    None
}
