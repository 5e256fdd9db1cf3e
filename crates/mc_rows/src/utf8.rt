ghost use Rattle.std.specs.Prelude.{◌≡◌, ◌<◌, IfNone, IfSome, IsUtf8, length};
ghost use Rattle.std.specs.Str.Lossy.{utf8_valid_len};

/// How long the longest prefix that is UTF-8 is, in bytes, where the text isn't UTF-8 itself.
pub(crate) fn valid_prefix(text: &[u8]) -> Option<usize>
    ensures utf8 { IfNone result (IsUtf8 text.now) }
    ensures length { IfSome result (λ valid.
        (valid ≡ utf8_valid_len text.now) × (valid < length text.now)) }
{
    match simdutf8::compat::from_utf8(text) {
        Ok(_) => None,
        Err(error) => Some(error.valid_up_to()),
    }
}
