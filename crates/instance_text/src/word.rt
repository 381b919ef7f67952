//! Words as bytes.
ghost use Rattle.std.specs.Prelude.{◌≡◌};
ghost use Rattle.text_terms.specs.Lines.{same_bytes};

/// Whether the words are the same.
#[inline]
pub fn is_same(word: &[u8], key: &[u8]) -> bool
    ensures { result ≡ same_bytes word.now key.now }
{
    word == key
}
