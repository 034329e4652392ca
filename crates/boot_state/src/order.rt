ghost use Rattle.std.specs.Prelude.{◌≡◌};
ghost use Rattle.boot_state.specs.Orders as spec;

/// Whether a byte stands between the words of an order: a space or a tab.
pub fn is_blank(byte: u8) -> bool
    ensures { result ≡ spec.is_blank byte }
{
    byte == b' ' || byte == b'\t'
}

/// Whether a word stands in an order. An empty one stands in none.
pub fn has_word(order: &[u8], word: &[u8]) -> bool
    ensures { result ≡ spec.has_word (spec.words_between spec.is_blank order.now) word.now }
{
    order
        .split(|byte| is_blank(*byte))
        .filter(|other| !other.is_empty())
        .any(|other| other == word)
}
