ghost use Rattle.std.specs.Prelude.{◌≡◌, IfSome, find, option_map, true};
ghost use Rattle.slot_graph.specs.Kernel.{has_front, has_word, is_gap, value_behind, kernel_words};

fn is_gap(byte: u8) -> bool
    ensures { result ≡ is_gap byte }
{
    byte == b' ' || byte == b'\t' || byte == b'\n'
}

/// Whether this is one of the words of a command line.
pub fn has_word(line: &[u8], word: &[u8]) -> bool
    ensures { result ≡ has_word line.now word.now }
{
    line.split(|byte| is_gap(*byte)).any(|other| other == word)
}

fn has_front(word: &[u8], front: &[u8]) -> bool
    ensures { result ≡ has_front front.now word.now }
{
    word.starts_with(front)
}

// The first word of a command line that begins with this front.
fn first_word<'a>(line: &'a [u8], front: &[u8]) -> Option<&'a [u8]>
    ensures found { option_map (λ word. word.now) result ≡ find (has_front front.now) (kernel_words line.now) }
    ensures front { IfSome result (λ word. has_front front.now word.now ≡ true) }
{
    line.split(|byte| is_gap(*byte))
        .find(|word| has_front(word, front))
}

/// What follows this front in the first word of a command line that begins with it.
pub fn value_behind<'a>(line: &'a [u8], front: &[u8]) -> Option<&'a [u8]>
    ensures { option_map (λ value. value.now) result ≡ value_behind line.now front.now }
{
    first_word(line, front)?.strip_prefix(front)
}
