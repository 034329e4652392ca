ghost use Rattle.std.specs.Prelude.{◌≡◌, ◌<◌, ◌==◌, ◌++◌, ◌∷◌, [], IfOk, OnOk};
ghost use Rattle.boot_state.specs.Orders as spec;
ghost use Rattle.boot_commands.specs.NewWords.{new_words, word_if_any};

use boot_model::Vars;
use boot_state::has_name;
use std::alloc::Global;
use updater_text::{Items, NoMemory, Text};

/// The words of the order in this variable, between spaces and tabs. One that is missing has none.
pub fn words_at(alloc: Global, vars: &Vars, name: &str) -> Result<Items<Text>, NoMemory>
    ensures { IfOk result (λ words. words ≡ spec.words_at vars.now name.now) }
{
    match vars.get(name) {
        Some(order) => words_of(alloc, order),
        None => Ok(Items::new(alloc)),
    }
}

fn words_of(alloc: Global, order: &str) -> Result<Items<Text>, NoMemory>
    ensures { IfOk result (λ words. words ≡ spec.words_between spec.is_blank order.now) }
{
    let mut words = Items::new(alloc);
    for part in order.split(' ') {
        push_words(&mut words, alloc, part, '\t')?;
    }
    Ok(words)
}

/// Puts the words of a text at the end, which stand between such characters.
pub fn push_words(
    words: &mut Items<Text>,
    alloc: Global,
    text: &str,
    gap: char,
) -> Result<(), NoMemory>
    requires { gap < 128 }
    ensures { OnOk result (words.new ≡ words.old ++ spec.words_between (λ byte. byte == gap) text.now) }
{
    for part in text.split(gap) {
        push_word(words, alloc, part)?;
    }
    Ok(())
}

// Puts a word at the end, unless it is empty.
fn push_word(words: &mut Items<Text>, alloc: Global, word: &str) -> Result<(), NoMemory>
    ensures { OnOk result (words.new ≡ words.old ++ word_if_any word.now) }
{
    if word.is_empty() {
        return Ok(());
    }
    let word = Text::new(alloc, word)?;
    words.push(word)
}

/// The words but this one.
pub fn without_word(alloc: Global, words: &[Text], word: &str) -> Result<Items<Text>, NoMemory>
    ensures { IfOk result (λ rest. rest ≡ spec.without_word words.now word.now) }
{
    let mut rest = Items::new(alloc);
    push_without(&mut rest, alloc, words, word)?;
    Ok(rest)
}

/// The name, and behind it the other words of an order, each once; where the order has no word, the
/// other names.
pub fn put_first(
    alloc: Global,
    names: &[Text],
    name: &str,
    words: &[Text],
) -> Result<Items<Text>, NoMemory>
    ensures { IfOk result (λ order. order ≡ name.now ∷ spec.others names.now name.now words.now) }
{
    let first = Text::new(alloc, name)?;
    let mut order = Items::new(alloc);
    order.push(first)?;
    if words.is_empty() {
        push_without(&mut order, alloc, names, name)?;
        return Ok(order);
    }
    push_new(&mut order, alloc, words)?;
    Ok(order)
}

// Puts the words but this one at the end.
fn push_without(
    rest: &mut Items<Text>,
    alloc: Global,
    words: &[Text],
    word: &str,
) -> Result<(), NoMemory>
    ensures { OnOk result (rest.new ≡ rest.old ++ spec.without_word words.now word.now) }
{
    for other in words {
        if other.as_str() != word {
            let other = other.copy(alloc)?;
            rest.push(other)?;
        }
    }
    Ok(())
}

// Puts each word once at the end that does not stand there yet.
fn push_new(order: &mut Items<Text>, alloc: Global, words: &[Text]) -> Result<(), NoMemory>
    ensures { OnOk result (order.new ≡ order.old ++ new_words order.old words.now) }
{
    for word in words {
        if !has_name(order.as_slice(), word.as_bytes()) {
            let word = word.copy(alloc)?;
            order.push(word)?;
        }
    }
    Ok(())
}

/// An order as text, with one space between its words.
pub fn order_text(alloc: Global, words: &[Text]) -> Result<Text, NoMemory>
    ensures { IfOk result (λ text. text ≡ spec.joined 32 words.now) }
{
    let text = words.join(alloc, " ")?;
    Ok(Text::from_string(text))
}
