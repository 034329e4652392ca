//! Types, as a signature writes them.

ghost use Rattle.std.specs.Prelude.{◌≡◌, ◌+◌, ◌-◌, ◌<◌, ◌≤◌, length, take, drop, IfSome, slice_index, option_map, true, ◌↔◌};
ghost use Rattle.wire_value.specs.Types.{IsType, IsBehindType, IsFirstType, IsSignature};
ghost use Rattle.wire_value.specs.Reading as spec;
ghost use Rattle.wire_value.specs.Lent.{lent};

// The first letter, and 0 where there is none.
pub fn first_letter(text: &[u8]) -> u8
    ensures { result ≡ slice_index text.now 0 }
{
    if text.is_empty() { 0 } else { text[0] }
}

// What stands behind the first letter.
pub fn behind_letter(text: &[u8]) -> &[u8]
    ensures { result.now ≡ drop 1 text.now }
{
    if text.is_empty() {
        return text;
    }
    text.split_at(1).1
}

// Whether a letter is a basic type.
#[tactic(auto, unfolding(crate::specs::Reading::basic_of))]
pub fn is_basic(letter: u8) -> bool
    ensures { result ≡ spec.is_basic letter }
{
    matches!(
        letter,
        b'y' | b'b' | b'n' | b'q' | b'i' | b'u' | b'x' | b't' | b'd' | b'h' | b's' | b'o' | b'g'
    )
}

// What stands behind the first complete type, in which so many arrays and structs may nest.
#[cycle(rest)]
#[tactic(auto, using(crate::proofs::TypeSteps::t_leaf, crate::proofs::TypeSteps::t_empty, crate::proofs::TypeSteps::t_no_array, crate::proofs::TypeSteps::t_array, crate::proofs::TypeSteps::t_no_struct, crate::proofs::TypeSteps::t_struct_none, crate::proofs::TypeSteps::t_struct_some, crate::proofs::TypeSteps::t_other))]
fn type_rest(types: &[u8], arrays: usize, structs: usize) -> Option<&[u8]>
    requires { arrays + structs ≤ 64 }
    ensures { lent result ≡ spec.type_within arrays structs types.now }
{
    let letter = first_letter(types);
    let inner = behind_letter(types);
    if is_basic(letter) || letter == b'v' {
        return Some(inner);
    }
    if letter == b'a' {
        if arrays == 0 {
            return None;
        }
        return item_rest(inner, arrays - 1, structs);
    }
    if letter == b'(' {
        if structs == 0 {
            return None;
        }
        let others = type_rest(inner, arrays, structs - 1)?;
        return types_rest(others, arrays, structs - 1, inner.len());
    }
    None
}

// What stands behind the type of an array's items.
#[cycle(rest)]
#[tactic(auto, using(crate::proofs::TypeSteps::i_type, crate::proofs::TypeSteps::i_no_key, crate::proofs::TypeSteps::i_none, crate::proofs::TypeSteps::i_open, crate::proofs::TypeSteps::i_entry))]
fn item_rest(types: &[u8], arrays: usize, structs: usize) -> Option<&[u8]>
    requires { arrays + structs ≤ 64 }
    ensures { lent result ≡ spec.item_rest (spec.type_within arrays structs) types.now }
{
    if first_letter(types) != b'{' {
        return type_rest(types, arrays, structs);
    }
    let entry = behind_letter(types);
    if !is_basic(first_letter(entry)) {
        return None;
    }
    let rest = type_rest(behind_letter(entry), arrays, structs)?;
    if first_letter(rest) != b'}' {
        return None;
    }
    Some(behind_letter(rest))
}

// What stands behind the bracket that closes a struct.
#[cycle(rest)]
#[tactic(auto, using(crate::proofs::TypeSteps::u_end, crate::proofs::TypeSteps::u_none, crate::proofs::TypeSteps::u_more, crate::proofs::TypeSteps::u_out))]
fn types_rest(types: &[u8], arrays: usize, structs: usize, most: usize) -> Option<&[u8]>
    requires { arrays + structs ≤ 64 }
    ensures { lent result ≡ spec.types_until (spec.type_within arrays structs) most types.now }
{
    let mut types = types;
    for _ in 0..most {
        if first_letter(types) == b')' {
            return Some(behind_letter(types));
        }
        types = type_rest(types, arrays, structs)?;
    }
    None
}

/// What stands behind the first complete type.
#[tactic(auto, using(crate::proofs::Signatures::type_front))]
pub fn behind_type(types: &[u8]) -> Option<&[u8]>
    ensures rest { lent result ≡ spec.one_type types.now }
    ensures kind { IfSome result (λ r. IsBehindType types.now r.now) }
{
    type_rest(types, 32, 32)
}

/// The first complete type, and what stands behind it.
pub fn first_type(types: &[u8]) -> Option<(&[u8], &[u8])>
    ensures rest { option_map (λ r. r.1.now) result ≡ spec.one_type types.now }
    ensures kind { IfSome result (λ r. IsFirstType types.now r.0.now r.1.now) }
{
    let rest = behind_type(types)?;
    Some((types.split_at(types.len() - rest.len()).0, rest))
}

/// Whether a struct's types, or a signature's, end here.
pub fn is_end(types: &[u8]) -> bool
    ensures { result ≡ spec.is_end types.now }
{
    types.is_empty() || first_letter(types) == b')'
}

fn is_one_type(text: &[u8]) -> bool
    ensures { result ≡ spec.is_single text.now }
{
    match behind_type(text) {
        Some(rest) => rest.is_empty(),
        None => false,
    }
}

/// Whether the text is one complete type, in which at most 32 arrays and 32 structs nest.
#[tactic(auto, using(crate::proofs::Signatures::single_means))]
pub fn is_single(text: &[u8]) -> bool
    ensures is { result ≡ spec.is_single text.now }
    ensures grammar { (result ≡ true) ↔ IsType text.now }
{
    is_one_type(text)
}

#[tactic(auto, using(crate::proofs::TypeSteps::a_done, crate::proofs::TypeSteps::a_none, crate::proofs::TypeSteps::a_more, crate::proofs::TypeSteps::a_out))]
fn are_types(text: &[u8]) -> bool
    ensures { result ≡ spec.are_types (length text.now) text.now }
{
    let mut types = text;
    for _ in 0..text.len() {
        if types.is_empty() {
            return true;
        }
        match behind_type(types) {
            Some(rest) => types = rest,
            None => return false,
        }
    }
    types.is_empty()
}

fn are_short_types(text: &[u8]) -> bool
    ensures { result ≡ spec.is_signature text.now }
{
    text.len() <= 255 && are_types(text)
}

/// Whether the text is a signature: any number of complete types, in at most 255 bytes.
#[tactic(auto, using(crate::proofs::Signatures::signature_means))]
pub fn is_signature(text: &[u8]) -> bool
    ensures is { result ≡ spec.is_signature text.now }
    ensures grammar { (result ≡ true) ↔ IsSignature text.now }
{
    are_short_types(text)
}
