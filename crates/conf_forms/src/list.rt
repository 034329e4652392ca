ghost use Rattle.std.specs.Prelude.{◌≡◌, ◌==◌, []};
ghost use Rattle.std.specs.List.{list_all, slice_split};
ghost use Rattle.std.specs.Option.{option_map_or};
ghost use Rattle.keyfile.specs.Items.{items_of};
ghost use Rattle.conf_forms.specs.Forms as spec;
ghost use Rattle.conf_forms.specs.Lists.{is_among};

// The text whose pieces between semicolons are the items of a list; None where the list has no item.
fn pieces_of(list: &str) -> Option<&str>
    ensures { items_of list.entry.now ≡ option_map_or (λ text. slice_split (λ b. b == 59) text.now) result [] }
{
    if list.is_empty() {
        None
    } else {
        Some(list.strip_suffix(';').unwrap_or(list))
    }
}

fn is_image_hook(word: &str) -> bool
    ensures { result ≡ is_among spec.image_hooks word.now }
{
    matches!(word, "pre-install" | "install" | "post-install")
}

fn are_image_hooks_in(pieces: &str) -> bool
    ensures { result ≡ list_all (is_among spec.image_hooks) (slice_split (λ b. b == 59) pieces.now) }
{
    pieces.split(';').all(|word| is_image_hook(word))
}

fn is_bundle_hook(word: &str) -> bool
    ensures { result ≡ is_among spec.bundle_hooks word.now }
{
    word == "install-check"
}

fn are_bundle_hooks_in(pieces: &str) -> bool
    ensures { result ≡ list_all (is_among spec.bundle_hooks) (slice_split (λ b. b == 59) pieces.now) }
{
    pieces.split(';').all(|word| is_bundle_hook(word))
}

fn is_piece(pieces: &str, item: &str) -> bool
    ensures { result ≡ is_among (slice_split (λ b. b == 59) pieces.now) item.now }
{
    pieces.split(';').any(|piece| item == piece)
}

/// Whether a text is a list of hooks of an image.
pub fn are_image_hooks(list: &str) -> bool
    ensures { result ≡ spec.are_among spec.image_hooks list.now }
{
    match pieces_of(list) {
        Some(pieces) => are_image_hooks_in(pieces),
        None => true,
    }
}

/// Whether a text is a list of hooks of a bundle.
pub fn are_bundle_hooks(list: &str) -> bool
    ensures { result ≡ spec.are_among spec.bundle_hooks list.now }
{
    match pieces_of(list) {
        Some(pieces) => are_bundle_hooks_in(pieces),
        None => true,
    }
}

/// Whether an item stands in a list. It takes no memory.
pub fn has_item(list: &str, item: &str) -> bool
    ensures { result ≡ is_among (items_of list.now) item.now }
{
    match pieces_of(list) {
        Some(pieces) => is_piece(pieces, item),
        None => false,
    }
}
