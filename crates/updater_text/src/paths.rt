ghost use Rattle.std.specs.Prelude.{◌≡◌};
ghost use Rattle.updater_text.specs.Paths.{is_within, lies_under};

/// Whether a path lies below a directory, by their texts. It takes no memory.
pub fn lies_under(directory: &str, path: &str) -> bool
    ensures { result ≡ lies_under directory.now path.now }
{
    let path = path.as_bytes();
    path.starts_with(directory.as_bytes()) && path.get(directory.len()) == Some(&b'/')
}

/// Whether a path is the directory, or lies below it. It takes no memory.
pub fn is_within(directory: &str, path: &str) -> bool
    ensures { result ≡ is_within directory.now path.now }
{
    path == directory || lies_under(directory, path)
}
