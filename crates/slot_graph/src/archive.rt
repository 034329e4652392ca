ghost use Rattle.std.specs.Prelude.{◌≡◌, bytes_eq, codes};
ghost use Rattle.std.specs.List.{list_any};
ghost use Rattle.slot_graph.specs.Archives.{extensions, file_name, is_archive, is_archive_name};

// What follows the last slash of a path, or the whole path where it has none.
fn file_name(path: &[u8]) -> &[u8]
    ensures { result.now ≡ file_name path.now }
{
    let length = path.iter().rev().take_while(|byte| **byte != b'/').count();
    &path[path.len() - length..]
}

fn is_tar(part: &[u8]) -> bool
    ensures { result ≡ bytes_eq part.now (codes "tar") }
{
    part == b"tar".as_slice()
}

// Whether one of the extensions of a name is `tar`.
fn has_tar(name: &[u8]) -> bool
    ensures { result ≡ list_any (λ part. bytes_eq part (codes "tar")) (extensions name.now) }
{
    name.split(|byte| *byte == b'.')
        .skip(1)
        .any(|part| is_tar(part))
}

/// Whether the file of this name is an archive.
pub fn is_archive_name(name: &[u8]) -> bool
    ensures { result ≡ is_archive_name name.now }
{
    name.ends_with(b".catar") || has_tar(name)
}

/// Whether the file at this path is an archive by its name: one that ends with `.tar` or `.catar`, or
/// has `.tar.` in it.
pub fn is_archive(path: &str) -> bool
    ensures { result ≡ is_archive path.now }
{
    is_archive_name(file_name(path.as_bytes()))
}
