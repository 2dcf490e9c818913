// The test for paths of files.
ghost use Rattle.std.specs.Prelude.{◌≡◌};
ghost use Rattle.std.specs.List.{list_all};
ghost use Rattle.prov_base.specs.Pieces.{pieces_at};
ghost use Rattle.prov_base.specs.Path.{is_path as is_path_text, is_part as is_part_text, is_outside_store as are_outside_store};

use crate::pieces::split_once;

/// Whether the text is a path below the current folder and outside the program's own store: 1 to 255 bytes without a
/// zero byte, whose parts between `/` are not empty, `.` or `..`, and of which the first is not `.noworkflow`.
pub fn is_path(path: &str) -> bool
    ensures { result ≡ is_path_text path.now }
{
    let path = path.as_bytes();
    1 <= path.len()
        && path.len() <= 255
        && split_once(path, 0).is_none()
        && are_parts(path)
        && is_outside_store(path)
}

fn is_part(part: &[u8]) -> bool
    ensures { result ≡ is_part_text part.now }
{
    !part.is_empty() && part != b".".as_slice() && part != b"..".as_slice()
}

/// Whether each part of the path may stand in one.
fn are_parts(path: &[u8]) -> bool
    ensures { result ≡ list_all is_part_text (pieces_at 47 path.now) }
{
    let mut rest = path;
    while let Some((part, after)) = split_once(rest, b'/') {
        if !is_part(part) {
            return false;
        }
        rest = after;
    }
    is_part(rest)
}

/// Whether the first part is not the store's folder.
fn is_outside_store(path: &[u8]) -> bool
    ensures { result ≡ are_outside_store (pieces_at 47 path.now) }
{
    match split_once(path, b'/') {
        Some((first, _)) => first != b".noworkflow".as_slice(),
        None => path != b".noworkflow".as_slice(),
    }
}
