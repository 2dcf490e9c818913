// Pieces of a file behind an offset: all that is left, or its first line.
ghost use Rattle.std.specs.Prelude.{◌≡◌, drop, string_bytes, IfOk, MatchOption, true, false};
ghost use Rattle.std.specs.Str.{is_utf8};
ghost use Rattle.object_store.specs.Store.{file_at};
ghost use Rattle.op_files.specs.Pieces.{piece as piece_of, piece_in};
ghost use Rattle.op_items.specs.Lines.{bytes_in};
ghost use Rattle.py_model.specs.Texts.{size as size_of};

use op_items::first_line;
use op_texts::size;
use op_work::Work;
use prov_base::Memory;
use std::alloc::Global;
use std::str;

// The bytes of a file behind an offset.
fn left_at(work: &Work, path: u32, offset: u64) -> &[u8]
    ensures { result.now ≡ drop offset (bytes_in (file_at work.now.store path)) }
{
    match work.file(path) {
        Some(bytes) => {
            if offset >= bytes.len() as u64 {
                return &[];
            }
            &bytes[offset as usize..]
        }
        None => &[],
    }
}

/// The piece of a file behind an offset.
pub(crate) fn piece_at(work: &Work, whole: bool, path: u32, offset: u64) -> &[u8]
    ensures { result.now ≡ piece_in whole offset (file_at work.now.store path) }
{
    let bytes = left_at(work, path, offset);
    if whole { bytes } else { first_line(bytes) }
}

/// How many characters the piece has, where it is a text.
pub(crate) fn piece_size(work: &Work, whole: bool, path: u32, offset: u64) -> Option<u64>
    ensures { MatchOption result (is_utf8 (piece_in whole offset (file_at work.now.store path)) ≡ false)
        (λ n. (is_utf8 (piece_in whole offset (file_at work.now.store path)) ≡ true) × (n ≡ size_of (piece_in whole offset (file_at work.now.store path)))) }
{
    match str::from_utf8(piece_at(work, whole, path, offset)) {
        Ok(text) => Some(size(text)),
        Err(_) => None,
    }
}

/// The piece, where it is a text.
pub(crate) fn piece_text(
    work: &Work,
    alloc: Global,
    whole: bool,
    path: u32,
    offset: u64,
) -> Result<String, Memory>
    ensures { IfOk result (λ made. is_utf8 (piece_in whole offset (file_at work.now.store path)) ≡ true → string_bytes made ≡ piece_in whole offset (file_at work.now.store path)) }
{
    match str::from_utf8(piece_at(work, whole, path, offset)) {
        Ok(text) => {
            let made = String::from_str(alloc, text)?;
            Ok(made)
        }
        Err(_) => Ok(String::new(alloc)),
    }
}
