// Items with commas between.
ghost use Rattle.std.specs.Prelude.{◌≡◌, ◌++◌, OnOk, string_bytes};
ghost use Rattle.spelling.specs.Spelling.{item_words, end_words};

use std::alloc::AllocError;

/// An item behind the others, or as the first.
pub fn push_item(out: &mut String, first: bool, item: &str) -> Result<(), AllocError>
    ensures { OnOk result (string_bytes out.new ≡ string_bytes out.old ++ item_words first item.now) }
{
    if !first {
        out.push_str(", ")?;
    }
    out.push_str(item)?;
    Ok(())
}

/// The end of a tuple of so many items: an only item has a comma behind it.
pub fn tuple_end(count: usize) -> &'static str
    ensures { result.now ≡ end_words count }
{
    if count == 1 { ",)" } else { ")" }
}
