// The characters of a text, each as a text.
ghost use Rattle.std.specs.Prelude.{◌≡◌, IfOk, chars, length};

use prov_base::Memory;
use std::alloc::Global;

// How many characters a text has.
pub(crate) fn letter_count(text: &str) -> u64
    ensures { result ≡ length (chars text.now) }
{
    text.chars().count() as u64
}

// The characters of a text.
pub(crate) fn letters(alloc: Global, text: &str) -> Result<Vec<char>, Memory>
    ensures { IfOk result (λ cs. cs.items ≡ chars text.now) }
{
    let mut all = Vec::new(alloc);
    for c in text.chars() {
        all.push(c)?;
    }
    Ok(all)
}
