// The printed forms of values that are no objects.
ghost use Rattle.std.specs.Prelude.{◌≡◌, IfOk, string_bytes};
ghost use Rattle.std.specs.Fmt.{signed_decimal};
ghost use Rattle.py_model.specs.Numbers.{int_text as int_printed};
ghost use Rattle.py_model.specs.Printing.{truth_text as truth_printed};

use std::alloc::{AllocError, Global};

// An integer in base 10.
fn decimal_text(alloc: Global, i: i64) -> Result<String, AllocError>
    ensures { IfOk result (λ made. string_bytes made ≡ signed_decimal i) }
{
    i.to_string(alloc)
}

/// An integer as it is printed.
pub fn int_text(alloc: Global, i: i64) -> Result<String, AllocError>
    ensures { IfOk result (λ made. string_bytes made ≡ int_printed i) }
{
    let made = decimal_text(alloc, i)?;
    Ok(made)
}

/// A truth value as it is printed.
pub fn truth_text(b: bool) -> &'static str
    ensures { result.now ≡ truth_printed b }
{
    if b { "True" } else { "False" }
}
