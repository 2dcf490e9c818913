// How deep tuples stand inside one another in keys, noted once for each tuple.
ghost use Rattle.std.specs.Prelude.{◌≡◌};
ghost use Rattle.row_checks.specs.Heights.{height_of as height_in_table, highest as highest_in_table, higher, over, one_over as one_over_it, is_low as is_low_in_table};

use py_value::Value;

/// The least number of tuples that have to be allowed inside one another so that a value is a key. It is 101 where no number up to 100 is
/// enough.
#[derive(Clone, Copy)]
pub(crate) struct Height {
    /// Truth values are keys.
    pub plain: u32,
    /// Truth values are no keys.
    pub normal: u32,
}

/// The greatest height, that of what is no key.
const NO_KEY: u32 = 101;

pub(crate) fn height_of(heights: &[Height], v: Value) -> Height
    ensures { result ≡ height_in_table heights.now v }
{
    match v {
        Value::None | Value::Int(_) | Value::Text(_) => Height {
            plain: 0,
            normal: 0,
        },
        Value::Bool(_) => Height {
            plain: 0,
            normal: NO_KEY,
        },
        Value::Tuple(n) => heights.get(n as usize).copied().unwrap_or(Height {
            plain: NO_KEY,
            normal: NO_KEY,
        }),
        Value::Range(..)
        | Value::Fn(_)
        | Value::Class(_)
        | Value::Exc(_)
        | Value::Builtin(_)
        | Value::Object(_) => Height {
            plain: NO_KEY,
            normal: NO_KEY,
        },
    }
}

fn one_over(height: u32) -> u32
    ensures { result ≡ one_over_it height }
{
    if height < 100 { height + 1 } else { NO_KEY }
}

fn higher_of(a: Height, b: Height) -> Height
    ensures { result ≡ higher a b }
{
    Height {
        plain: a.plain.max(b.plain),
        normal: a.normal.max(b.normal),
    }
}

// The highest of values.
fn highest_of(heights: &[Height], values: &[Value]) -> Height
    ensures { result ≡ highest_in_table heights.now (record { plain = 0; normal = 0 }) values.now }
{
    let mut highest = Height {
        plain: 0,
        normal: 0,
    };
    for v in values {
        highest = higher_of(highest, height_of(heights, *v));
    }
    highest
}

/// The height of a tuple of these parts.
pub(crate) fn height_over(heights: &[Height], parts: &[Value]) -> Height
    ensures { result ≡ over (highest_in_table heights.now (record { plain = 0; normal = 0 }) parts.now) }
{
    let highest = highest_of(heights, parts);
    Height {
        plain: one_over(highest.plain),
        normal: one_over(highest.normal),
    }
}

/// Whether a value is a key, where truth values are keys or not.
pub(crate) fn is_low(heights: &[Height], truths: bool, v: Value) -> bool
    ensures { result ≡ is_low_in_table heights.now truths v }
{
    let height = height_of(heights, v);
    let needed = if truths { height.plain } else { height.normal };
    needed <= 100
}
