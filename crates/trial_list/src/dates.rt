// When a run began, as it is written.
ghost use Rattle.std.specs.Prelude.{◌≡◌, codes, pos, negsuc, IfOk};
ghost use Rattle.std.specs.String.{string_bytes};
ghost use Rattle.std.specs.Int.{int_div_euclid};
ghost use Rattle.jiff.specs.Names.{iso_datetime_text};
ghost use Rattle.trial_list.specs.Dates.{instant_text};
ghost use Rattle.trial_list.specs.Lines.{left, start_text};
ghost use Rattle.trial_list.specs.Stages.{IsSecondOf};

use jiff::Timestamp;
use jiff::civil::DateTime;
use jiff::tz::Offset;
use std::alloc::{AllocError, Global};

/// What a clock in UTC shows at the begin of the second in which an instant lies.
fn second_of(instant: i64) -> DateTime
    ensures { IsSecondOf instant result }
{
    let second = Timestamp::constant(instant.div_euclid(1_000_000_000), 0);
    Offset::UTC.to_datetime(second)
}

/// The text of what a clock shows in the second of an instant.
fn second_text(alloc: Global, instant: i64, shown: DateTime) -> Result<String, AllocError>
    requires { IsSecondOf instant shown }
    ensures { IfOk result (λ text. string_bytes text ≡ instant_text instant) }
{
    format!(in alloc; "{shown}Z")
}

/// The column of a start that no clock told.
const NO_START: &str = "-                   ";

/// When a run began, as wide as its column.
pub(crate) fn start_column(alloc: Global, started: Option<i64>) -> Result<String, AllocError>
    ensures { IfOk result (λ text. string_bytes text ≡ left 20 (start_text started)) }
{
    match started {
        Some(instant) => second_text(alloc, instant, second_of(instant)),
        None => String::from_str(alloc, NO_START),
    }
}

/// When a run began or ended.
pub fn moment_text(alloc: Global, moment: Option<i64>) -> Result<String, AllocError>
    ensures { IfOk result (λ text. string_bytes text ≡ start_text moment) }
{
    match moment {
        Some(instant) => second_text(alloc, instant, second_of(instant)),
        None => String::from_str(alloc, "-"),
    }
}

/// How dates are written, at instants where a calendar may go wrong.
pub fn dates_are_written()
    ensures epoch { instant_text (pos 0) ≡ codes "1970-01-01T00:00:00Z" }
    ensures before { instant_text (negsuc 0) ≡ codes "1969-12-31T23:59:59Z" }
    ensures leap_day { instant_text (pos 951_782_400_000_000_000) ≡ codes "2000-02-29T00:00:00Z" }
    ensures no_leap_day { instant_text (negsuc 2_203_891_200_000_000_000) ≡ codes "1900-02-28T23:59:59Z" }
    ensures first { instant_text (negsuc 9_223_372_036_854_775_807) ≡ codes "1677-09-21T00:12:43Z" }
    ensures last { instant_text (pos 9_223_372_036_854_775_807) ≡ codes "2262-04-11T23:47:16Z" }
{}
