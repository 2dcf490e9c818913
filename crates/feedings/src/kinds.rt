// What an operation is to others, by its number.
ghost use Rattle.std.specs.Prelude.{◌≡◌};
ghost use Rattle.py_model.specs.Occurrences.{evaluates as op_evaluates};
ghost use Rattle.value_links.specs.Links.{given_as as op_given_as, taken_as as op_taken_as};

/// Whether an operation with this number is an evaluation.
pub(crate) fn evaluates(op: u8) -> bool
    ensures { result ≡ op_evaluates op }
{
    (op < 28 && op != 3) || (op == 30 || ((50 <= op && op < 72) || (80 <= op && op < 112)))
}

/// What an operation is to those that take its answer.
pub(crate) fn given_as(op: u8) -> u8
    ensures { result ≡ op_given_as op }
{
    if evaluates(op) { 0 } else { op }
}

/// What an operation is to those whose answers it takes.
pub(crate) fn taken_as(op: u8) -> u8
    ensures { result ≡ op_taken_as op }
{
    if (4 <= op && op < 28) || op == 30 {
        4
    } else if 50 <= op && op < 72 {
        50
    } else if 80 <= op && op < 112 {
        80
    } else {
        op
    }
}
