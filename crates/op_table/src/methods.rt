// Methods by their numbers.
ghost use Rattle.std.specs.Prelude.{◌≡◌, None};
ghost use Rattle.op_table.specs.Table.{planned, IsFrom};
ghost use Rattle.op_work.specs.Work.{Ends};
ghost use Rattle.py_model.specs.Told.{IsNamedOp};
ghost use Rattle.py_value.specs.Values.{AreNamed};

use crate::wrapped::missing;
use op_compare::index;
use op_dicts::{get_method, keys};
use op_files::{close, read, readline, write};
use op_joins::{extend, reverse};
use op_mutations::{append, insert, items, pop, values};
use op_pieces::{join, replace, split};
use op_sorting::sort;
use op_texts::{
    endswith, find, isdigit, ljust, lower, lstrip, rjust, rstrip, startswith, strip, upper,
};
use op_work::{Stop, Work};
use py_model::{Answer, Op};
use py_value::Value;
use std::alloc::Global;

// Methods of lists and dictionaries: 80 to 90.
pub(crate) fn list_methods(
    work: &mut Work,
    alloc: Global,
    op: Op,
    operands: &[Value],
) -> Result<Answer, Stop>
    requires number { IsFrom 80 90 op.no }
    requires op { IsNamedOp work.old.values op }
    requires named { AreNamed work.old.values operands.now }
    requires fresh { work.old.made ≡ None }
    requires unsaid { work.old.note ≡ None }
    ensures { Ends (planned op operands.now) work.old work.new result }
{
    match op.no {
        80 => append(work, alloc, operands),
        81 => extend(work, alloc, operands),
        82 => insert(work, alloc, operands),
        83 => pop(work, alloc, operands),
        84 => index(work, alloc, operands),
        85 => reverse(work, alloc, operands),
        86 => sort(work, alloc, operands),
        87 => get_method(work, alloc, operands),
        88 => items(work, alloc, operands),
        89 => keys(work, alloc, operands),
        90 => values(work, alloc, operands),
        _ => missing(),
    }
}

// Methods of texts, the first half: 91 to 97.
pub(crate) fn text_methods(
    work: &mut Work,
    alloc: Global,
    op: Op,
    operands: &[Value],
) -> Result<Answer, Stop>
    requires number { IsFrom 91 97 op.no }
    requires op { IsNamedOp work.old.values op }
    requires named { AreNamed work.old.values operands.now }
    requires fresh { work.old.made ≡ None }
    requires unsaid { work.old.note ≡ None }
    ensures { Ends (planned op operands.now) work.old work.new result }
{
    match op.no {
        91 => strip(work, alloc, operands),
        92 => lstrip(work, alloc, operands),
        93 => rstrip(work, alloc, operands),
        94 => split(work, alloc, operands),
        95 => join(work, alloc, operands),
        96 => replace(work, alloc, operands),
        97 => find(work, alloc, operands),
        _ => missing(),
    }
}

// Methods of texts, the second half, and of files: 98 to 108.
pub(crate) fn word_methods(
    work: &mut Work,
    alloc: Global,
    op: Op,
    operands: &[Value],
) -> Result<Answer, Stop>
    requires number { IsFrom 98 108 op.no }
    requires op { IsNamedOp work.old.values op }
    requires named { AreNamed work.old.values operands.now }
    requires fresh { work.old.made ≡ None }
    requires unsaid { work.old.note ≡ None }
    ensures { Ends (planned op operands.now) work.old work.new result }
{
    match op.no {
        98 => startswith(work, alloc, operands),
        99 => endswith(work, alloc, operands),
        100 => upper(work, alloc, operands),
        101 => lower(work, alloc, operands),
        102 => isdigit(work, alloc, operands),
        103 => ljust(work, alloc, operands),
        104 => rjust(work, alloc, operands),
        105 => read(work, alloc, operands),
        106 => readline(work, alloc, operands),
        107 => write(work, alloc, operands),
        108 => close(work, alloc, operands),
        _ => missing(),
    }
}
