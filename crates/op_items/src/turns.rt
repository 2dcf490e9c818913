// The next turn of a `for`.
ghost use Rattle.std.specs.Prelude.{◌≡◌, ◌<◌, ℕ, pos, [], ◌∷◌, None, Some, length};
ghost use Rattle.op_work.specs.Work.{Ends};
ghost use Rattle.py_model.specs.Lists.{next as next_plan, next_of};
ghost use Rattle.py_model.specs.Plan.{Plan};
ghost use Rattle.py_value.specs.Contents.{Contents, contents, int, range};
ghost use Rattle.py_value.specs.Seen.{a_list};
ghost use Rattle.py_value.specs.declared.value.Value.TheVariants.{Text, Tuple};

use crate::letters::{letter_answer, letter_at};
use crate::numbers::number_answer;
use crate::parts::{look_answer, part_at};
use op_lists::{range_count, value_at};
use op_numbers::value_answer;
use op_work::{Stop, Work};
use py_model::Answer;
use py_value::tuples_are_their_parts;
use std::alloc::Global;

/// `next` (37): the part of a tuple at a turn, which is looked at, or the end.
pub fn next_in_tuple(work: &mut Work, id: u32, n: u64) -> Result<Answer, Stop>
    requires there { id < length work.old.values.tuples }
    requires fresh { work.old.made ≡ None }
    ensures { (file_line : ℕ → Plan) (begun : Contents) → Ends (λ table. next_plan file_line (contents table (Tuple id) ∷ int (pos n) ∷ begun ∷ [])) work.old work.new result }
{
    tuples_are_their_parts();
    match part_at(work.tuple_of(id), n) {
        Some(item) => look_answer(work, item),
        None => Ok(Answer::End),
    }
}

/// `next` (37): the number of a range at a turn, which is looked at, or the end.
pub fn next_in_range(
    work: &mut Work,
    start: i64,
    end: i64,
    step: i64,
    n: u64,
) -> Result<Answer, Stop>
    requires fresh { work.old.made ≡ None }
    ensures { (file_line : ℕ → Plan) (begun : Contents) → Ends (λ table. next_plan file_line (range start end step ∷ int (pos n) ∷ begun ∷ [])) work.old work.new result }
{
    if n < range_count(start, end, step) {
        return number_answer(work, start, step, n);
    }
    Ok(Answer::End)
}

/// `next` (37): the character of a text at a turn, which is counted, or the end.
pub fn next_in_text(work: &mut Work, alloc: Global, id: u32, n: u64) -> Result<Answer, Stop>
    requires there { id < length work.old.values.texts }
    requires fresh { work.old.made ≡ None }
    ensures { (file_line : ℕ → Plan) (begun : Contents) → Ends (λ table. next_plan file_line (contents table (Text id) ∷ int (pos n) ∷ begun ∷ [])) work.old work.new result }
{
    match letter_at(work.text_of(id), n) {
        Some(letter) => letter_answer(work, alloc, Some(letter)),
        None => Ok(Answer::End),
    }
}

/// `next` (37): the item of a list at a turn, or the end.
pub fn next_in_list(work: &mut Work, o: u32, n: u64) -> Result<Answer, Stop>
    requires fresh { work.old.made ≡ None }
    ensures { (file_line : ℕ → Plan) (begun : Contents) → Ends (λ table. next_of file_line o n begun (Some a_list)) work.old work.new result }
{
    let count = work.read_len(o)?;
    if n < count {
        let item = value_at(work, o, n)?;
        return value_answer(work, item);
    }
    Ok(Answer::End)
}
