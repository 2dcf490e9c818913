// Marks by time.
ghost use Rattle.std.specs.Prelude.{◌≡◌, ◌<◌, ◌==◌, ◌||◌, ℕ, false, length, IfOk, if◌then◌else◌};
ghost use Rattle.slice_law.specs.Closed.{has};
ghost use Rattle.feedings.specs.Marks.{mark_at, some_marked};

use prov_base::Memory;
use std::alloc::Global;

/// No mark at so many times.
pub(crate) fn no_marks(alloc: Global, count: usize) -> Result<Vec<bool>, Memory>
    ensures many { IfOk result (λ marks. length marks.items ≡ count) }
    ensures none { IfOk result (λ marks. (t : ℕ) → mark_at marks.items t ≡ false) }
{
    let mut marks = Vec::new(alloc);
    'fill: for _ in 0..count {
        marks.push(false)?;
    }
    Ok(marks)
}

/// The mark at a time.
pub(crate) fn mark_of(marks: &[bool], time: usize) -> bool
    ensures { result ≡ mark_at marks.now time }
{
    marks.get(time).copied().unwrap_or(false)
}

/// Whether one of several times is marked.
pub(crate) fn some_mark(marks: &[bool], times: &[usize]) -> bool
    ensures { result ≡ some_marked (mark_at marks.now) times.now }
{
    for time in times {
        if mark_of(marks, *time) {
            return true;
        }
    }
    false
}

/// A time is marked, if there is a mark for it.
pub(crate) fn put_mark(marks: &mut Vec<bool>, time: usize)
    ensures many { length marks.new.items ≡ length marks.old.items }
    ensures marks { (t : ℕ) → t < length marks.old.items → mark_at marks.new.items t ≡ ((t == time) || mark_at marks.old.items t) }
{
    if time < marks.len() {
        marks[time] = true;
    }
}

/// Times are marked.
pub(crate) fn put_marks(marks: &mut Vec<bool>, times: &[usize])
    ensures many { length marks.new.items ≡ length marks.old.items }
    ensures marks { (t : ℕ) → t < length marks.old.items → mark_at marks.new.items t ≡ (has t times.now || mark_at marks.old.items t) }
{
    for time in times {
        put_mark(marks, *time);
    }
}

/// A time is not marked any more.
pub(crate) fn clear_mark(marks: &mut Vec<bool>, time: usize)
    ensures { (t : ℕ) → mark_at marks.new.items t ≡ (if t == time then false else mark_at marks.old.items t) }
{
    if time < marks.len() {
        marks[time] = false;
    }
}
