// Files are opened.
ghost use Rattle.std.specs.Prelude.{◌≡◌, ◌<◌, ℕ, Some, true, false, length, nat_eq, OnOk};
ghost use Rattle.std.specs.List.{list_any};
ghost use Rattle.op_devices.specs.Opening.{path_in};
ghost use Rattle.op_state.specs.Holding.{Found as FoundThere};
ghost use Rattle.op_state.specs.Held.{StandsHeld};
ghost use Rattle.op_parts.specs.Fitting.{IsFitting, IsStanding};
ghost use Rattle.op_parts.specs.Told.{HasBytes, bytes_found};
ghost use Rattle.op_work.specs.Work.{Extends};
ghost use Rattle.py_model.specs.Doing.{Knew, Performs};
ghost use Rattle.py_model.specs.Store.{RunStore};
ghost use Rattle.py_value.specs.Seen.{bytes_of};
ghost use Rattle.py_value.specs.Values.{ValuesView, AreNamed};

use crate::asking::done_of;
use crate::opening_found::{open_found, path_asked};
use answer_source::Source;
use model_laws::operations_suit;
use object_store::store_over_contents;
use op_state::{Held, holding_is_seen};
use prov_base::{Memory, Pos};
use prov_outside::Found;
use py_model::{Done, Op, costs_grow, few_operations_ask};
use py_value::Value;
use std::alloc::Global;

/// `open`: the path that it asks of, where there is one, was opened by the run, or is fetched.
pub fn perform_open<S: Source>(
    held: &mut Held,
    source: &mut S,
    alloc: Global,
    at: Pos,
    op: Op,
    values: &[Value],
    left: u32,
) -> Result<Done, Memory>
    requires number { op.no ≡ 62 }
    requires named { AreNamed held.old.work.values values.now }
    requires some { 0 < left }
    ensures knew { Knew (λ table capture. IsFitting (S.fits source.old) held.old.work.values table capture) (λ table capture. IsFitting (S.fits source.new) held.new.work.values table capture) }
    ensures performed { (entered : ℕ) → Performs at op values.now left (λ table capture. IsFitting (S.fits source.new) held.new.work.values table capture)
        (λ table capture s. IsStanding (S.stands source.old) held.old entered table capture s)
        (λ table capture s. IsStanding (S.stands source.new) held.new entered table capture s) result }
{
    few_operations_ask();
    costs_grow();
    holding_is_seen();
    operations_suit();
    let Some(path) = path_asked(held, values) else {
        let deed = open_found(held, alloc, values, false, None, left)?;
        return Ok(done_of(deed));
    };
    if held.was_opened(path) {
        return open_again(held, source, alloc, at, op, path, values, left);
    }
    open_fetched(held, source, alloc, at, op, path, values, left)
}

// A file that the run opened for writing is opened again. It is held.
fn open_again<S: Source>(
    held: &mut Held,
    source: &mut S,
    alloc: Global,
    at: Pos,
    op: Op,
    path: u32,
    values: &[Value],
    left: u32,
) -> Result<Done, Memory>
    requires number { op.no ≡ 62 }
    requires named { AreNamed held.old.work.values values.now }
    requires some { 0 < left }
    requires path { path_in held.old.work.values values.now ≡ Some path }
    requires within { path < length held.old.work.values.texts }
    requires opened { list_any (nat_eq path) held.old.opened ≡ true }
    ensures knew { Knew (λ table capture. IsFitting (S.fits source.old) held.old.work.values table capture) (λ table capture. IsFitting (S.fits source.new) held.new.work.values table capture) }
    ensures performed { (entered : ℕ) → Performs at op values.now left (λ table capture. IsFitting (S.fits source.new) held.new.work.values table capture)
        (λ table capture s. IsStanding (S.stands source.old) held.old entered table capture s)
        (λ table capture s. IsStanding (S.stands source.new) held.new entered table capture s) result }
{
    few_operations_ask();
    costs_grow();
    holding_is_seen();
    operations_suit();
    let _ = held.values().has(Value::None);
    if !held.has_file(path) {
        return Err(Memory);
    }
    let deed = open_found(held, alloc, values, true, None, left)?;
    Ok(done_of(deed))
}

// A file that the run did not open yet is fetched, put into what is held where it has bytes, and opened.
fn open_fetched<S: Source>(
    held: &mut Held,
    source: &mut S,
    alloc: Global,
    at: Pos,
    op: Op,
    path: u32,
    values: &[Value],
    left: u32,
) -> Result<Done, Memory>
    requires number { op.no ≡ 62 }
    requires named { AreNamed held.old.work.values values.now }
    requires some { 0 < left }
    requires path { path_in held.old.work.values values.now ≡ Some path }
    requires within { path < length held.old.work.values.texts }
    requires opened { list_any (nat_eq path) held.old.opened ≡ false }
    ensures knew { Knew (λ table capture. IsFitting (S.fits source.old) held.old.work.values table capture) (λ table capture. IsFitting (S.fits source.new) held.new.work.values table capture) }
    ensures performed { (entered : ℕ) → Performs at op values.now left (λ table capture. IsFitting (S.fits source.new) held.new.work.values table capture)
        (λ table capture s. IsStanding (S.stands source.old) held.old entered table capture s)
        (λ table capture s. IsStanding (S.stands source.new) held.new entered table capture s) result }
{
    few_operations_ask();
    costs_grow();
    holding_is_seen();
    operations_suit();
    store_over_contents();
    let text = held.values().text_of(path);
    source.fetch(alloc, text)?;
    source.paths_once();
    let Some(found) = source.found(text) else {
        return Ok(Done::Unanswered);
    };
    place(held, alloc, path, found)?;
    let deed = open_found(held, alloc, values, false, Some(found), left)?;
    Ok(done_of(deed))
}

// What was found at a path is put into what is held, where it is bytes.
fn place(held: &mut Held, alloc: Global, path: u32, found: &Found) -> Result<(), Memory>
    requires { path < length held.old.work.values.texts }
    ensures stands { (device : FoundThere) (table : ValuesView) (run : RunStore) → Extends held.old.work.values table → device (bytes_of table path) ≡ bytes_found found.now
        → StandsHeld device table held.old run → StandsHeld device table held.new run }
    ensures there { OnOk result (HasBytes found.now held.new.work.store path) }
    ensures values { held.new.work.values ≡ held.old.work.values }
{
    match found {
        Found::Bytes(bytes) => held.place(alloc, path, bytes.as_slice()),
        Found::Absent => Ok(()),
        Found::TooLarge => Ok(()),
        Found::Failed => Ok(()),
    }
}
