// The print walk: a value, and what lies inside it.
ghost use Rattle.std.specs.Prelude.{◌≡◌, ◌≤◌, ◌<◌, ◌-◌, ◌++◌, length, map, codes, List, ℕ, OnOk};
ghost use Rattle.object_store.specs.Store.{keys_at};
ghost use Rattle.op_printing.specs.Forms.{closed, inner_seen, IsRest};
ghost use Rattle.op_pieces.specs.Parts.{separator};
ghost use Rattle.op_lists.specs.Parts.{parts_in};
ghost use Rattle.op_printing.specs.Inside.{deeper, inner_text, listed, print_row, keyed, print_keyed, tupled, print_joined};
ghost use Rattle.op_pieces.specs.Pieces.{Adds, ArePieces, pieces_bytes};
ghost use Rattle.op_printing.specs.Puts.{Puts};
ghost use Rattle.py_model.specs.Plan.{Plan};
ghost use Rattle.py_model.specs.Printing.{print_to as plan_to, key_text as key_words};
ghost use Rattle.py_value.specs.Contents.{contents};
ghost use Rattle.py_value.specs.Values.{ValuesView, IsNamed, AreNamed};

use crate::forms::Rest;
use crate::objects::form_of;
use crate::reads::{entry_value, look_part};
use op_lists::value_at;
use op_pieces::{Piece, push, push_word};
use op_work::{Exception, Stop, Work};
use py_value::{Value, contents_stay};
use spelling::{is_low, tuple_end};
use std::alloc::{AllocError, Global};

// What stands before an item.
fn push_comma(out: &mut Vec<Piece>, first: bool) -> Result<(), AllocError>
    ensures { OnOk result (Adds out.old.items out.new.items (separator first)) }
{
    if first {
        push_word(out, "")?;
        return Ok(());
    }
    push_word(out, ", ")?;
    Ok(())
}

// A key of a dictionary, with what stands before it and behind it.
fn push_key(out: &mut Vec<Piece>, first: bool, key: Value) -> Result<(), AllocError>
    ensures bytes { OnOk result ((table : ValuesView) → pieces_bytes table out.new.items
        ≡ (pieces_bytes table out.old.items ++ separator first) ++ (key_words (contents table key) ++ codes ": ")) }
    ensures named { OnOk result ((values : ValuesView) → ArePieces values out.old.items → IsNamed values key → ArePieces values out.new.items) }
{
    push_comma(out, first)?;
    push(out, Piece::Key(key))?;
    push_word(out, ": ")?;
    Ok(())
}

// So many closing brackets.
fn push_closers(out: &mut Vec<Piece>, n: u64) -> Result<(), AllocError>
    ensures { OnOk result (Adds out.old.items out.new.items (closed n)) }
{
    for _ in 0..n {
        push_word(out, ")")?;
    }
    Ok(())
}

/// A value, where containers lie in one another at most so many levels deep.
#[cycle(print)]
pub(crate) fn print_value(
    work: &mut Work,
    alloc: Global,
    out: &mut Vec<Piece>,
    levels: u32,
    quoted: bool,
    inside: &[u32],
    v: Value,
) -> Result<(), Stop>
    requires pieces { ArePieces work.old.values out.old.items }
    requires named { IsNamed work.old.values v }
    ensures { Puts (λ table. plan_to levels quoted inside.now (contents table v)) out.old.items out.new.items work.old work.new result }
{
    let mut within = Vec::from_slice(alloc, inside)?;
    let form = form_of(work, alloc, out, &mut within, quoted, v)?;
    print_inner(work, alloc, out, levels, within.as_slice(), form.rest)?;
    push_closers(out, form.closers)?;
    Ok(())
}

// What lies inside a value. It is not gone into where it lies too deep.
#[cycle(print)]
fn print_inner(
    work: &mut Work,
    alloc: Global,
    out: &mut Vec<Piece>,
    levels: u32,
    inside: &[u32],
    rest: Rest,
) -> Result<(), Stop>
    requires pieces { ArePieces work.old.values out.old.items }
    requires named { IsRest work.old.values rest }
    ensures { Puts (λ table. inner_text (levels - 1) (deeper levels) inside.now (inner_seen table rest)) out.old.items out.new.items work.old work.new result }
{
    if let Rest::Whole = rest {
        return Ok(());
    }
    if levels == 0 {
        return Err(work.fault(alloc, Exception::RecursionError, "nested too deep"));
    }
    match rest {
        Rest::Whole => Ok(()),
        Rest::Items(o) => print_list(work, alloc, out, levels - 1, inside, o),
        Rest::Entries(o) => print_dict(work, alloc, out, levels - 1, inside, o),
        Rest::Tuple(id) => print_tuple(work, alloc, out, levels - 1, inside, id),
        Rest::Bare(id) => print_parts(work, alloc, out, levels - 1, inside, id),
        Rest::Only(quoted, id) => {
            let v = look_part(work, id, 0)?;
            print_value(work, alloc, out, levels - 1, quoted, inside, v)
        },
    }
}

// A list.
#[cycle(print)]
fn print_list(
    work: &mut Work,
    alloc: Global,
    out: &mut Vec<Piece>,
    levels: u32,
    inside: &[u32],
    o: u32,
) -> Result<(), Stop>
    requires { ArePieces work.old.values out.old.items }
    ensures { Puts (λ table. listed (plan_to levels) inside.now o) out.old.items out.new.items work.old work.new result }
{
    push_word(out, "[")?;
    let n = work.read_len(o)?;
    print_items(work, alloc, out, levels, inside, o, n)?;
    push_word(out, "]")?;
    Ok(())
}

// So many items of a list, with commas between.
#[cycle(print)]
fn print_items(
    work: &mut Work,
    alloc: Global,
    out: &mut Vec<Piece>,
    levels: u32,
    inside: &[u32],
    o: u32,
    n: u64,
) -> Result<(), Stop>
    requires { ArePieces work.old.values out.old.items }
    ensures { Puts (λ table. print_row (plan_to levels) inside.now o n) out.old.items out.new.items work.old work.new result }
{
    for i in 0..n {
        push_comma(out, i == 0)?;
        let v = value_at(work, o, i)?;
        print_value(work, alloc, out, levels, true, inside, v)?;
    }
    Ok(())
}

// A dictionary.
#[cycle(print)]
fn print_dict(
    work: &mut Work,
    alloc: Global,
    out: &mut Vec<Piece>,
    levels: u32,
    inside: &[u32],
    o: u32,
) -> Result<(), Stop>
    requires { ArePieces work.old.values out.old.items }
    ensures { Puts (λ table. keyed (plan_to levels) levels inside.now o) out.old.items out.new.items work.old work.new result }
{
    push_word(out, "{")?;
    let count = work.read_order(o)?;
    print_entries(work, alloc, out, levels, inside, o, count)?;
    push_word(out, "}")?;
    Ok(())
}

// The entries of a dictionary, with commas between.
#[cycle(print)]
fn print_entries(
    work: &mut Work,
    alloc: Global,
    out: &mut Vec<Piece>,
    levels: u32,
    inside: &[u32],
    o: u32,
    count: u32,
) -> Result<(), Stop>
    requires pieces { ArePieces work.old.values out.old.items }
    requires count { count ≡ length (keys_at work.old.store o) }
    requires named { AreNamed work.old.values (keys_at work.old.store o) }
    ensures { Puts (λ table. print_keyed (plan_to levels) levels inside.now o (map (contents table) (keys_at work.old.store o))) out.old.items out.new.items work.old work.new result }
{
    contents_stay();
    for i in 0..count {
        let key = work.key(o, i);
        let v = entry_value(work, alloc, o, key)?;
        if !is_low(work.values(), levels, key) {
            return Err(work.fault(alloc, Exception::RecursionError, "nested too deep"));
        }
        push_key(out, i == 0, key)?;
        print_value(work, alloc, out, levels, true, inside, v)?;
    }
    Ok(())
}

// A tuple.
#[cycle(print)]
fn print_tuple(
    work: &mut Work,
    alloc: Global,
    out: &mut Vec<Piece>,
    levels: u32,
    inside: &[u32],
    id: u32,
) -> Result<(), Stop>
    requires pieces { ArePieces work.old.values out.old.items }
    requires named { id < length work.old.values.tuples }
    ensures { Puts (λ table. tupled (plan_to levels) inside.now (parts_in table id)) out.old.items out.new.items work.old work.new result }
{
    let end = tuple_end(work.tuple_of(id).len());
    push_word(out, "(")?;
    print_parts(work, alloc, out, levels, inside, id)?;
    push_word(out, end)?;
    Ok(())
}

// The parts of a tuple, with commas between.
#[cycle(print)]
fn print_parts(
    work: &mut Work,
    alloc: Global,
    out: &mut Vec<Piece>,
    levels: u32,
    inside: &[u32],
    id: u32,
) -> Result<(), Stop>
    requires pieces { ArePieces work.old.values out.old.items }
    requires named { id < length work.old.values.tuples }
    ensures { Puts (λ table. print_joined (plan_to levels) inside.now (parts_in table id)) out.old.items out.new.items work.old work.new result }
{
    for i in 0..work.tuple_of(id).len() {
        push_comma(out, i == 0)?;
        let v = look_part(work, id, i)?;
        print_value(work, alloc, out, levels, true, inside, v)?;
    }
    Ok(())
}
