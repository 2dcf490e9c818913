// What objects come to at their level.
ghost use Rattle.std.specs.Prelude.{◌≡◌, ◌∷◌, ◌<◌, ◌≤◌, ◌+◌, ◌^◌, length, codes, List, ℕ, Option, IfOk, OnOk};
ghost use Rattle.op_printing.specs.Forms.{Next, call_next, message_next, args_step as plan_args, end_step as plan_end, instance_step as plan_instance, container_next, object_step as plan_object, one_step as plan_step, form_of as plan_form, next_seen, found_seen, inner_seen, IsStep, IsRest, rest_by, one_more};
ghost use Rattle.op_pieces.specs.Pieces.{ArePieces, pieces_bytes};
ghost use Rattle.op_pieces.specs.declared.pieces.Piece.{Piece as OnePiece};
ghost use Rattle.op_work.specs.Work.{Comes, Extends};
ghost use Rattle.py_model.specs.Plan.{Plan, kind_of};
ghost use Rattle.py_model.specs.Printing.{is_inside as list_is_inside};
ghost use Rattle.py_value.specs.Contents.{contents};
ghost use Rattle.py_value.specs.Values.{ValuesView, AreInterned, IsNamed};

use crate::forms::{Form, Rest, Step, is_inside};
use crate::plain::{push_class_between, push_file, push_plain};
use crate::reads::read_args;
use op_classes::end_of_chain;
use op_pieces::{Piece, push_word};
use op_work::{Exception, Stop, Work};
use py_value::{Kind, Value, tuples_are_their_parts};
use std::alloc::{AllocError, Global};

// The arguments of an exception, for its `repr`.
fn call_step(args: Value) -> Step
    ensures step { (table : ValuesView) (inside : List ℕ) (out : List OnePiece) → AreInterned table → IsNamed table args
        → next_seen inside out table result ≡ call_next inside (pieces_bytes table out) (contents table args) }
    ensures named { (values : ValuesView) → IsNamed values args → IsStep values result }
{
    tuples_are_their_parts();
    match args {
        Value::Tuple(id) => Step::Rests(true, Rest::Bare(id)),
        _ => Step::Again(true, true, args),
    }
}

// The arguments of an exception that are a tuple of so many, for its `str`.
fn message_rest(quoted: bool, id: u32, count: usize) -> Rest
    ensures { result ≡ rest_by quoted id count }
{
    match count {
        0 => Rest::Bare(id),
        1 => Rest::Only(quoted, id),
        _ => Rest::Tuple(id),
    }
}

// The arguments of an exception, for its `str`.
fn message_step(work: &Work, quoted: bool, args: Value) -> Step
    requires { IsNamed work.now.values args }
    ensures step { (table : ValuesView) (inside : List ℕ) (out : List OnePiece) → AreInterned table → Extends work.now.values table
        → next_seen inside out table result ≡ message_next quoted inside (pieces_bytes table out) (contents table args) }
    ensures named { IsStep work.now.values result }
{
    tuples_are_their_parts();
    match args {
        Value::Tuple(id) => Step::Rests(false, message_rest(quoted, id, work.tuple_of(id).len())),
        _ => Step::Again(false, quoted, args),
    }
}

// The arguments of an exception.
fn args_step(
    work: &Work,
    out: &mut Vec<Piece>,
    quoted: bool,
    is_key: bool,
    of: Value,
    args: Value,
) -> Result<Step, Stop>
    requires pieces { ArePieces work.now.values out.old.items }
    requires named { IsNamed work.now.values args }
    ensures { (inside : List ℕ) → Comes (λ values step. IsStep values step × ArePieces values out.new.items) (next_seen inside out.new.items)
        (λ table. plan_args quoted is_key inside (pieces_bytes table out.old.items) (contents table of) (contents table args)) work.now work.now result }
{
    if quoted {
        push_class_between(work, out, "", of, "(")?;
        return Ok(call_step(args));
    }
    Ok(message_step(work, is_key, args))
}

// An object before those that a walk is inside of.
fn enter(within: &mut Vec<u32>, o: u32) -> Result<(), AllocError>
    ensures { OnOk result (within.new.items ≡ o ∷ within.old.items) }
{
    within.insert(0, o)?;
    Ok(())
}

// An instance, by the end of its chain.
fn end_step(
    work: &mut Work,
    alloc: Global,
    out: &mut Vec<Piece>,
    within: &mut Vec<u32>,
    quoted: bool,
    o: u32,
    of: Value,
    end: Option<u64>,
) -> Result<Step, Stop>
    requires { ArePieces work.old.values out.old.items }
    ensures { Comes (λ values step. IsStep values step × ArePieces values out.new.items) (next_seen within.new.items out.new.items)
        (λ table. plan_end quoted within.old.items (pieces_bytes table out.old.items) o (contents table of) end) work.old work.new result }
{
    match end {
        None => {
            push_class_between(work, out, "<", of, " object>")?;
            Ok(Step::Rests(false, Rest::Whole))
        },
        Some(number) => {
            let args = read_args(work, alloc, o)?;
            enter(within, o)?;
            args_step(work, out, quoted, number == 6, of, args)
        },
    }
}

// An instance, which is not gone into inside itself.
fn instance_step(
    work: &mut Work,
    alloc: Global,
    out: &mut Vec<Piece>,
    within: &mut Vec<u32>,
    quoted: bool,
    o: u32,
    of: Value,
) -> Result<Step, Stop>
    requires { ArePieces work.old.values out.old.items }
    ensures { Comes (λ values step. IsStep values step × ArePieces values out.new.items) (next_seen within.new.items out.new.items)
        (λ table. plan_instance quoted within.old.items (pieces_bytes table out.old.items) o (contents table of) (list_is_inside o within.old.items)) work.old work.new result }
{
    if is_inside(o, within.as_slice()) {
        push_class_between(work, out, "", of, "(...)")?;
        return Ok(Step::Rests(false, Rest::Whole));
    }
    let end = end_of_chain(work, of)?;
    end_step(work, alloc, out, within, quoted, o, of, end)
}

// A list or a dictionary, which is not gone into inside itself.
fn container_step(
    out: &mut Vec<Piece>,
    within: &mut Vec<u32>,
    o: u32,
    dots: &'static str,
    rest: Rest,
) -> Result<Step, AllocError>
    ensures step { IfOk result (λ step. (table : ValuesView) → next_seen within.new.items out.new.items table step
        ≡ container_next (inner_seen table rest) dots.now within.old.items (pieces_bytes table out.old.items) o (list_is_inside o within.old.items)) }
    ensures named { IfOk result (λ step. (values : ValuesView) → IsRest values rest → ArePieces values out.old.items → IsStep values step × ArePieces values out.new.items) }
{
    if is_inside(o, within.as_slice()) {
        push_word(out, dots)?;
        return Ok(Step::Rests(false, Rest::Whole));
    }
    enter(within, o)?;
    Ok(Step::Rests(false, rest))
}

// An object.
fn object_step(
    work: &mut Work,
    alloc: Global,
    out: &mut Vec<Piece>,
    within: &mut Vec<u32>,
    quoted: bool,
    o: u32,
) -> Result<Step, Stop>
    requires { ArePieces work.old.values out.old.items }
    ensures { Comes (λ values step. IsStep values step × ArePieces values out.new.items) (next_seen within.new.items out.new.items)
        (λ table (go : Next → Plan). kind_of o (λ kind. plan_object quoted within.old.items (pieces_bytes table out.old.items) o kind go)) work.old work.new result }
{
    match work.kind(o) {
        None => Err(work.fault(alloc, Exception::TypeError, "wrong kind of value")),
        Some(Kind::List) => {
            let step = container_step(out, within, o, "[...]", Rest::Items(o))?;
            Ok(step)
        },
        Some(Kind::Dict) => {
            let step = container_step(out, within, o, "{...}", Rest::Entries(o))?;
            Ok(step)
        },
        Some(Kind::Instance(of)) => instance_step(work, alloc, out, within, quoted, o, of),
        Some(Kind::File(path, _)) => {
            push_file(work, out, path)?;
            Ok(Step::Rests(false, Rest::Whole))
        },
    }
}

// A value.
fn one_step(
    work: &mut Work,
    alloc: Global,
    out: &mut Vec<Piece>,
    within: &mut Vec<u32>,
    quoted: bool,
    v: Value,
) -> Result<Step, Stop>
    requires pieces { ArePieces work.old.values out.old.items }
    requires named { IsNamed work.old.values v }
    ensures { Comes (λ values step. IsStep values step × ArePieces values out.new.items) (next_seen within.new.items out.new.items)
        (λ table. plan_step quoted within.old.items (pieces_bytes table out.old.items) (contents table v)) work.old work.new result }
{
    tuples_are_their_parts();
    match v {
        Value::Tuple(id) => Ok(Step::Rests(false, Rest::Tuple(id))),
        Value::Object(o) => object_step(work, alloc, out, within, quoted, o),
        _ => {
            push_plain(work, out, quoted, v)?;
            Ok(Step::Rests(false, Rest::Whole))
        },
    }
}

// One closing bracket more, or not.
fn with_closer(closes: bool, n: u64) -> u64
    requires { n + 1 < 2 ^ 64 }
    ensures count { result ≡ one_more closes n }
    ensures few { result ≤ n + 1 }
{
    if closes { n + 1 } else { n }
}

/// What a value comes to at its level. Exceptions whose arguments are no tuple may lie in one another as often as the steps pay for.
pub(crate) fn form_of(
    work: &mut Work,
    alloc: Global,
    out: &mut Vec<Piece>,
    within: &mut Vec<u32>,
    quoted: bool,
    v: Value,
) -> Result<Form, Stop>
    requires pieces { ArePieces work.old.values out.old.items }
    requires named { IsNamed work.old.values v }
    ensures { Comes (λ values form. IsRest values form.rest × ArePieces values out.new.items) (found_seen within.new.items out.new.items)
        (λ table. plan_form quoted within.old.items (pieces_bytes table out.old.items) (contents table v)) work.old work.new result }
{
    let mut at = v;
    let mut literal = quoted;
    let mut closers = 0;
    for i in 0..1000001u32 {
        match one_step(work, alloc, out, within, literal, at)? {
            Step::Rests(closes, rest) => {
                let closers = with_closer(closes, closers);
                return Ok(Form { closers, rest });
            },
            Step::Again(closes, next, w) => {
                closers = with_closer(closes, closers);
                literal = next;
                at = w;
            },
        }
    }
    Err(Stop::TooDear)
}
