// What is said of an exception that nothing caught.
ghost use Rattle.std.specs.Prelude.{◌≡◌, ◌<◌, IfOk, IfSome, length};
ghost use Rattle.std.specs.Option.{option_map};
ghost use Rattle.op_state.specs.Held.{GoesOn};
ghost use Rattle.op_state.specs.Uncaught.{AreWordsOf, IsArgsKey, IsClassOf, IsNameOf, IsSaid, IsTextOf, one_text};
ghost use Rattle.op_work.specs.Work.{Extends};
ghost use Rattle.py_value.specs.Contents.{contents};
ghost use Rattle.py_value.specs.Seen.{bytes_of};
ghost use Rattle.py_value.specs.Values.{ValuesView, AreInterned, IsNamed};
ghost use Rattle.py_value.specs.declared.value.Value.TheVariants.{Class};

use crate::held::Held;
use crate::laws::holding_is_seen;
use op_work::Work;
use prov_base::{Memory, Name, Pos};
use py_value::{Key, Kind, Value, contents_stay, tuples_are_their_parts};
use spelling::class_word;
use std::alloc::Global;

impl Held {
    /// The name of the class of an exception, and its argument where it has one alone that is a text. What is held goes on to stand for the same.
    pub fn uncaught(&mut self, alloc: Global, o: u32) -> Result<(Name, Option<Name>), Memory>
        ensures said { IfOk result (λ said. IsSaid self.new o said.0 said.1) }
        ensures goes_on { GoesOn self.old self.new }
        ensures extends { Extends self.old.work.values self.new.work.values }
    {
        contents_stay();
        holding_is_seen();
        let key = args_key(&mut self.work, alloc)?;
        let name = String::from_str(alloc, class_of(&self.work, o))?;
        let words = words_of(&self.work, alloc, o, key)?;
        Ok((Name::of(name), words))
    }
}

// The key under which an exception has its arguments.
fn args_key(work: &mut Work, alloc: Global) -> Result<Key, Memory>
    ensures key { IfOk result (IsArgsKey work.new.values) }
    ensures store { work.new.store ≡ work.old.store }
    ensures extends { Extends work.old.values work.new.values }
{
    let number = work.number(alloc, "args")?;
    match work.key_of(alloc, Value::Text(number)) {
        Ok(key) => Ok(key),
        Err(_) => Err(Memory),
    }
}

// The name of the class of an object.
fn class_of(work: &Work, o: u32) -> &str
    ensures { IsClassOf work.now o result.now }
{
    match work.kind_there(o) {
        Some(Kind::Instance(of)) => name_of(work, of),
        _ => "?",
    }
}

// The name of a class.
fn name_of(work: &Work, of: Value) -> &str
    ensures { IsNameOf work.now of result.now }
{
    match of {
        Value::Class(place) => noted_name(work, place),
        Value::Exc(number) => class_word(number),
        _ => "?",
    }
}

// The name that is noted of a place.
fn noted_name(work: &Work, place: Pos) -> &str
    ensures { IsNameOf work.now (Class place) result.now }
{
    match work.name_there(place) {
        Some(name) => work.text_of(name),
        None => "?",
    }
}

// The text that is the one argument under a key of an object.
fn words_of(work: &Work, alloc: Global, o: u32, key: Key) -> Result<Option<Name>, Memory>
    ensures words { IfOk result (AreWordsOf work.now o key) }
    ensures interned { AreInterned work.now.values }
{
    let _ = work.kind_there(o);
    let Some((_, args)) = work.entry_there(o, key) else {
        return Ok(None);
    };
    let Some(words) = text_in(work, args) else {
        return Ok(None);
    };
    let words = String::from_str(alloc, work.text_of(words))?;
    Ok(Some(Name::of(words)))
}

// The number of the text that a value is a tuple of alone.
fn text_in(work: &Work, v: Value) -> Option<u32>
    requires { IsNamed work.now.values v }
    ensures words { (table : ValuesView) → AreInterned table → Extends work.now.values table → one_text (contents table v) ≡ option_map (bytes_of table) result }
    ensures named { IfSome result (λ words. words < length work.now.values.texts) }
{
    tuples_are_their_parts();
    let Value::Tuple(args) = v else {
        return None;
    };
    let items = work.tuple_of(args);
    if items.len() != 1 {
        return None;
    }
    text_number(items[0])
}

// The number of a text.
fn text_number(v: Value) -> Option<u32>
    ensures { IsTextOf v result }
{
    match v {
        Value::Text(words) => Some(words),
        _ => None,
    }
}
