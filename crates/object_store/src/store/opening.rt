// The store as a run begins.
ghost use Rattle.std.specs.Prelude.{◌≡◌, ℕ, List, [], ◌∷◌, ◌++◌, codes, slice_get, Some, IfOk, OnErr, OnOk};
ghost use Rattle.py_value.specs.declared.access.Kind.TheVariants.{List as ListKind};
ghost use Rattle.py_value.specs.declared.access.Location.TheVariants.{Var as VarAt, Len as LenAt};
ghost use Rattle.py_value.specs.declared.value.Value.TheVariants.{Text as TextValue};
ghost use Rattle.object_store.specs.declared.cell.Cell.TheVariants.{Var as VarCell, Len as LenCell};
ghost use Rattle.object_store.specs.Opening.{AreWords, IsOpening, GainsTexts, AddsAll, AddsFront, opening_texts};
ghost use Rattle.py_value.specs.Values.{Adds};

use super::Store;
use crate::cell::Cell;
use crate::object::Object;
use indexmap::IndexMap;
use prov_base::{Memory, Name};
use py_value::{Kind, Location, Value, Values};
use region_pool::Pool;
use std::alloc::Global;

impl Store {
    /// The store as a run begins: object 0 is the list of the script's path and arguments, and `__name__` is `__main__`.
    pub fn new(
        alloc: Global,
        values: &mut Values,
        path: &str,
        arguments: &[Name],
    ) -> Result<Store, Memory>
        ensures opening { IfOk result (IsOpening values.new (path.now ∷ arguments.now)) }

        // What had a number keeps it.
        ensures gains { GainsTexts values.old values.new }

        // The texts that come are the path, the arguments, `__name__` and `__main__`: after a refusal, the first of them.
        ensures texts { OnOk result (AddsAll values.old.texts values.new.texts (opening_texts path.now arguments.now)) }
        ensures front { AddsFront values.old.texts values.new.texts (opening_texts path.now arguments.now) }
    {
        let items = words(alloc, values, path, arguments)?;
        let (name, main) = own_name(alloc, values)?;
        let len = items.len() as u64;
        Ok(Store {
            objects: one_object(alloc, Object::list(alloc, items))?,
            cells: opening_cells(alloc, len, name, main)?,
            files: IndexMap::new(alloc),
            names: IndexMap::new(alloc),
            next_object: Object::new(alloc, Kind::List),
        })
    }
}

// The texts `__name__` and `__main__`.
fn own_name(alloc: Global, values: &mut Values) -> Result<(u32, u32), Memory>
    ensures name { IfOk result (λ pair. slice_get values.new.texts pair.0 ≡ Some (codes "__name__")) }
    ensures main { IfOk result (λ pair. slice_get values.new.texts pair.1 ≡ Some (codes "__main__")) }
    ensures gains { GainsTexts values.old values.new }
    ensures texts { OnOk result (AddsAll values.old.texts values.new.texts (codes "__name__" ∷ codes "__main__" ∷ [])) }
    ensures front { AddsFront values.old.texts values.new.texts (codes "__name__" ∷ codes "__main__" ∷ []) }
{
    let name = values.text(alloc, "__name__")?;
    let main = values.text(alloc, "__main__")?;
    Ok((name, main))
}

// The texts of a path and of arguments.
fn words(
    alloc: Global,
    values: &mut Values,
    path: &str,
    arguments: &[Name],
) -> Result<Vec<Option<Value>>, Memory>
    ensures words { IfOk result (λ items. AreWords values.new items.items (path.now ∷ arguments.now)) }
    ensures gains { GainsTexts values.old values.new }
    ensures texts { OnOk result (AddsAll values.old.texts values.new.texts (path.now ∷ arguments.now)) }
    ensures front { AddsFront values.old.texts values.new.texts (path.now ∷ arguments.now) }
{
    let mut items = Vec::new(alloc);
    push_word(alloc, values, &mut items, path)?;
    for argument in arguments {
        push_word(alloc, values, &mut items, argument.as_str())?;
    }
    Ok(items)
}

// Puts the text of a word behind the items.
fn push_word(
    alloc: Global,
    values: &mut Values,
    items: &mut Vec<Option<Value>>,
    word: &str,
) -> Result<(), Memory>
    ensures words { OnOk result ((words : List (List ℕ)) → AreWords values.old items.old.items words
        → AreWords values.new items.new.items (words ++ word.now ∷ [])) }
    ensures gains { GainsTexts values.old values.new }
    ensures text { OnOk result (Adds values.old.texts values.new.texts word.now) }
    ensures err { OnErr result (values.new ≡ values.old) }
{
    items.reserve(1)?;
    let number = values.text(alloc, word)?;
    items.push_reserved(Some(Value::Text(number)));
    Ok(())
}

// A pool with one object.
fn one_object(alloc: Global, object: Object) -> Result<Pool<Object>, Memory>
    ensures { IfOk result (λ pool. pool.items ≡ object ∷ []) }
{
    let Ok(mut objects) = Pool::new(alloc) else {
        return Err(Memory);
    };
    let Ok(()) = objects.reserve(alloc, 1) else {
        return Err(Memory);
    };
    objects.put(object);
    Ok(objects)
}

// The length of object 0, and the script's name.
fn opening_cells(
    alloc: Global,
    len: u64,
    name: u32,
    main: u32,
) -> Result<IndexMap<Location, Cell>, Memory>
    ensures { IfOk result (λ cells. cells.entries ≡ (LenAt 0, LenCell len) ∷ (VarAt 0 name, VarCell (Some (TextValue main))) ∷ []) }
{
    let mut cells = IndexMap::new(alloc);
    cells.insert(Location::Len(0), Cell::Len(len))?;
    cells.insert(Location::Var(0, name), Cell::Var(Some(Value::Text(main))))?;
    Ok(cells)
}
