// Values as keys of dictionaries: what is refused first, and the normal form. What is noted of tuples spares work alone:
// without a note the answers are the same, so no contract asks that one is made, and a test shows that they are fast.
ghost use Rattle.std.specs.Prelude.{◌≡◌, ◌<◌, ◌≤◌, ◌⊎◌, length, take, Some, IfOk, IfErr, IfSome, OnOk, OnErr};
ghost use Rattle.std.specs.Prelude.{None as Nothing};
ghost use Rattle.std.specs.Option.{option_or};
ghost use Rattle.py_value.specs.Values.{Keeps, IsNamed, AreNamed, AreInterned};
ghost use Rattle.py_value.specs.Contents.{Contents, contents, parts_by};
ghost use Rattle.py_value.specs.KeyOf.{first_fault, fault_within, AddsOnly, HasForm, IsNormalOf, IsTupleIn, IsTupleInParts};
ghost use Rattle.py_value.specs.Notes.{IsKnown, AreKnown, AreNormalOf};
ghost use Rattle.py_value.specs.declared.key.KeyFault.TheVariants.{Memory as OutOfMemory};
ghost use Rattle.py_value.specs.declared.value.Value.TheVariants.{Tuple};

use super::{AsKey, Note, Values};
use crate::{Key, KeyFault, Value};
use prov_base::Memory;
use std::alloc::Global;

/// So many tuples may stand inside one another in a key.
const DEEPEST: u32 = 100;

impl AsKey {
    /// What is known of two values in a row.
    fn before(self, next: AsKey) -> AsKey
        ensures first { self.height ≤ result.height }
        ensures second { next.height ≤ result.height }
        ensures fault { result.fault ≡ option_or self.fault next.fault }
    {
        AsKey {
            height: self.height.max(next.height),
            fault: self.fault.or(next.fault),
        }
    }
}

impl Values {
    /// What is known of a value as a key.
    fn as_key(&self, value: Value) -> AsKey
        ensures { IsKnown self.now value result }
    {
        match value {
            Value::None | Value::Bool(_) | Value::Int(_) | Value::Text(_) => AsKey {
                height: 0,
                fault: None,
            },
            Value::Tuple(id) => match self.notes.get(id as usize) {
                Some(note) => note.as_key,
                None => AsKey {
                    height: u32::MAX,
                    fault: None,
                },
            },
            Value::Object(object) => AsKey {
                height: 0,
                fault: Some(KeyFault::NoKey(object)),
            },
            Value::Range(..) | Value::Fn(_) | Value::Class(_) | Value::Exc(_) | Value::Builtin(_) =>
                AsKey {
                    height: 0,
                    fault: Some(KeyFault::NotHere),
                },
        }
    }

    /// What is known of a list of values as keys.
    fn parts_as_keys(&self, items: &[Value]) -> AsKey
        ensures { AreKnown self.now items.now result }
    {
        let mut known = AsKey {
            height: 0,
            fault: None,
        };
        for item in items {
            known = known.before(self.as_key(*item));
        }
        known
    }

    /// What is known of a tuple as a key, from what is noted of its parts.
    fn tuple_as_key(&self, id: u32) -> AsKey
        requires { id < length self.now.tuples }
        ensures { IsKnown self.now (Tuple id) result }
    {
        let parts = self.parts_as_keys(self.tuple_of(id));
        AsKey {
            height: parts.height.saturating_add(1),
            fault: parts.fault,
        }
    }

    /// Notes what is known of the first tuple without a note, if there is one.
    fn note_next(&mut self) -> Result<(), Memory>
        ensures { self.new ≡ self.old }
    {
        let id = self.notes.len();
        if id < self.tuples.len() {
            let as_key = self.tuple_as_key(id as u32);
            self.notes.push(Note {
                as_key,
                normal: None,
            })?;
        }
        Ok(())
    }

    /// Notes what is known of each tuple.
    fn note_tuples(&mut self) -> Result<(), Memory>
        ensures { self.new ≡ self.old }
    {
        for _ in self.notes.len()..self.tuples.len() {
            self.note_next()?;
        }
        Ok(())
    }

    /// What is refused first of a value as a key, where so many tuples may stand inside one another.
    #[cycle(fault)]
    fn fault_of(&self, levels: u32, value: Value) -> Option<KeyFault>
        requires named { IsNamed self.now value }
        requires few { levels ≤ 100 }
        ensures { result ≡ fault_within levels self.now value }
    {
        match value {
            Value::None | Value::Bool(_) | Value::Int(_) | Value::Text(_) => None,
            Value::Tuple(id) => self.fault_of_tuple(levels, id),
            Value::Object(object) => Some(KeyFault::NoKey(object)),
            Value::Range(..) | Value::Fn(_) | Value::Class(_) | Value::Exc(_) | Value::Builtin(_) =>
                { Some(KeyFault::NotHere) }
        }
    }

    /// What is refused first of a tuple as a key. Of its parts only the first one that is nested too deep is gone into.
    #[cycle(fault)]
    fn fault_of_tuple(&self, levels: u32, id: u32) -> Option<KeyFault>
        requires named { id < length self.now.tuples }
        requires few { levels ≤ 100 }
        ensures { result ≡ fault_within levels self.now (Tuple id) }
    {
        let known = self.as_key(Value::Tuple(id));
        if known.height <= levels {
            return known.fault;
        }
        if levels == 0 {
            return Some(KeyFault::TooDeep);
        }
        for item in self.tuple_of(id) {
            let fault = self.fault_of(levels - 1, *item);
            if fault.is_some() {
                return fault;
            }
        }
        None
    }

    /// The number of a tuple's normal form, where it is noted.
    fn noted_form(&self, id: u32) -> Option<u32>
        ensures normal { IfSome result (λ number. IsNormalOf self.now self.now (Tuple id) (Tuple number)) }
    {
        let note = self.notes.get(id as usize)?;
        note.normal
    }

    /// Notes the number of a tuple's normal form.
    fn note_form(&mut self, id: u32, number: u32)
        requires { IsNormalOf self.old self.old (Tuple id) (Tuple number) }
        ensures { self.new ≡ self.old }
    {
        let place = id as usize;
        if place < self.notes.len() {
            self.notes[place].normal = Some(number);
        }
    }

    /// The normal form of a value that is a key.
    #[cycle(normal)]
    fn form_of(&mut self, alloc: Global, levels: u32, value: Value) -> Result<Value, Memory>
        requires named { IsNamed self.old value }
        requires key { fault_within levels self.old value ≡ Nothing }
        ensures normal { IfOk result (IsNormalOf self.old self.new value) }
        ensures texts { self.new.texts ≡ self.old.texts }
        ensures keeps { Keeps self.old.tuples self.new.tuples }
        ensures interned { AreInterned self.new }
        ensures only { AddsOnly self.old self.new (λ c. IsTupleIn c (contents self.old value)) }
    {
        let _ = &self.texts;
        match value {
            Value::Bool(b) => Ok(Value::Int(i64::from(b))),
            Value::Tuple(id) => Ok(Value::Tuple(self.form_of_tuple(alloc, levels, id)?)),
            Value::None
            | Value::Int(_)
            | Value::Text(_)
            | Value::Object(_)
            | Value::Range(..)
            | Value::Fn(_)
            | Value::Class(_)
            | Value::Exc(_)
            | Value::Builtin(_) => Ok(value),
        }
    }

    /// The number of the normal form of a tuple that is a key.
    #[cycle(normal)]
    fn form_of_tuple(&mut self, alloc: Global, levels: u32, id: u32) -> Result<u32, Memory>
        requires named { id < length self.old.tuples }
        requires key { fault_within levels self.old (Tuple id) ≡ Nothing }
        ensures normal { IfOk result (λ number. IsNormalOf self.old self.new (Tuple id) (Tuple number)) }
        ensures texts { self.new.texts ≡ self.old.texts }
        ensures keeps { Keeps self.old.tuples self.new.tuples }
        ensures interned { AreInterned self.new }
        ensures only { AddsOnly self.old self.new (λ c. IsTupleIn c (contents self.old (Tuple id))) }
    {
        let _ = &self.texts;
        if let Some(number) = self.noted_form(id) {
            return Ok(number);
        }
        let parts = Vec::from_slice(alloc, self.tuple_of(id))?;
        let forms = self.forms_of(alloc, levels - 1, parts.as_slice())?;
        let number = self.tuple(alloc, forms.as_slice())?;
        self.note_form(id, number);
        Ok(number)
    }

    /// The normal forms of values that are keys.
    #[cycle(normal)]
    fn forms_of(
        &mut self,
        alloc: Global,
        levels: u32,
        values: &[Value],
    ) -> Result<Vec<Value>, Memory>
        requires named { AreNamed self.old values.now }
        requires keys { first_fault (fault_within levels self.old) values.now ≡ Nothing }
        ensures normal { IfOk result (λ forms. AreNormalOf self.old self.new values.now forms.items) }
        ensures texts { self.new.texts ≡ self.old.texts }
        ensures keeps { Keeps self.old.tuples self.new.tuples }
        ensures interned { AreInterned self.new }
        ensures only { AddsOnly self.old self.new (λ c. IsTupleInParts c (parts_by (contents self.old) values.now)) }
    {
        let _ = &self.texts;
        let mut forms = Vec::new(alloc);
        for value in values {
            let form = self.form_of(alloc, levels, *value)?;
            forms.push(form)?;
        }
        Ok(forms)
    }

    /// Takes back the tuples from this number on, and what is noted.
    fn forget_from(&mut self, number: usize)
        ensures texts { self.new.texts ≡ self.old.texts }
        ensures tuples { self.new.tuples ≡ take number self.old.tuples }
    {
        self.notes.clear();
        self.tuples.truncate(number);
    }

    /// The key that a value is: the value in its normal form, or what is refused first of it. A tuple in its normal form
    /// may be new: it is put behind the tuples. A tuple may stand inside fewer than 100 others.
    pub fn key_of(&mut self, alloc: Global, value: Value) -> Result<Key, KeyFault>
        requires { IsNamed self.old value }
        ensures key { IfOk result (λ key. IsNormalOf self.old self.new value key.value) }

        // A value is a key exactly where nothing is refused of it, unless memory runs out.
        ensures allowed { OnOk result (fault_within 100 self.old value ≡ Nothing) }
        ensures refused { IfErr result (λ fault. (fault ≡ OutOfMemory) ⊎ (fault_within 100 self.old value ≡ Some fault)) }

        // What had a number keeps it. After an error all is as before.
        ensures texts { self.new.texts ≡ self.old.texts }
        ensures keeps { Keeps self.old.tuples self.new.tuples }
        ensures grows { length self.old.tuples ≤ length self.new.tuples }
        ensures err { OnErr result (self.new ≡ self.old) }
        ensures interned { AreInterned self.new }

        // Only normal forms of the value's tuples come, and nothing where these are there already.
        ensures only { AddsOnly self.old self.new (λ c. IsTupleIn c (contents self.old value)) }
        ensures known { ((c : Contents) → IsTupleIn c (contents self.old value) → HasForm self.old c) → self.new ≡ self.old }
    {
        let _ = &self.texts;
        self.note_tuples()?;
        if let Some(fault) = self.fault_of(DEEPEST, value) {
            return Err(fault);
        }
        let count = self.tuples.len();
        match self.form_of(alloc, DEEPEST, value) {
            Ok(value) => Ok(Key { value }),
            Err(Memory) => {
                self.forget_from(count);
                Err(KeyFault::Memory)
            }
        }
    }
}
