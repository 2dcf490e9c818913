// One form for all keys that are equal.
ghost use Rattle.std.specs.Prelude.{◌≡◌, [], map, IfOk, OnOk};
ghost use Rattle.py_value.specs.Values.{StandOnce, AreInterned, AreNamed};
ghost use Rattle.row_moments.specs.InOrder.{StandInOrder};
ghost use Rattle.slice_things.specs.Forms.{form_in, AreForms, IsFormed};

use prov_base::Memory;
use py_value::{Value, Values};
use std::alloc::Global;

/// The forms of values: values that are equal as keys have one. Each tuple has the number of its form. The forms are in a table of their own.
#[derive(Drop)]
pub struct Forms {
    values: Values,
    numbers: Vec<u32>,
}

// Puts texts into an empty table, each at its number.
fn put_texts(alloc: Global, values: &mut Values, names: &[&str]) -> Result<(), Memory>
    requires once { StandOnce (map (λ k. k.now) names.now) }
    requires none { values.old ≡ record { texts = []; tuples = [] } }
    ensures texts { OnOk result (values.new.texts ≡ map (λ k. k.now) names.now) }
    ensures tuples { values.new.tuples ≡ [] }
{
    for name in names {
        values.text(alloc, name)?;
    }
    Ok(())
}

// Puts tuples behind the texts of a table that has no tuple yet, each at its number.
fn put_tuples(alloc: Global, values: &mut Values, tuples: &[&[Value]]) -> Result<(), Memory>
    requires order { StandInOrder (record { texts = values.old.texts; tuples = map (λ k. k.now) tuples.now }) }
    requires none { values.old.tuples ≡ [] }
    ensures texts { values.new.texts ≡ values.old.texts }
    ensures tuples { OnOk result (values.new.tuples ≡ map (λ k. k.now) tuples.now) }
{
    for tuple in tuples {
        values.tuple(alloc, tuple)?;
    }
    Ok(())
}

// The table of texts and tuples, each at its number. It has numbers of 32 bits for all of them.
fn table_of(alloc: Global, names: &[&str], tuples: &[&[Value]]) -> Result<Values, Memory>
    requires { StandInOrder (record { texts = map (λ k. k.now) names.now; tuples = map (λ k. k.now) tuples.now }) }
    ensures table { IfOk result (λ values. values ≡ record { texts = map (λ k. k.now) names.now; tuples = map (λ k. k.now) tuples.now }) }
    ensures interned { IfOk result (λ values. AreInterned values) }
{
    let mut values = Values::new(alloc)?;
    put_texts(alloc, &mut values, names)?;
    put_tuples(alloc, &mut values, tuples)?;
    Ok(values)
}

impl Forms {
    /// The form of a value.
    pub fn form_of(&self, v: Value) -> Value
        ensures { result ≡ form_in self.now.numbers.items v }
    {
        match v {
            Value::Bool(true) => Value::Int(1),
            Value::Bool(false) => Value::Int(0),
            Value::Tuple(n) => Value::Tuple(self.numbers.get(n as usize).copied().unwrap_or(n)),
            Value::None
            | Value::Int(_)
            | Value::Text(_)
            | Value::Range(..)
            | Value::Fn(_)
            | Value::Class(_)
            | Value::Exc(_)
            | Value::Builtin(_)
            | Value::Object(_) => v,
        }
    }

    // The forms of values.
    fn forms_of(&self, alloc: Global, items: &[Value]) -> Result<Vec<Value>, Memory>
        ensures { IfOk result (λ forms. forms.items ≡ map (form_in self.now.numbers.items) items.now) }
    {
        let mut forms = Vec::new(alloc);
        for item in items {
            forms.push(self.form_of(*item))?;
        }
        Ok(forms)
    }

    // The next tuple gets its form.
    fn add(&mut self, alloc: Global, items: &[Value]) -> Result<(), Memory>
        requires { AreNamed self.old.values (map (form_in self.old.numbers.items) items.now) }
        ensures { OnOk result (IsFormed self.old self.new items.now) }
    {
        let forms = self.forms_of(alloc, items)?;
        let number = self.values.tuple(alloc, forms.as_slice())?;
        self.numbers.push(number)?;
        Ok(())
    }

    /// The forms of texts and tuples that stand in order. The table of forms has these first and the forms that are missing behind them, so
    /// there are numbers of 32 bits for all.
    pub fn of(alloc: Global, names: &[&str], tuples: &[&[Value]]) -> Result<Forms, Memory>
        requires { StandInOrder (record { texts = map (λ k. k.now) names.now; tuples = map (λ k. k.now) tuples.now }) }
        ensures interned { IfOk result (λ forms. AreInterned (record { texts = map (λ k. k.now) names.now; tuples = map (λ k. k.now) tuples.now })) }
        ensures forms { IfOk result (AreForms (record { texts = map (λ k. k.now) names.now; tuples = map (λ k. k.now) tuples.now })) }
    {
        let values = table_of(alloc, names, tuples)?;
        let mut forms = Forms {
            values,
            numbers: Vec::new(alloc),
        };
        for tuple in tuples {
            forms.add(alloc, tuple)?;
        }
        Ok(forms)
    }
}
