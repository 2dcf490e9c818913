// The keys of an order, from the steps that were done to it.
ghost use Rattle.std.specs.Prelude.{◌≡◌, ◌∷◌, ◌++◌, [], List, IfOk, OnOk};
ghost use Rattle.py_value.specs.Changes.{with_key, without_key};
ghost use Rattle.py_value.specs.Contents.{Contents, contents};
ghost use Rattle.py_value.specs.Values.{ValuesView, IsNamed};
ghost use Rattle.py_value.specs.declared.value.Value.{Value as OneValue};
ghost use Rattle.row_words.specs.Fits.{Each};
ghost use Rattle.slice_things.specs.Counts.{often};
ghost use Rattle.slice_things.specs.Forms.{AreForms};
ghost use Rattle.held_rows.specs.Settled.{left, AreFew, Settles, AreKeys};
ghost use Rattle.held_rows.specs.Steps.{step_done, keys_after, IsNamedStep};

use crate::steps::Step;
use crate::tally::Tally;
use prov_base::Memory;
use py_value::Value;
use slice_things::Forms;
use std::alloc::Global;

/// The keys that were put behind one another, how many of each form are still there, and how many were taken out, from the first on.
#[derive(Drop)]
struct Settling {
    slots: Vec<Value>,
    there: Tally,
    out: Tally,
}

impl Settling {
    // No key.
    fn new(alloc: Global) -> Settling
        ensures slots { result.slots.items ≡ [] }
        ensures there { result.there ≡ [] }
        ensures out { result.out ≡ [] }
        ensures few { AreFew result }
    {
        Settling {
            slots: Vec::new(alloc),
            there: Tally::new(alloc),
            out: Tally::new(alloc),
        }
    }

    // A key goes behind the others.
    fn put(&mut self, forms: &Forms, key: Value) -> Result<(), Memory>
        requires few { AreFew self.now }
        ensures few { OnOk result (AreFew self.new) }
        ensures keys { (view : ValuesView) (keys : List Contents) → AreForms view forms.now → IsNamed view key → Settles view forms.now self.old keys
            → OnOk result (Settles view forms.now self.new (keys ++ contents view key ∷ [])) }
    {
        self.slots.push(key)?;
        self.there.more(forms.form_of(key))
    }

    // A key goes behind the others, unless an equal one is there.
    fn insert(&mut self, forms: &Forms, key: Value) -> Result<(), Memory>
        requires few { AreFew self.now }
        ensures few { OnOk result (AreFew self.new) }
        ensures keys { (view : ValuesView) (keys : List Contents) → AreForms view forms.now → IsNamed view key → Settles view forms.now self.old keys
            → OnOk result (Settles view forms.now self.new (with_key (contents view key) keys)) }
    {
        if self.there.count(forms.form_of(key)) == 0 {
            self.put(forms, key)?;
        }
        Ok(())
    }

    // The first equal key goes out, where there is one.
    fn delete(&mut self, forms: &Forms, key: Value) -> Result<(), Memory>
        requires few { AreFew self.now }
        ensures few { OnOk result (AreFew self.new) }
        ensures keys { (view : ValuesView) (keys : List Contents) → AreForms view forms.now → IsNamed view key → Settles view forms.now self.old keys
            → OnOk result (Settles view forms.now self.new (without_key (contents view key) keys)) }
    {
        let form = forms.form_of(key);
        if self.there.count(form) > 0 {
            self.there.less(form)?;
            self.out.more(form)?;
        }
        Ok(())
    }

    // One step is done.
    fn step(&mut self, forms: &Forms, step: Step) -> Result<(), Memory>
        requires few { AreFew self.now }
        ensures few { OnOk result (AreFew self.new) }
        ensures keys { (view : ValuesView) (keys : List Contents) → AreForms view forms.now → IsNamedStep view step → Settles view forms.now self.old keys
            → OnOk result (Settles view forms.now self.new (step_done view step keys)) }
    {
        match step {
            Step::Put(key) => self.put(forms, key),
            Step::Insert(key) => self.insert(forms, key),
            Step::Delete(key) => self.delete(forms, key),
        }
    }
}

// A key is among those that were not taken out, or it counts for one that was.
fn keep_left(
    forms: &Forms,
    taken: &mut Tally,
    keys: &mut Vec<Value>,
    key: Value,
) -> Result<(), Memory>
    ensures { OnOk result ((rest : List OneValue) → keys.new.items ++ left forms.now.numbers.items (λ f. often f taken.new) rest
        ≡ keys.old.items ++ left forms.now.numbers.items (λ f. often f taken.old) (key ∷ rest)) }
{
    let form = forms.form_of(key);
    if taken.count(form) > 0 {
        taken.less(form)
    } else {
        keys.push(key)?;
        Ok(())
    }
}

// The keys that were not taken out.
fn keys_left(
    alloc: Global,
    forms: &Forms,
    slots: &[Value],
    out: Tally,
) -> Result<Vec<Value>, Memory>
    ensures { IfOk result (λ keys. keys.items ≡ left forms.now.numbers.items (λ f. often f out) slots.now) }
{
    let mut taken = out;
    let mut keys = Vec::new(alloc);
    for key in slots {
        keep_left(forms, &mut taken, &mut keys, *key)?;
    }
    Ok(keys)
}

/// The keys after steps, in order. Each step is looked at twice at most.
pub(crate) fn settled(alloc: Global, forms: &Forms, steps: &[Step]) -> Result<Vec<Value>, Memory>
    ensures { (view : ValuesView) → AreForms view forms.now → Each (IsNamedStep view) steps.now → IfOk result (λ keys. AreKeys view keys.items (keys_after view steps.now [])) }
{
    let mut settling = Settling::new(alloc);
    for step in steps {
        settling.step(forms, *step)?;
    }
    let Settling { slots, out, .. } = settling;
    keys_left(alloc, forms, slots.as_slice(), out)
}
