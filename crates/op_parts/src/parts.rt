// What performs the operations of a run.
ghost use Rattle.std.specs.Prelude.{◌≡◌, ℕ, [], IfErr, IfOk};
ghost use Rattle.op_parts.specs.Parts.{IsFitting, IsStanding};
ghost use Rattle.py_model.specs.Capture.{Capture};
ghost use Rattle.py_model.specs.Doing.{standing};
ghost use Rattle.py_model.specs.Meaning.{starting};
ghost use Rattle.py_value.specs.Values.{ValuesView};

use crate::asking::perform_asking;
use crate::naming::{asks, has_names};
use crate::opening::perform_open;
use answer_source::Source;
use model_laws::operations_suit;
use object_store::{keys_have_entries, named_stays, plans_suit, store_over_contents};
use op_state::{Held, holding_is_seen};
use prov_base::{Memory, Name, Pos};
use py_model::{Doer, Done, Entered, Op, costs_grow, few_operations_ask};
use py_value::{Value, Values, contents_stay, same_place_same_location};
use std::alloc::Global;

/// What is held of a run, a source of answers, and how many activations were entered.
#[derive(Drop)]
pub struct Parts<S: Source> {
    pub(crate) held: Held,
    pub(crate) source: S,
    pub(crate) entered: u32,
}

impl<S: Source + Drop> Parts<S> {
    /// What performs the operations of a run of the script at a path, with these arguments. It stands for the state in which the run begins,
    /// with any number of steps. Where memory runs out the source is given back.
    pub fn new(alloc: Global, path: &str, arguments: &[Name], source: S) -> Result<Parts<S>, S>
        requires { S.stands source [] [] }
        ensures source { IfOk result (λ parts. parts.source ≡ source) }
        ensures starts { IfOk result (λ parts. (table : ValuesView) (capture : Capture) (steps : ℕ) → IsFitting (S.fits parts.source) parts.held.work.values table capture
            → IsStanding (S.stands parts.source) parts.held parts.entered table capture (standing (starting capture path.now arguments.now steps))) }
        ensures back { IfErr result (λ back. back ≡ source) }
    {
        let Ok(held) = Held::new(alloc, path, arguments) else {
            return Err(source);
        };
        Ok(Parts {
            held,
            source,
            entered: 0,
        })
    }

    /// What is held of the run, and its source.
    pub fn finish(self) -> (Held, S)
        ensures held { result.0 ≡ self.held }
        ensures source { result.1 ≡ self.source }
    {
        (self.held, self.source)
    }
}

impl<S: Source> Doer for Parts<S> {
    ghost fits = { λ p table capture. IsFitting (S.fits p.source) p.held.work.values table capture };

    ghost stands = { λ p table capture s. IsStanding (S.stands p.source) p.held p.entered table capture s };

    fn perform(
        &mut self,
        alloc: Global,
        at: Pos,
        op: Op,
        values: &[Value],
        left: u32,
    ) -> Result<Done, Memory> {
        few_operations_ask();
        costs_grow();
        holding_is_seen();
        operations_suit();
        if !has_names(self.held.values(), op, values) {
            return Err(Memory);
        }
        if left == 0 {
            return Ok(Done::TooDear);
        }
        if op.no == 62 {
            return perform_open(
                &mut self.held,
                &mut self.source,
                alloc,
                at,
                op,
                values,
                left,
            );
        }
        if asks(op.no) {
            return perform_asking(
                &mut self.held,
                &mut self.source,
                alloc,
                at,
                op,
                values,
                left,
            );
        }
        match crate::performing::perform(&mut self.held, alloc, op, values, left)? {
            Some(deed) => Ok(Done::Did(deed)),
            None => Ok(Done::TooDear),
        }
    }

    fn enter(
        &mut self,
        alloc: Global,
        def: Pos,
        names: &[Name],
        values: &[Value],
        left: u32,
    ) -> Result<Entered, Memory> {
        keys_have_entries();
        plans_suit();
        self.source.some_fits();
        let _ = def;
        let _ = self.held.values().has(Value::None);
        if left as usize <= values.len() {
            return Ok(Entered::TooDear);
        }
        let Some(activation) = self.entered.checked_add(1) else {
            return Err(Memory);
        };
        let Some(deed) = self.held.enter(alloc, activation, names, values, left)? else {
            return Err(Memory);
        };
        self.entered = activation;
        Ok(Entered::In(activation, deed.accesses))
    }

    fn values(&self) -> &Values {
        contents_stay();
        named_stays();
        same_place_same_location();
        store_over_contents();
        self.source.some_fits();
        self.held.values()
    }

    fn word(&mut self, alloc: Global, text: &str) -> Result<u32, Memory> {
        self.held.word(alloc, text)
    }
}
