// The exception that an operation raises: it is made, with what it was given as its attribute `args`.
ghost use Rattle.std.specs.Prelude.{length, map};
ghost use Rattle.object_store.specs.Store.{count_with};
ghost use Rattle.op_work.specs.Raise.{args_set};
ghost use Rattle.op_work.specs.Work.{Ends, WroteAll, raising};
ghost use Rattle.py_value.specs.Contents.{contents};
ghost use Rattle.py_model.specs.Plan.{raises};
ghost use Rattle.py_value.specs.Values.{IsNamed, AreNamed};
ghost use Rattle.std.specs.Prelude.{◌<◌};

use crate::{Stop, Work};
use py_model::Answer;
use py_value::{Content, Key, Keys, Kind, Location, Value, tuples_are_their_parts};
use std::alloc::Global;

impl Work {
    /// An exception of a class of the language, by its number, is made with one argument and raised.
    pub fn raise(&mut self, alloc: Global, class: u64, argument: Value) -> Result<Answer, Stop>
        requires { IsNamed self.old.values argument }
        ensures { Ends (λ table. raising table class argument) self.old self.new result }
    {
        self.throw(alloc, Value::Exc(class), &[argument])
    }

    /// An exception of a class is made with its arguments and raised.
    pub fn throw(&mut self, alloc: Global, of: Value, given: &[Value]) -> Result<Answer, Stop>
        requires class { IsNamed self.old.values of }
        requires named { AreNamed self.old.values given.now }
        ensures { Ends (λ table. raises (contents table of) (map (contents table) given.now)) self.old self.new result }
    {
        tuples_are_their_parts();
        let args = self.number(alloc, "args")?;
        let items = self.tuple_number(alloc, given)?;
        let o = self.make(Kind::Instance(of));
        self.set_args(alloc, o, Value::Text(args), Value::Tuple(items))?;
        Ok(Answer::Raised(o))
    }

    // The attributes of an exception begin with `args`.
    fn set_args(&mut self, alloc: Global, o: u32, args: Value, items: Value) -> Result<Answer, Stop>
        requires args { IsNamed self.old.values args }
        requires items { IsNamed self.old.values items }
        requires within { o < count_with self.old.made self.old.store }
        ensures { WroteAll (λ table. args_set o (contents table args) (contents table items)) self.old self.new result }
    {
        let mut keys = Vec::new(alloc);
        keys.push(args)?;
        self.set(Location::Order(o), Content::Order(Keys::of(keys)))?;
        self.set(
            Location::Entry(o, Key { value: args }),
            Content::Entry(Some((args, items))),
        )?;
        Ok(Answer::Value(Value::None))
    }
}
