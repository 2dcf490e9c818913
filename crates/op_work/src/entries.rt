// Entries of dictionaries: their keys, and what stands at a key.
ghost use Rattle.std.specs.Prelude.{◌≡◌, ◌⊎◌, Err, Some, IfOk, IfErr, OnOk, OnErr};
ghost use Rattle.std.specs.Prelude.{None as Nothing};
ghost use Rattle.object_store.specs.Store.{content_at};
ghost use Rattle.op_work.specs.Entries.{IsKeyOf, IsNamedEntry, seen_entry, entry_in, value_seen};
ghost use Rattle.op_work.specs.Work.{Comes, Extends, is_any, as_is};
ghost use Rattle.py_model.specs.Keys.{with_key_of, no_key_of};
ghost use Rattle.py_model.specs.Plan.{Plan, read_entry as plan_entry, kind_of};
ghost use Rattle.py_value.specs.Contents.{contents};
ghost use Rattle.py_value.specs.KeyOf.{IsNormalOf, fault_within};
ghost use Rattle.py_value.specs.Values.{AreInterned, IsNamed};
ghost use Rattle.py_value.specs.declared.access.Location.TheVariants.{Entry};
ghost use Rattle.py_value.specs.declared.key.KeyFault.TheVariants.{Memory as OutOfMemory};

use crate::{Exception, Stop, Work, sayings_stay};
use object_store::named_stays;
use py_value::{
    Content, Key, KeyFault, Kind, Location, Value, contents_stay, key_faults_of_contents,
};
use std::alloc::Global;

impl Work {
    /// The key that a value is. An object is none, and its kind decides the exception.
    pub fn key_of(&mut self, alloc: Global, v: Value) -> Result<Key, Stop>
        requires { IsNamed self.old.values v }
        ensures { Comes (IsKeyOf v) (value_seen v) (λ table. with_key_of (contents table v)) self.old self.new result }
    {
        contents_stay();
        key_faults_of_contents();
        match self.form(alloc, v) {
            Ok(key) => Ok(key),
            Err(KeyFault::NoKey(o)) => Err(self.no_key(alloc, o)),
            Err(KeyFault::NotHere) => Err(self.fault(
                alloc,
                Exception::NotImplementedError,
                "not in this profile",
            )),
            Err(KeyFault::TooDeep) => Err(self.fault(
                alloc,
                Exception::RecursionError,
                "nested too deep",
            )),
            Err(KeyFault::Memory) => Err(Stop::Memory),
        }
    }

    // The normal form of a value, or what is refused of it as a key.
    fn form(&mut self, alloc: Global, v: Value) -> Result<Key, KeyFault>
        requires { IsNamed self.old.values v }
        ensures normal { IfOk result (λ key. IsNormalOf self.old.values self.new.values v key.value) }
        ensures allowed { OnOk result (fault_within 100 self.old.values v ≡ Nothing) }
        ensures refused { IfErr result (λ fault. (fault ≡ OutOfMemory) ⊎ (fault_within 100 self.old.values v ≡ Some fault)) }
        ensures same { self.new ≡ record self.old { values = self.new.values } }
        ensures extends { Extends self.old.values self.new.values }
        ensures err { OnErr result (self.new ≡ self.old) }
        ensures interned { AreInterned self.old.values }
    {
        named_stays();
        sayings_stay();
        self.values.key_of(alloc, v)
    }

    // The exception that an object raises as a key.
    fn no_key(&mut self, alloc: Global, o: u32) -> Stop
        ensures { Comes is_any as_is (λ table (go : Unit {0} → Plan). kind_of o no_key_of) self.old self.new (Err result) }
    {
        match self.kind_there(o) {
            Some(Kind::List) => self.fault(alloc, Exception::TypeError, "not usable as a key"),
            Some(Kind::Dict) => self.fault(alloc, Exception::TypeError, "not usable as a key"),
            Some(Kind::Instance(_)) => self.fault(
                alloc,
                Exception::NotImplementedError,
                "not in this profile",
            ),
            Some(Kind::File(_, _)) => self.fault(
                alloc,
                Exception::NotImplementedError,
                "not in this profile",
            ),
            None => self.fault(alloc, Exception::NotImplementedError, "not in this profile"),
        }
    }

    /// The first form of the key and the value of an entry, by the key that a value is.
    pub fn read_entry(&mut self, o: u32, v: Value, key: Key) -> Result<Option<(Value, Value)>, Stop>
        requires { IsKeyOf v self.old.values key }
        ensures { Comes IsNamedEntry seen_entry (λ table. plan_entry o (contents table v)) self.old self.new result }
    {
        contents_stay();
        let _ = v;
        self.note_read(Location::Entry(o, key))?;
        Ok(self.entry_there(o, key))
    }

    /// What stands at a key, as the store has it.
    pub fn entry_there(&self, o: u32, key: Key) -> Option<(Value, Value)>
        ensures entry { result ≡ entry_in (content_at self.now.store (Entry o key)) }
        ensures interned { AreInterned self.now.values }
    {
        let _ = &self.values;
        match self.store.read(Location::Entry(o, key)) {
            Some(Content::Entry(entry)) => entry,
            _ => None,
        }
    }
}
