// What an operation writes, behind all that it reads. It is done to the store once the operation is at its end.
ghost use Rattle.std.specs.Prelude.{◌≡◌, ◌∷◌, ◌++◌, [], length, Some, OnOk, OnErr, IfErr};
ghost use Rattle.object_store.specs.Room.{IsWithin};
ghost use Rattle.object_store.specs.Store.{count_with, kinds};
ghost use Rattle.op_work.specs.Work.{Wrote, IsUnpaid, IsThere};
ghost use Rattle.py_model.specs.Plan.{write, change as plan_change};
ghost use Rattle.py_value.specs.Named.{IsNamedAccess, IsNamedKind};
ghost use Rattle.py_value.specs.Seen.{location_seen, content_seen, change_seen};
ghost use Rattle.py_value.specs.Values.{AreInterned};
ghost use Rattle.py_value.specs.declared.access.Access.TheVariants.{Set, Update};

use crate::{Stop, Work};
use py_value::{Access, Change, Content, Kind, Location};

impl Work {
    /// The operation makes an object of this kind. Its writes name it by the number that is answered.
    pub fn make(&mut self, kind: Kind) -> u32
        requires { IsNamedKind self.old.values (Some kind) }
        ensures number { result ≡ length (kinds self.old.store) }
        ensures made { self.new ≡ record self.old { made = Some kind } }
    {
        self.made = Some(kind);
        self.store.next()
    }

    /// A location is set to a content of its own kind.
    pub fn set(&mut self, l: Location, content: Content) -> Result<(), Stop>
        requires named { IsNamedAccess self.old.values (Set l content) }
        requires within { IsWithin (count_with self.old.made self.old.store) l }
        ensures { Wrote (λ table. write (location_seen table l) (content_seen table content)) self.old self.new result }
    {
        self.note_set(l, content)
    }

    // A Set is noted, where it can be paid for.
    pub(crate) fn note_set(&mut self, l: Location, content: Content) -> Result<(), Stop>
        requires named { IsNamedAccess self.old.values (Set l content) }
        requires within { IsWithin (count_with self.old.made self.old.store) l }
        ensures done { OnOk result (self.new ≡ record self.old { touched = self.old.touched ++ Set l content ∷ [] }) }
        ensures unpaid { IfErr result (λ stop. IsUnpaid self.old 1 0 stop) }
        ensures same { OnErr result (self.new ≡ self.old) }
    {
        if !self.pays(1, 0) {
            return Err(Stop::TooDear);
        }
        self.touched.push(Access::Set(l, content))?;
        Ok(())
    }

    /// A location is changed, and keeps the rest of what stands there. A file that is appended to is there.
    pub fn update(&mut self, l: Location, how: Change) -> Result<(), Stop>
        requires named { IsNamedAccess self.old.values (Update l how) }
        requires within { IsWithin (count_with self.old.made self.old.store) l }
        requires there { IsThere self.old.store (Update l how) }
        ensures { Wrote (λ table. plan_change (location_seen table l) (change_seen table how)) self.old self.new result }
    {
        self.note_update(l, how)
    }

    // An Update is noted, where it can be paid for.
    fn note_update(&mut self, l: Location, how: Change) -> Result<(), Stop>
        requires named { IsNamedAccess self.old.values (Update l how) }
        requires within { IsWithin (count_with self.old.made self.old.store) l }
        requires there { IsThere self.old.store (Update l how) }
        ensures done { OnOk result (self.new ≡ record self.old { touched = self.old.touched ++ Update l how ∷ [] }) }
        ensures unpaid { IfErr result (λ stop. IsUnpaid self.old 1 0 stop) }
        ensures same { OnErr result (self.new ≡ self.old) }
    {
        if !self.pays(1, 0) {
            return Err(Stop::TooDear);
        }
        self.touched.push(Access::Update(l, how))?;
        Ok(())
    }
}
