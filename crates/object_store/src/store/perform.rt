// The writes of a plan that was reserved, done in their order.
ghost use Rattle.std.specs.Prelude.{◌≡◌, ◌<◌, List, IfSome, map};
ghost use Rattle.py_value.specs.Changes.{after_accesses};
ghost use Rattle.py_value.specs.Named.{IsNamedAccess, IsNamedKind, AreNamedAccesses};
ghost use Rattle.py_value.specs.Seen.{access_seen};
ghost use Rattle.py_value.specs.Values.{ValuesView, AreInterned, Keeps as KeepsNumbers};
ghost use Rattle.py_value.specs.declared.access.Access.{Access as OneAccess};
ghost use Rattle.py_value.specs.declared.access.Location.{Location as OneLocation};
ghost use Rattle.object_store.specs.Named.{IsNamedStore};
ghost use Rattle.object_store.specs.Performing.{Does, DoesAll, SuitInTurn, kinds_with};
ghost use Rattle.object_store.specs.Room.{HasRoomFor, IsReserved, Takes, bytes_of, cells_of, keys_of};
ghost use Rattle.object_store.specs.Seen.{seen_at};
ghost use Rattle.object_store.specs.Store.{IsReservedFor, held_at, kinds, room_of};

use super::Store;
use crate::laws::plan_over_contents;
use py_value::{Access, Kind, Values};

impl Store {
    /// Does the writes of a plan that was reserved, in their order, behind the making of the object that the plan makes. A read of
    /// the plan does nothing.
    pub fn perform(&mut self, plan: &[Access], made: Option<Kind>, values: &Values)
        // Each write is of its location's own kind and names texts and tuples of these values.
        requires named { AreNamedAccesses values.now plan.now }
        requires reserved { IsReservedFor values.now self.old made plan.now }
        ensures kinds { kinds self.new ≡ kinds_with made (kinds self.old) }
        ensures names { self.new.names ≡ self.old.names }

        // In each table that has all texts and tuples named, the map over contents is changed as the plan says.
        ensures writes { (table : ValuesView) → AreInterned table → KeepsNumbers values.now.texts table.texts
            → AreNamedAccesses table plan.now → IsNamedKind table made → IsNamedStore table self.old
            → SuitInTurn (seen_at table self.old) (map (access_seen table) plan.now)
            → seen_at table self.new ≡ after_accesses (map (access_seen table) plan.now) (seen_at table self.old) }
        ensures store { (table : ValuesView) → AreNamedAccesses table plan.now → IsNamedKind table made
            → IsNamedStore table self.old → IsNamedStore table self.new }
    {
        plan_over_contents();
        self.make_first(made);
        self.do_all(plan, values);
    }

    // Makes the object that a plan makes.
    fn make_first(&mut self, made: Option<Kind>)
        requires { IfSome made (λ kind. 0 < self.old.spare_objects) }
        ensures held { (l : OneLocation) → held_at self.new l ≡ held_at self.old l }
        ensures kinds { kinds self.new ≡ kinds_with made (kinds self.old) }
        ensures names { self.new.names ≡ self.old.names }
        ensures reserved { (values : ValuesView) (plan : List OneAccess) → IsReservedFor values self.old made plan
            → IsReserved values (room_of self.new) plan }
    {
        if let Some(kind) = made {
            self.make(kind);
        }
    }

    // Does the accesses of a plan.
    fn do_all(&mut self, plan: &[Access], values: &Values)
        requires named { AreNamedAccesses values.now plan.now }
        requires room { IsReserved values.now (room_of self.old) plan.now }
        ensures { DoesAll values.now plan.now self.old self.new }
    {
        for access in plan {
            self.do_access(access, values);
        }
    }

    // Does one access.
    fn do_access(&mut self, access: &Access, values: &Values)
        requires named { IsNamedAccess values.now access.now }
        requires room { HasRoomFor values.now (room_of self.old) access.now }
        ensures does { Does values.now access.now self.old self.new }
        ensures left { Takes (room_of self.old) (room_of self.new) (cells_of access.now) (keys_of access.now) (bytes_of values.now access.now) }
    {
        match access {
            Access::Read(_) => {}
            Access::Set(l, content) => self.set_to(*l, content),
            Access::Update(l, change) => self.update(*l, *change, values),
        }
    }
}
