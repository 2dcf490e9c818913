// The content of a location is read, and the access is noted. What was never set reads as unset.
ghost use Rattle.std.specs.Prelude.{◌≡◌, ◌<◌, length, slice_get, map, Some, IfOk};
ghost use Rattle.object_store.specs.Store.{content_at, item_at, keys_at};
ghost use Rattle.op_work.specs.Work.{Comes, is_any, as_is, IsNamedMaybe, seen_maybe, var_in, len_in, offset_in, closed_in, method_in, base_in};
ghost use Rattle.py_model.specs.Plan.{read_var as plan_var, read_len as plan_len, read_item as plan_item, read_offset as plan_offset, read_closed as plan_closed, read_method as plan_method, read_base as plan_base, read_order as plan_order};
ghost use Rattle.py_value.specs.Contents.{contents};
ghost use Rattle.py_value.specs.Seen.{bytes_of};
ghost use Rattle.py_value.specs.Values.{AreNamed};
ghost use Rattle.py_value.specs.declared.access.Location.TheVariants.{Var, Len, Offset, Closed, Method, Base};

use crate::{Stop, Work};
use prov_base::Pos;
use py_value::{Content, Location, Value};

impl Work {
    /// The value of a variable, by its activation and the number of its name's text; none where it is unbound.
    pub fn read_var(&mut self, scope: u32, name: u32) -> Result<Option<Value>, Stop>
        requires { name < length self.old.values.texts }
        ensures { Comes IsNamedMaybe seen_maybe (λ table. plan_var scope (bytes_of table name)) self.old self.new result }
    {
        self.note_read(Location::Var(scope, name))?;
        Ok(self.var(scope, name))
    }

    // The value of a variable as it stands.
    fn var(&self, scope: u32, name: u32) -> Option<Value>
        ensures { result ≡ var_in (content_at self.now.store (Var scope name)) }
    {
        match self.store.read(Location::Var(scope, name)) {
            Some(Content::Var(value)) => value,
            _ => None,
        }
    }

    /// The length of a list, 0 where none was set.
    pub fn read_len(&mut self, o: u32) -> Result<u64, Stop>
        ensures { Comes is_any as_is (λ table. plan_len o) self.old self.new result }
    {
        self.note_read(Location::Len(o))?;
        Ok(self.len(o))
    }

    // The length of a list as it stands.
    fn len(&self, o: u32) -> u64
        ensures { result ≡ len_in (content_at self.now.store (Len o)) }
    {
        match self.store.read(Location::Len(o)) {
            Some(Content::Len(n)) => n,
            _ => 0,
        }
    }

    /// The item of a list at a place, where one was set.
    pub fn read_item(&mut self, o: u32, i: u64) -> Result<Option<Value>, Stop>
        ensures { Comes IsNamedMaybe seen_maybe (λ table. plan_item o i) self.old self.new result }
    {
        self.note_read(Location::Item(o, i))?;
        Ok(self.item(o, i))
    }

    // The item of a list as it stands.
    pub(crate) fn item(&self, o: u32, i: u64) -> Option<Value>
        ensures { result ≡ item_at self.now.store o i }
    {
        match self.store.read(Location::Item(o, i)) {
            Some(Content::Item(value)) => Some(value),
            _ => None,
        }
    }

    /// How many bytes of an open file were read.
    pub fn read_offset(&mut self, o: u32) -> Result<u64, Stop>
        ensures { Comes is_any as_is (λ table. plan_offset o) self.old self.new result }
    {
        self.note_read(Location::Offset(o))?;
        Ok(self.offset(o))
    }

    // The offset of an open file as it stands.
    fn offset(&self, o: u32) -> u64
        ensures { result ≡ offset_in (content_at self.now.store (Offset o)) }
    {
        match self.store.read(Location::Offset(o)) {
            Some(Content::Offset(n)) => n,
            _ => 0,
        }
    }

    /// Whether a file was closed.
    pub fn read_closed(&mut self, o: u32) -> Result<bool, Stop>
        ensures { Comes is_any as_is (λ table. plan_closed o) self.old self.new result }
    {
        self.note_read(Location::Closed(o))?;
        Ok(self.closed(o))
    }

    // Whether a file is closed as it stands.
    fn closed(&self, o: u32) -> bool
        ensures { result ≡ closed_in (content_at self.now.store (Closed o)) }
    {
        match self.store.read(Location::Closed(o)) {
            Some(Content::Closed(is_closed)) => is_closed,
            _ => false,
        }
    }

    /// The method of the class at a place, by the number of its name's text.
    pub fn read_method(&mut self, place: Pos, name: u32) -> Result<Option<Pos>, Stop>
        requires { name < length self.old.values.texts }
        ensures { Comes is_any as_is (λ table. plan_method place (bytes_of table name)) self.old self.new result }
    {
        self.note_read(Location::Method(place, name))?;
        Ok(self.method_there(place, name))
    }

    // The method of a class as it stands.
    pub(crate) fn method_there(&self, place: Pos, name: u32) -> Option<Pos>
        ensures { result ≡ method_in (content_at self.now.store (Method place name)) }
    {
        match self.store.read(Location::Method(place, name)) {
            Some(Content::Method(at)) => Some(at),
            _ => None,
        }
    }

    /// The base of the class at a place.
    pub fn read_base(&mut self, place: Pos) -> Result<Option<Value>, Stop>
        ensures { Comes IsNamedMaybe seen_maybe (λ table. plan_base place) self.old self.new result }
    {
        self.note_read(Location::Base(place))?;
        Ok(self.base(place))
    }

    // The base of a class as it stands.
    fn base(&self, place: Pos) -> Option<Value>
        ensures { result ≡ base_in (content_at self.now.store (Base place)) }
    {
        match self.store.read(Location::Base(place)) {
            Some(Content::Base(value)) => value,
            _ => None,
        }
    }

    /// How many keys a dictionary or an instance has. The keys are the order's, by `key`.
    pub fn read_order(&mut self, o: u32) -> Result<u32, Stop>
        ensures comes { Comes (λ values count. AreNamed values (keys_at self.old.store o)) (λ table count. map (contents table) (keys_at self.old.store o))
            (λ table. plan_order o) self.old self.new result }
        ensures count { IfOk result (λ count. count ≡ length (keys_at self.old.store o)) }
    {
        self.note_read(Location::Order(o))?;
        Ok(self.key_count(o))
    }

    // How many keys an order has as it stands.
    fn key_count(&self, o: u32) -> u32
        ensures { result ≡ length (keys_at self.now.store o) }
    {
        if o >= self.store.next() {
            return 0;
        }
        self.store.order_len(o)
    }

    /// The key at a place of an order, which was read.
    pub fn key(&self, o: u32, i: u32) -> Value
        requires { i < length (keys_at self.now.store o) }
        ensures { slice_get (keys_at self.now.store o) i ≡ Some result }
    {
        self.store.order_key(o, i)
    }
}
