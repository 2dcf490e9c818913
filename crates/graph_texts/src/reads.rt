// What the printer asks of a store.
ghost use Rattle.std.specs.Prelude.{◌≡◌, ◌<◌, length, slice_get, Some, IfSome, IfOk};
ghost use Rattle.std.specs.Option.{option_map};
ghost use Rattle.graph_texts.specs.Reads.{under_key};
ghost use Rattle.py_model.specs.Store.{RunStore, len_of, item_of, order_of, offset_of, closed_of};
ghost use Rattle.py_value.specs.Contents.{contents};
ghost use Rattle.py_value.specs.Named.{IsNamedKind};
ghost use Rattle.py_value.specs.Seen.{kind_seen};
ghost use Rattle.py_value.specs.Values.{ValuesView, IsNamed};

use prov_base::Memory;
use py_value::{Kind, Value};

/// Reads of the store of a run, with the texts and tuples that its values name. Objects are named by their numbers, from 0.
pub trait Reads {
    /// The texts and tuples that its values name.
    ghost values: { Self → ValuesView };

    /// The store that it stands for.
    ghost store: { Self → RunStore };

    /// What an object is; none where there is no object of this number.
    fn kind(&self, object: u32) -> Option<Kind>
        ensures kind { option_map (kind_seen (values self.now)) result ≡ slice_get (store self.now).kinds object }
        ensures named { IsNamedKind (values self.now) result };

    /// The length of a list.
    fn length(&self, object: u32) -> u64
        ensures { result ≡ len_of (store self.now) object };

    /// The item of a list at a place, counted from 0; none where nothing stands there.
    fn item(&self, object: u32, index: u64) -> Option<Value>
        ensures item { option_map (contents (values self.now)) result ≡ item_of (store self.now) object index }
        ensures named { IfSome result (λ value. IsNamed (values self.now) value) };

    /// How many keys the order of an object has.
    fn key_count(&self, object: u32) -> u64
        ensures { result ≡ length (order_of (store self.now) object) };

    /// The key at a place of the order, counted from 0.
    fn key(&self, object: u32, index: u64) -> Value
        requires { index < length (order_of (store self.now) object) }
        ensures key { slice_get (order_of (store self.now) object) index ≡ Some (contents (values self.now) result) }
        ensures named { IsNamed (values self.now) result };

    /// The value under a key; none where the key has no entry.
    fn entry(&self, object: u32, key: Value) -> Result<Option<Value>, Memory>
        requires { IsNamed (values self.now) key }
        ensures entry { IfOk result (λ found. option_map (contents (values self.now)) found ≡ under_key (store self.now) object (contents (values self.now) key)) }
        ensures named { IfOk result (λ found. IfSome found (λ value. IsNamed (values self.now) value)) };

    /// How far an open file was read.
    fn offset(&self, object: u32) -> u64
        ensures { result ≡ offset_of (store self.now) object };

    /// Whether a file was closed.
    fn closed(&self, object: u32) -> bool
        ensures { result ≡ closed_of (store self.now) object };

    /// The text with a number.
    fn text_of(&self, id: u32) -> &str
        requires { id < length (values self.now).texts }
        ensures { slice_get (values self.now).texts id ≡ Some result.now };

    /// The parts of the tuple with a number.
    fn tuple_of(&self, id: u32) -> &[Value]
        requires { id < length (values self.now).tuples }
        ensures { slice_get (values self.now).tuples id ≡ Some result.now };
}
