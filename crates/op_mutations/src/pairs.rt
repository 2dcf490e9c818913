// The distinct keys of a dictionary's display.
ghost use Rattle.std.specs.Prelude.{◌≡◌, IfOk, OnOk, position};
ghost use Rattle.op_mutations.specs.Pairs.{has_key, with_value, firsts as firsts_of};

use prov_base::Memory;
use py_value::{Key, Value};
use std::alloc::Global;

/// A key of a dictionary, with its first form and its value.
#[derive(Clone, Copy)]
pub struct Pair {
    /// The key in its normal form.
    pub key: Key,
    /// The key as it was given first.
    pub first: Value,
    /// The value that was given last.
    pub item: Value,
}

// The place of a key among those of pairs.
fn place_of(pairs: &[Pair], key: Key) -> Option<usize>
    ensures { result ≡ position (has_key key) pairs.now }
{
    pairs.iter().position(|pair| pair.key.value == key.value)
}

/// The value of a key is put to the pairs: behind the others, or in the place of its value.
pub(crate) fn put_value(
    pairs: &mut Vec<Pair>,
    key: Key,
    first: Value,
    item: Value,
) -> Result<(), Memory>
    ensures { OnOk result (pairs.new.items ≡ with_value key first item pairs.old.items) }
{
    match place_of(pairs.as_slice(), key) {
        Some(i) => pairs[i].item = item,
        None => pairs.push(Pair { key, first, item })?,
    }
    Ok(())
}

/// The first forms of the keys, in order.
pub(crate) fn firsts(alloc: Global, pairs: &[Pair]) -> Result<Vec<Value>, Memory>
    ensures { IfOk result (λ keys. keys.items ≡ firsts_of pairs.now) }
{
    let mut keys = Vec::new(alloc);
    for pair in pairs {
        keys.push(pair.first)?;
    }
    Ok(keys)
}
