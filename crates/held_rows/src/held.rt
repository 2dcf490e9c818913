// The store that rows hold, as graph texts read it.
ghost use Rattle.std.specs.Prelude.{◌≡◌, IfOk, map};
ghost use Rattle.py_model.specs.Store.{RunStore};
ghost use Rattle.slice_things.specs.Forms.{AreForms};
ghost use Rattle.held_rows.specs.HeldStore.{store_of, IsNamedStore, AreReadAlike};
ghost use Rattle.held_rows.specs.Leaves.{HoldsRows};

use crate::orders::settled_orders;
use crate::pass::RowStore;
use indexmap::IndexMap;
use prov_base::Memory;
use py_value::{Keys, Value};
use slice_things::Forms;
use std::alloc::Global;
use std::marker::Model;

/// What rows leave of a store, with the texts and tuples that its values name, each at its number, and the keys of each order. Contracts see the texts
/// and tuples, and the store that it stands for.
#[derive(Drop)]
pub struct Held<'a> {
    pub(crate) texts: Vec<&'a str>,
    pub(crate) tuples: Vec<&'a [Value]>,
    pub(crate) forms: Forms,
    pub(crate) rows: RowStore,
    pub(crate) orders: IndexMap<u32, Keys>,
}

impl<'a> Model for Held<'a> {
    ghost use Rattle.std.specs.Prelude.{map};
    ghost use Rattle.held_rows.specs.HeldStore.{HeldView, view_of, IsHeld};

    ghost Value = { HeldView };

    ghost view = { λ h. view_of (record { texts = map (λ k. k.now) h.texts.items; tuples = map (λ k. k.now) h.tuples.items }) h.forms h.rows h.orders.entries };

    ghost invariant = { λ h. IsHeld (record { texts = map (λ k. k.now) h.texts.items; tuples = map (λ k. k.now) h.tuples.items }) h.forms h.rows h.orders.entries };
}

impl<'a> Held<'a> {
    /// What rows left, with the texts and tuples of a trial and the forms of these. Each order is settled once.
    pub fn of(
        alloc: Global,
        texts: Vec<&'a str>,
        tuples: Vec<&'a [Value]>,
        forms: Forms,
        rows: RowStore,
    ) -> Result<Held<'a>, Memory>
        requires forms { AreForms (record { texts = map (λ k. k.now) texts.items; tuples = map (λ k. k.now) tuples.items }) forms }
        requires named { IsNamedStore (record { texts = map (λ k. k.now) texts.items; tuples = map (λ k. k.now) tuples.items }) rows }
        ensures values { IfOk result (λ held. held.values ≡ record { texts = map (λ k. k.now) texts.entry.items; tuples = map (λ k. k.now) tuples.entry.items }) }
        ensures store { IfOk result (λ held. (store : RunStore) → HoldsRows (record { texts = map (λ k. k.now) texts.entry.items; tuples = map (λ k. k.now) tuples.entry.items }) forms rows store
            → AreReadAlike (record { texts = map (λ k. k.now) texts.entry.items; tuples = map (λ k. k.now) tuples.entry.items }) (store_of held) store) }
    {
        let orders = settled_orders(alloc, &forms, &rows.orders)?;
        Ok(Held {
            texts,
            tuples,
            forms,
            rows,
            orders,
        })
    }
}
