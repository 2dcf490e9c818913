// Texts and tuples, named anew in the order in which moments name them.
ghost use Rattle.std.specs.Prelude.{◌≡◌, [], ◌∷◌, ◌++◌, reverse, IfOk, OnOk, OnErr};
ghost use Rattle.py_value.specs.Contents.{contents};
ghost use Rattle.py_value.specs.Values.{IsNamed, AreNamed, IsBelow, AreBelow, AreInterned};
ghost use Rattle.row_words.specs.Fits.{AreValues};
ghost use Rattle.trace_rows.specs.RowBytes.{IsRow, AreRows};
ghost use Rattle.recorder.specs.Naming.{Naming};
ghost use Rattle.recorder.specs.Numbers.{NumbersText, NumbersTuple};

use crate::fitting::text_fits;
use prov_base::{Memory, Name};
use py_model::Args;
use py_value::{Value, Values};
use std::alloc::Global;
use std::marker::Model;
use trace_rows::Row;

/// The texts and tuples that have numbers in rows, and the rows that were made of late.
#[derive(Drop)]
pub struct Namer {
    named: Values,
    rows: Vec<Row>,
    texts: u64,
    tuples: u64,
}

impl Model for Namer {
    ghost use Rattle.std.specs.Prelude.{◌≡◌, length, reverse};
    ghost use Rattle.trace_rows.specs.RowBytes.{AreRows};
    ghost use Rattle.recorder.specs.Naming.{Naming};

    ghost Value = { Naming };

    ghost view = { λ n. record { view = n.named; rows = reverse n.rows.items } };

    ghost invariant = { λ n. (n.texts ≡ length n.named.texts) × ((n.tuples ≡ length n.named.tuples) × AreRows n.rows.items) };
}

impl Namer {
    /// Nothing is named, and there are no rows.
    pub fn new(alloc: Global) -> Result<Namer, Memory>
        ensures { IfOk result (λ n. n ≡ record { view = record { texts = []; tuples = [] }; rows = [] }) }
    {
        Ok(Namer {
            named: Values::new(alloc)?,
            rows: Vec::new(alloc),
            texts: 0,
            tuples: 0,
        })
    }

    /// The number of a text in rows. One that has none gets the next, and a row.
    pub(crate) fn text(&mut self, alloc: Global, s: &str) -> Result<u32, Memory>
        ensures { IfOk result (NumbersText s.now self.old self.new) }
    {
        let number = self.named.text(alloc, s)?;
        if u64::from(number) < self.texts {
            return Ok(number);
        }
        self.texts += 1;
        text_fits(s);
        let text = String::from_str(alloc, s)?;
        self.rows.push(Row::Text(Name::of(text)))?;
        Ok(number)
    }

    /// The number in rows of a tuple of values that have theirs. One that has none gets the next, and a row.
    pub(crate) fn tuple(&mut self, alloc: Global, items: &[Value]) -> Result<u32, Memory>
        requires named { AreNamed self.old.view items.now }
        requires fits { AreValues items.now }
        ensures { IfOk result (NumbersTuple items.now self.old self.new) }
    {
        let number = self.named.tuple(alloc, items)?;
        if u64::from(number) < self.tuples {
            return Ok(number);
        }
        self.tuples += 1;
        let parts = Vec::from_slice(alloc, items)?;
        self.rows.push(Row::Tuple(Args::of(parts)))?;
        Ok(number)
    }

    /// Moves the rows that were made of late, and this row behind them, to the end of others.
    pub fn finish(&mut self, row: Row, to: &mut Vec<Row>) -> Result<(), Memory>
        requires { IsRow row }
        ensures moved { OnOk result (reverse to.new.items ≡ row ∷ (self.old.rows ++ reverse to.old.items)) }
        ensures left { OnOk result (self.new ≡ record { view = self.old.view; rows = [] }) }
        // What is moved has bytes, as `encode_page` and `decode_page` ask.
        ensures rows { AreRows to.old.items → AreRows to.new.items }
        ensures err { OnErr result (to.new.items ≡ to.old.items) }
    {
        let _ = &self.named;
        self.rows.push(row)?;
        to.append(&mut self.rows)?;
        Ok(())
    }
}
