// What is known of the rows so far.
ghost use Rattle.std.specs.Prelude.{◌≡◌, ◌&&◌, IfOk, IsTrue, []};
ghost use Rattle.py_value.specs.Values.{AreNamed};
ghost use Rattle.trace_rows.specs.declared.row.Row.TheVariants.{Text as TextRow, Tuple as TupleRow};
ghost use Rattle.row_checks.specs.Going.{IsReady, Puts, Goes, earlier_of};
ghost use Rattle.row_checks.specs.Heights.{is_low as is_low_in_table};
ghost use Rattle.row_checks.specs.KeptRows.{earlier_in};
ghost use Rattle.row_checks.specs.Nesting.{closes as closes_innermost};
ghost use Rattle.row_checks.specs.RowTests.{names_row as row_is_named, has_keys as row_has_keys};

use crate::Counts;
use crate::heights::Height;
use crate::nesting::{Open, closes, pass};
use crate::row_tests::{has_keys, names_row, with_own};
use crate::tables::{add_text, add_tuple};
use prov_base::Memory;
use py_value::{Value, Values};
use std::alloc::Global;
use trace_rows::Row;

/// What is known of the rows so far: their texts and tuples, the height of each tuple, how many things may be named, and what is open.
#[derive(Drop)]
pub(crate) struct Seen {
    pub values: Values,
    pub heights: Vec<Height>,
    pub counts: Counts,
    pub open_ones: Vec<Open>,
}

fn passes(counts: Counts, heights: &[Height], open_ones: &[Open], row: &Row) -> bool
    ensures { result ≡ (row_is_named counts row.now && (row_has_keys (is_low_in_table heights.now) row.now && closes_innermost open_ones.now row.now)) }
{
    names_row(counts, row) && has_keys(heights, row) && closes(open_ones, row)
}

impl Seen {
    /// No row yet, where the script has so many statements.
    pub(crate) fn new(alloc: Global, statements: u32) -> Result<Seen, Memory>
        ensures ready { IfOk result IsReady }
        ensures none { IfOk result (λ seen. earlier_of seen ≡ earlier_in statements []) }
    {
        Ok(Seen {
            values: Values::new(alloc)?,
            heights: Vec::new(alloc),
            counts: Counts {
                statements: u64::from(statements),
                texts: 0,
                tuples: 0,
                objects: 1,
                scopes: 1,
            },
            open_ones: Vec::new(alloc),
        })
    }

    // Puts a text behind the texts, unless an equal one is there.
    fn put_text(&mut self, alloc: Global, s: &str) -> Result<bool, Memory>
        requires { IsReady self.old }
        ensures { IfOk result (Puts self.old (TextRow s.now) self.new) }
    {
        let is_new = add_text(alloc, &mut self.values, self.counts.texts, s)?;
        if is_new {
            self.counts.texts += 1;
        }
        Ok(is_new)
    }

    // Puts a tuple behind the tuples, unless an equal one is there.
    fn put_tuple(&mut self, alloc: Global, parts: &[Value]) -> Result<bool, Memory>
        requires ready { IsReady self.old }
        requires named { AreNamed self.old.values parts.now }
        ensures { IfOk result (Puts self.old (TupleRow parts.now) self.new) }
    {
        let count = self.counts.tuples;
        let is_new = add_tuple(alloc, &mut self.values, &mut self.heights, count, parts)?;
        if is_new {
            self.counts.tuples += 1;
        }
        Ok(is_new)
    }

    // Puts the text or tuple of a row behind the others, unless an equal one is there.
    fn put(&mut self, alloc: Global, row: &Row) -> Result<bool, Memory>
        requires ready { IsReady self.old }
        requires named { IsTrue (row_is_named self.old.counts row.now) }
        ensures { IfOk result (Puts self.old row.now self.new) }
    {
        match row {
            Row::Text(text) => self.put_text(alloc, text.as_str()),
            Row::Tuple(parts) => self.put_tuple(alloc, parts.as_slice()),
            Row::Begin(_) | Row::Do(..) | Row::Enter(..) | Row::Leave(_) | Row::End(_) => Ok(true),
        }
    }

    /// Goes on behind a row, if the row may stand there.
    pub(crate) fn goes_on(&mut self, alloc: Global, row: &Row) -> Result<bool, Memory>
        requires { IsReady self.old }
        ensures { IfOk result (Goes self.old row.now self.new) }
    {
        let counts = with_own(self.counts, row)?;
        if !passes(
            counts,
            self.heights.as_slice(),
            self.open_ones.as_slice(),
            row,
        ) {
            return Ok(false);
        }
        self.counts = counts;
        pass(&mut self.open_ones, row)?;
        self.put(alloc, row)
    }
}
