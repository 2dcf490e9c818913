// The recorder.
ghost use Rattle.std.specs.Prelude.{◌≡◌, ◌<◌, [], reverse, Some, IfOk, IsOk, OnOk, OnErr, vec_len, vec_capacity};
ghost use Rattle.py_value.specs.Values.{ValuesView, AreInterned};
ghost use Rattle.py_model.specs.Told.{moment_seen};
ghost use Rattle.trace_rows.specs.RowBytes.{AreRows};
ghost use Rattle.recorder.specs.Parts.{ended_by};
ghost use Rattle.recorder.specs.MomentRows.{rows as rows_of};
ghost use Rattle.recorder.specs.PageCuts.{pages as pages_of_rows};
ghost use Rattle.recorder.specs.Recorded.{moments_of};
ghost use Rattle.recorder.specs.Telling.{view_of};

use crate::namer::Namer;
use crate::naming_moments::name_moment;
use crate::pages::pages_of;
use prov_base::Memory;
use py_model::{Moment, Watch};
use py_value::Values;
use std::alloc::Global;
use std::marker::Model;
use trace_rows::{Pages, Row, Rows};

/// A watch that keeps the rows of the moments that it is told. `moments_of` gives these moments, the latest first.
#[derive(Drop)]
pub struct Recorder {
    namer: Namer,
    rows: Vec<Row>,
    ended: Vec<u32>,
    is_whole: bool,
}

impl Model for Recorder {
    ghost use Rattle.std.specs.Prelude.{reverse};
    ghost use Rattle.trace_rows.specs.RowBytes.{AreRows};
    ghost use Rattle.recorder.specs.Recorded.{Records, IsRecorded};

    ghost Value = { Records };

    ghost view = { λ r. record { rows = reverse r.rows.items; ended = reverse r.ended.items } };

    ghost invariant = { λ r. IsRecorded (reverse r.rows.items) (reverse r.ended.items) r.is_whole r.namer × AreRows r.rows.items };
}

impl Recorder {
    /// A recorder that was told nothing.
    pub fn new(alloc: Global) -> Result<Recorder, Memory>
        ensures { IfOk result (λ recorder. moments_of recorder ≡ []) }
    {
        Ok(Recorder {
            namer: Namer::new(alloc)?,
            rows: Vec::new(alloc),
            ended: Vec::new(alloc),
            is_whole: true,
        })
    }

    /// The pages of the rows of the moments that it was told. Out of memory is the one other answer.
    pub fn pages(self, alloc: Global) -> Result<Pages, Memory>
        ensures pages { IfOk result (λ pages. pages ≡ pages_of_rows (rows_of (reverse (moments_of self)))) }
        // Their numbers fit, so `decode_page` gives these rows again.
        ensures rows { AreRows (rows_of (reverse (moments_of self))) }
    {
        pages_of(alloc, self.rows.as_slice())
    }

    /// The rows of the moments that it was told. It answers out of memory where it ran out of memory while it was told.
    pub fn rows(self) -> Result<Rows, Memory>
        ensures rows { IfOk result (λ rows. rows ≡ rows_of (reverse (moments_of self))) }
        // Their numbers fit.
        ensures fit { AreRows (rows_of (reverse (moments_of self))) }
        // Each text and each tuple stands once in them, behind its parts.
        ensures interned { IfOk result (λ rows. AreInterned (view_of (reverse rows))) }
    {
        if !self.is_whole {
            return Err(Memory);
        }
        Ok(Rows::of(self.rows))
    }
}

// The number of a statement that ends is noted. Where there is room for one it is not refused.
fn note_end(ended: &mut Vec<u32>, moment: &Moment) -> Result<(), Memory>
    ensures noted { OnOk result ((view : ValuesView) → reverse ended.new.items ≡ ended_by (moment_seen view moment.now) (reverse ended.old.items)) }
    ensures err { OnErr result (ended.new.items ≡ ended.old.items) }
    ensures room { vec_len ended.old < vec_capacity ended.old → IsOk result }
{
    match moment {
        Moment::End(statement, _) => {
            ended.push(*statement)?;
            Ok(())
        }
        Moment::Begin(_) | Moment::Do(..) | Moment::Enter(..) | Moment::Leave(_) => Ok(()),
    }
}

impl Watch for Recorder {
    ghost history = { λ r. Some (moments_of r) };

    fn told(&mut self, alloc: Global, moment: &Moment, values: &Values) -> Result<(), Memory> {
        if !self.is_whole {
            return Err(Memory);
        }
        self.is_whole = false;
        self.ended.reserve(1)?;
        let row = name_moment(alloc, &mut self.namer, values, moment)?;
        self.namer.finish(row, &mut self.rows)?;
        note_end(&mut self.ended, moment)?;
        self.is_whole = true;
        Ok(())
    }
}
