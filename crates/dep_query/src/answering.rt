// The dataflow of a loaded trial.
ghost use Rattle.std.specs.Prelude.{IfOk};
ghost use Rattle.py_tree.specs.Erasure.{script_of};
ghost use Rattle.py_tree.specs.Numbering.{IsNumbered};
ghost use Rattle.row_checks.specs.KeptRows.{AreKeptRows};
ghost use Rattle.dep_query.specs.Dataflows.{IsDataflow};

use crate::gathering::dependences;
use crate::lines::lines_of;
use prov_base::{Bytes, Memory};
use std::alloc::Global;
use trial_loading::Trial;

/// Which statement of a loaded trial depends on which, and why, in the whole run: a line for each dependence, in order. Behind the first 100,000 stands `more` if there
/// are more.
pub fn dataflow(alloc: Global, trial: &Trial) -> Result<Bytes, Memory>
    requires numbered { IsNumbered (script_of trial.now.script) }
    requires kept { AreKeptRows trial.now.script.count trial.now.rows }
    ensures { IfOk result (IsDataflow trial.now) }
{
    let list = dependences(alloc, &trial.script, trial.rows.as_slice())?;
    let text = lines_of(alloc, list.as_slice())?;
    Ok(text)
}
