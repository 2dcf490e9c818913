// The graph text of a value.
ghost use Rattle.std.specs.Prelude.{◌≡◌, string_bytes, IfOk};
ghost use Rattle.py_model.specs.Graph.{graph_text as graph_words, names_in};
ghost use Rattle.py_tree.specs.Tree.{ScriptTree};
ghost use Rattle.py_value.specs.Contents.{contents};
ghost use Rattle.py_value.specs.Values.{AreInterned, IsNamed};

use crate::names::Names;
use crate::page::Page;
use crate::reads::Reads;
use indexmap::IndexSet;
use prov_base::Memory;
use py_value::Value;
use std::alloc::Global;

/// The graph text of a value in a store, with the names of a script: as `repr`, but each object, each tuple and each text of more than 64 characters
/// is written `#n=` and its content where it is first met, n counting from 1, and `#n` later.
pub fn graph_text<R: Reads>(
    alloc: Global,
    names: &Names,
    reads: &R,
    value: Value,
) -> Result<String, Memory>
    requires interned { AreInterned (R.values reads.now) }
    requires named { IsNamed (R.values reads.now) value }
    ensures { IfOk result (λ text. (script : ScriptTree) → names.now ≡ names_in script.body
        → string_bytes text ≡ graph_words script (R.store reads.now) (contents (R.values reads.now) value)) }
{
    let mut page = Page {
        text: String::new(alloc),
        things: IndexSet::new(alloc),
    };
    page.draw_all(alloc, names, reads, value)?;
    Ok(page.text)
}
