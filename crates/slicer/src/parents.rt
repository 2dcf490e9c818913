// The pairs by which each statement asks for its parent.
ghost use Rattle.std.specs.Prelude.{◌≡◌, ◌++◌, IfOk};
ghost use Rattle.py_tree.specs.Erasure.{script_of};
ghost use Rattle.py_tree.specs.Numbering.{IsNumbered};
ghost use Rattle.slicer.specs.ParentPairs.{pair_with, parents_below};

use prov_base::Memory;
use py_tree::Script;

fn push_parent(pairs: &mut Vec<(u32, u32)>, s: u32, parent: Option<u32>) -> Result<(), Memory>
    ensures { IfOk result (λ done. pairs.new.items ≡ pairs.old.items ++ pair_with s parent) }
{
    if let Some(parent) = parent {
        pairs.push((s, parent))?;
    }
    Ok(())
}

/// Puts the pairs by which the statements of a script ask for their parents behind other pairs.
pub fn add_parents(script: &Script, pairs: &mut Vec<(u32, u32)>) -> Result<(), Memory>
    requires { IsNumbered (script_of script.now) }
    ensures { IfOk result (λ done. pairs.new.items ≡ pairs.old.items ++ parents_below (script_of script.now) script.now.count) }
{
    for s in 0..script.count {
        push_parent(pairs, s, script.parent_of(s))?;
    }
    Ok(())
}
