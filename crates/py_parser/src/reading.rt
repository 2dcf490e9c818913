// A text read as a script.
ghost use Rattle.std.specs.Prelude.{◌≡◌, ◌<◌, length, Err, IfOk, IfErr, IsTrue};
ghost use Rattle.prov_base.specs.declared.place.Pos.{Pos};
ghost use Rattle.py_lines.specs.Logical.{IsNotUtf8};
ghost use Rattle.py_grammar.specs.FlatTargets.{is_flat};
ghost use Rattle.py_parser.specs.Faults.{origin};
ghost use Rattle.py_tree.specs.Erasure.{script_of};
ghost use Rattle.py_tree.specs.Numbering.{IsNumbered};
ghost use Rattle.py_tree.specs.Tree.{ScriptTree};
ghost use Rattle.py_tree.specs.WellFormed.{IsWellFormed};
ghost use Rattle.py_parser.specs.Reading.{HasScript, IsRefusedAt};
ghost use Rattle.py_parser.specs.declared.refusal.Refusal.TheVariants.{At, Memory};

use crate::refusal::Refusal;
use crate::script::parse;
use py_grammar::targets_are_flat;
use py_lines::lines;
use py_tree::Script;
use std::alloc::Global;

/// The script that a text is, within the limits of this profile; or the place of its first fault. That is a fault of its logical lines, and
/// where it has these one of its script. A text of more than 262,144 bytes is refused at line 1, column 1.
pub fn read_script(alloc: Global, text: &[u8]) -> Result<Script, Refusal>
    ensures found { IfOk result (λ script. HasScript text.now (script_of script)) }
    ensures numbered { IfOk result (λ script. IsNumbered (script_of script)) }
    ensures well_formed { IfOk result (λ script. IsWellFormed (script_of script)) }
    ensures flat { IfOk result (λ script. IsTrue (is_flat (script_of script))) }
    // Where the text has a script, no other answer is given but out of memory.
    ensures complete { (tree : ScriptTree) → HasScript text.now tree → IfErr result (λ refusal. refusal ≡ Memory) }
    // The two causes that are seen before any line is read do not hang on memory.
    ensures too_large { 262144 < length text.now → result ≡ Err (At origin) }
    ensures not_utf8 { (at : Pos) → IsNotUtf8 text.now at → result ≡ Err (At at) }
    ensures refused { (at : Pos) → result ≡ Err (At at) → IsRefusedAt text.now at }
{
    targets_are_flat();
    let lines = match lines(alloc, text) {
        Ok(lines) => lines,
        Err(fault) => return Err(Refusal::of_text(fault)),
    };
    match parse(alloc, &lines) {
        Ok(script) => Ok(script),
        Err(fault) => Err(Refusal::of_lines(fault)),
    }
}
