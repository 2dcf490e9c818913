// A script from its logical lines.
ghost use Rattle.std.specs.Prelude.{◌≡◌, ℕ, List, IfOk, IfErr};
ghost use Rattle.py_lines.specs.Logical.{HasLines};
ghost use Rattle.py_tree.specs.Erasure.{script_of};
ghost use Rattle.py_tree.specs.Numbering.{IsNumbered};
ghost use Rattle.py_tree.specs.Tree.{ScriptTree};
ghost use Rattle.py_tree.specs.WellFormed.{IsWellFormed};
ghost use Rattle.py_parser.specs.declared.fault.ParseFault.TheVariants.{Memory};
ghost use Rattle.py_parser.specs.Script.{IsScript};
ghost use Rattle.py_parser.specs.Faults.{IsFault};

use crate::blocks::{Blocks, Place, first_of};
use crate::fault::ParseFault;
use crate::told::told;
use prov_base::Pos;
use py_grammar::Given;
use py_lines::Lines;
use py_tree::{Script, Suite};
use std::alloc::Global;

/// The script that logical lines are: a script of the language (`IsScriptIn` of `py_grammar`: of the grammar, and with its statements
/// where they may stand), with at most 20,000 statements, each in at most 50 suites and with expressions at most 100 deep.
///
/// A fault names the first token, in the order of the text, that no such script has there, or an earlier one where
/// `ParseFault` or the table of refused forms says so (`RefusedForms` of `refused_forms`).
pub fn parse(alloc: Global, lines: &Lines) -> Result<Script, ParseFault>
    ensures found { IfOk result (λ script. IsScript lines.now (script_of script)) }
    ensures numbered { IfOk result (λ script. IsNumbered (script_of script)) }
    ensures well_formed { (text : List ℕ) → HasLines text lines.now → IfOk result (λ script. IsWellFormed (script_of script)) }
    // Where the lines are a script, no other answer is given but out of memory.
    ensures complete { (tree : ScriptTree) → IsScript lines.now tree → IfErr result (λ fault. fault ≡ Memory) }
    ensures refused { IfErr result (IsFault lines.now) }
{
    let lines = lines.as_slice();
    let before = Pos { line: 1, col: 1 };
    let Some(first) = lines.first() else {
        let body = Suite {
            list: Vec::new(alloc),
        };
        return Ok(Script { body, count: 0 });
    };
    if first.indent != 0 {
        let at = first_of(first.tokens.as_slice(), before);
        return Err(ParseFault::BadIndent(at));
    }
    let mut blocks = Blocks {
        rest: lines,
        before,
        count: 0,
        columns: Vec::new(alloc),
    };
    let given = Given::none(alloc);
    let built = match blocks.rows(alloc, Place::module(), &given) {
        Ok(built) => built,
        Err(halt) => return Err(told(alloc, lines, halt)),
    };
    let body = Suite { list: built.list };
    Ok(Script {
        body,
        count: blocks.count,
    })
}
