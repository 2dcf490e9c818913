// Laws of the parser: public functions without a body, whose contracts are the laws.
ghost use Rattle.std.specs.Prelude.{◌≡◌, ℕ, List};
ghost use Rattle.py_lines.specs.declared.parts.Line.{Line};
ghost use Rattle.py_lines.specs.Logical.{HasLines};
ghost use Rattle.py_tree.specs.Tree.{ScriptTree};
ghost use Rattle.py_parser.specs.declared.fault.ParseFault.{ParseFault};
ghost use Rattle.py_parser.specs.Faults.{FirstFault, ArePlaced};
ghost use Rattle.py_parser.specs.Script.{IsScript};

use py_lines::one_list_of_lines;
use refused_forms::one_place;

/// The law that lines with tokens at different places have at most one fault, and those of a script have none.
pub fn one_fault()
    ensures one { (lines : List Line) (a b : ParseFault) → ArePlaced lines → FirstFault lines a → FirstFault lines b → a ≡ b }
    ensures none { (lines : List Line) (tree : ScriptTree) (a : ParseFault) → IsScript lines tree → FirstFault lines a → ⊥ }
{
    one_place();
}

/// The law that a text has at most one fault: the tokens of its lines stand at different places.
pub fn text_has_one_fault()
    ensures { (text : List ℕ) (lines others : List Line) (a b : ParseFault) → HasLines text lines → HasLines text others → FirstFault lines a → FirstFault others b → a ≡ b }
{
    one_fault();
    one_list_of_lines();
}
