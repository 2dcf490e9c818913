// The law of reading: a public function without a body, whose contract is the law.
ghost use Rattle.std.specs.Prelude.{◌≡◌, ℕ, List};
ghost use Rattle.prov_base.specs.declared.place.Pos.{Pos};
ghost use Rattle.py_tree.specs.Tree.{ScriptTree};
ghost use Rattle.py_parser.specs.Reading.{HasScript, IsRefusedAt};

use crate::laws::text_has_one_fault;
use py_grammar::one_script;
use py_lines::one_list_of_lines;

/// The law that a text is read in one way: it has at most one script, it is refused at one place at most, and not both.
pub fn one_reading()
    ensures script { (text : List ℕ) (a b : ScriptTree) → HasScript text a → HasScript text b → a ≡ b }
    ensures place { (text : List ℕ) (a b : Pos) → IsRefusedAt text a → IsRefusedAt text b → a ≡ b }
    ensures not_both { (text : List ℕ) (tree : ScriptTree) (at : Pos) → HasScript text tree → IsRefusedAt text at → ⊥ }
{
    one_script();
    one_list_of_lines();
    text_has_one_fault();
    py_lines::one_fault();
    crate::laws::one_fault();
}
