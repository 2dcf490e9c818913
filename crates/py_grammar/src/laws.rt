// Laws of the grammar: public functions without a body, whose contracts are the laws.
ghost use Rattle.std.specs.Prelude.{◌≡◌, ◌≤◌, ℕ, Bool, List, IsTrue};
ghost use Rattle.py_lines.specs.declared.parts.Line.{Line};
ghost use Rattle.py_lines.specs.Logical.{HasLines};
ghost use Rattle.py_tree.specs.Tree.{ScriptTree};
ghost use Rattle.py_tree.specs.Deletion.{deleted};
ghost use Rattle.py_tree.specs.Numbering.{IsNumbered};
ghost use Rattle.py_tree.specs.WellFormed.{IsWellFormed};
ghost use Rattle.py_grammar.specs.Grammar.{InGrammar};
ghost use Rattle.prov_base.specs.declared.place.Pos.{Pos};
ghost use Rattle.py_tree.specs.Remaining.{IsClosed};
ghost use Rattle.py_grammar.specs.ClosedSets.{is_statement, stays};
ghost use Rattle.py_grammar.specs.FlatTargets.{is_flat};
ghost use Rattle.py_grammar.specs.Language.{Language, IsScriptIn};
ghost use Rattle.py_grammar.specs.LineReader.{Head};
ghost use Rattle.py_grammar.specs.ParsedHead.{head_depth, head_lies};
ghost use Rattle.py_grammar.specs.PlacedTrees.{is_placed_in};
ghost use Rattle.py_grammar.specs.Written.{Simple};
ghost use Rattle.py_grammar.specs.StatementTokens.{simple_tokens};

use py_lines::one_list_of_lines;

/// The law of the depth of lines: none of a line's expressions lies deeper than the line goes.
pub fn depth_of_lines()
    ensures { (h : Head) (at : Pos) → head_lies h at ≤ head_depth h }
{}

/// The law that tokens spell at most one simple statement.
pub fn one_simple_statement()
    ensures { (a b : Simple) → simple_tokens a ≡ simple_tokens b → a ≡ b }
{}

/// The law that logical lines have at most one script, and so has a text.
pub fn one_script()
    ensures lines { (lines : List Line) (a b : ScriptTree) → InGrammar lines a → InGrammar lines b → a ≡ b }
    ensures text { (text : List ℕ) (lines others : List Line) (a b : ScriptTree) → HasLines text lines → HasLines text others
        → InGrammar lines a → InGrammar others b → a ≡ b }
{
    one_list_of_lines();
}

/// The law that the script of a text is well formed: its statements are numbered in the order of the text, their places ascend, no
/// two nodes stand at one place, and the bytes of a statement are among those of the one whose suite it is in.
pub fn scripts_are_well_formed()
    ensures { (text : List ℕ) (lines : List Line) (tree : ScriptTree) → HasLines text lines → InGrammar lines tree → IsWellFormed tree }
{}

/// The law that the tree of a script has its statements where the language lets them stand, and that a deletion leaves them
/// so. It does for every set, since a statement that goes takes along what stands in its suites.
pub fn trees_are_placed()
    ensures told { (language : Language) (lines : List Line) (tree : ScriptTree) → IsScriptIn language lines tree → IsTrue (is_placed_in language tree) }
    ensures kept { (language : Language) (keep : ℕ → Bool) (tree : ScriptTree) → IsTrue (is_placed_in language tree) → IsTrue (is_placed_in language (deleted keep tree)) }
{}

/// The law that no script of the grammar stores in several targets that one of several is, as in `a, (b, c) = e`, and that a deletion
/// leaves it so.
pub fn targets_are_flat()
    ensures told { (lines : List Line) (tree : ScriptTree) → InGrammar lines tree → IsTrue (is_flat tree) }
    ensures kept { (keep : ℕ → Bool) (tree : ScriptTree) → IsTrue (is_flat tree) → IsTrue (is_flat (deleted keep tree)) }
{}

/// The law that of a set which is closed under parents each statement stays in the deletion. Of another set a statement goes with
/// the one whose suite it is in.
pub fn closed_sets_stay()
    ensures { (keep : ℕ → Bool) (tree : ScriptTree) → IsNumbered tree → IsClosed keep tree → (s : ℕ) → IsTrue (is_statement tree s) → IsTrue (keep s) → IsTrue (stays keep tree s) }
{}
