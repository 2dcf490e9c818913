// Laws of the cut, each as the clause of a function that does nothing.
ghost use Rattle.std.specs.Prelude.{◌≡◌, ℕ, Bool, true};
ghost use Rattle.py_tree.specs.Deletion.{deleted};
ghost use Rattle.py_grammar.specs.Written.{Script};
ghost use Rattle.py_grammar.specs.Grammar.{FitsScript};
ghost use Rattle.py_grammar.specs.Language.{Language, stands_in};
ghost use Rattle.py_grammar.specs.Limits.{Limits, IsWithin};
ghost use Rattle.py_grammar.specs.StatementTrees.{script_tree};
ghost use Rattle.slice_text.specs.CutScript.{cut_script};
ghost use Rattle.slice_text.specs.Spanless.{spanless};

/// The law that what a cut leaves of a script as it is written fits the lines that are left, and that its tree is the
/// script with the statements deleted, up to byte spans: every node stands at its place, and `pass` at the place of the
/// first statement of an emptied suite. Its statements stand where the language lets them, and it is within the limits, where
/// that is so of the script.
pub fn cut_script_is_deleted()
    ensures fits { (keep : ℕ → Bool) (written : Script) → FitsScript written → FitsScript (cut_script keep written) }
    ensures tree { (keep : ℕ → Bool) (written : Script) → FitsScript written → spanless (script_tree (cut_script keep written)) ≡ spanless (deleted keep (script_tree written)) }
    ensures placed { (language : Language) (keep : ℕ → Bool) (written : Script) → FitsScript written → stands_in language written ≡ true → stands_in language (cut_script keep written) ≡ true }
    ensures within { (limits : Limits) (keep : ℕ → Bool) (written : Script) → FitsScript written → IsWithin limits written → IsWithin limits (cut_script keep written) }
{}
