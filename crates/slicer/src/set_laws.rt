// Laws of closed sets along pairs, each a function without a body that says it.
ghost use Rattle.std.specs.Prelude.{◌≡◌, ◌++◌, ℕ, Bool, List};
ghost use Rattle.py_model.specs.Moment.{Moment as OneMoment};
ghost use Rattle.py_model.specs.Store.{RunStore};
ghost use Rattle.py_tree.specs.Numbering.{IsNumbered};
ghost use Rattle.py_tree.specs.Tree.{ScriptTree};
ghost use Rattle.slice_law.specs.Closed.{IsLeast, roots};
ghost use Rattle.slicer.specs.Along.{IsLeastAlong, ArePairsBelow};
ghost use Rattle.slicer.specs.Pairs.{AreAskedIn, SameNumbers};
ghost use Rattle.slicer.specs.ParentPairs.{parents_below};

/// The law that the least set along the pairs of what moments ask for and of parents, from what the value and jumps ask for, is the least
/// closed set.
pub fn least_along_is_least()
    ensures least { (script : ScriptTree) (opening : RunStore) (told : List OneMoment) (pairs : List (ℕ × ℕ)) (numbers : List ℕ) (keep : ℕ → Bool)
        → IsNumbered script → AreAskedIn script told pairs → SameNumbers numbers (roots opening told)
        → IsLeastAlong (pairs ++ parents_below script script.count) numbers keep → IsLeast script opening told keep }
    ensures below { (script : ScriptTree) → IsNumbered script → ArePairsBelow script.count (parents_below script script.count) }
{}
