// Laws of closed sets, each a function without a body that says it.
ghost use Rattle.std.specs.Prelude.{◌≡◌, ◌↔◌, ◌&&◌, ℕ, true, List, [], IsTrue, Some, None};
ghost use Rattle.py_tree.specs.Owners.{parent_of};
ghost use Rattle.py_tree.specs.Tree.{ScriptTree};
ghost use Rattle.py_model.specs.Moment.{Moment};
ghost use Rattle.py_model.specs.Occurrences.{reach};
ghost use Rattle.py_model.specs.Store.{RunStore, item_of};
ghost use Rattle.py_value.specs.Contents.{Contents};
ghost use Rattle.py_value.specs.Seen.{SeenLocation, item_at};
ghost use Rattle.slice_law.specs.Edges.{edges, reachable};
ghost use Rattle.slice_law.specs.Closed.{StmtSet, IsIn, IsClosed, IsLeast, IsAsked, has, needed, is_settled, store_after};
ghost use Rattle.slice_law.specs.Reached.{ReachesPlace};
ghost use Rattle.slice_law.specs.SetItems.{MomentsSetItems};

/// The law that what two closed sets have in common is closed.
pub fn closed_sets_meet()
    ensures { (script : ScriptTree) (opening : RunStore) (told : List Moment) (one other : StmtSet)
        → IsClosed script opening told one → IsClosed script opening told other → IsClosed script opening told (λ s. one s && other s) }
{}

/// The law that the least closed set has exactly the statements that are asked for along the edges: so there is one.
pub fn least_is_asked()
    ensures one { (script : ScriptTree) (opening : RunStore) (told : List Moment) (keep : StmtSet)
        → ((s : ℕ) → IsTrue (keep s) ↔ IsAsked script opening told s) → IsLeast script opening told keep }
    ensures same { (script : ScriptTree) (opening : RunStore) (told : List Moment) (one other : StmtSet)
        → IsLeast script opening told one → IsLeast script opening told other → (s : ℕ) → one s ≡ other s }
    ensures asked { (script : ScriptTree) (opening : RunStore) (told : List Moment) (keep : StmtSet)
        → IsClosed script opening told keep → (s : ℕ) → IsAsked script opening told s → IsTrue (keep s) }
{}

/// The law that a closed set has, with each of its statements, that one's parent.
pub fn closed_sets_have_parents()
    ensures { (script : ScriptTree) (opening : RunStore) (told : List Moment) (keep : StmtSet) (s p : ℕ)
        → IsClosed script opening told keep → IsTrue (keep s) → parent_of script s ≡ Some p → IsTrue (keep p) }
{}

/// The law of the worklist: where nothing is asked for any more that is not there, what it came to is the least closed set.
pub fn needed_is_least()
    ensures { (script : ScriptTree) (opening : RunStore) (told : List Moment)
        → is_settled (edges script told) (needed script opening told) ≡ true → IsLeast script opening told (λ s. has s (needed script opening told)) }
{}

/// The law that the locations which a traversal of a store meets are those that are reached from the value, object by object.
pub fn reachable_is_reached()
    ensures { (store : RunStore) (v : Contents) (l : SeenLocation) → IsIn (reachable store v) l ↔ ReachesPlace store v l }
{}

/// The law of the end of a list: where moments set items to values alone and change none, the place of an item that is missing has no reach. So it is
/// with rows, since a content is of its location's own kind. The traversal meets the place of the first missing item, and nothing is asked for by it.
pub fn missing_items_have_no_reach()
    ensures { (opening : RunStore) (told : List Moment) (o i : ℕ) → MomentsSetItems told → item_of (store_after opening told) o i ≡ None
        → reach (item_at o i) told ≡ [] }
{}
