// Laws of scripts and of deletion, each as the clause of a function that does nothing.
ghost use Rattle.std.specs.Prelude.{ℕ, Bool, ◌≡◌, ◌<◌, ◌↔◌, IsTrue, List, Contains, map, Some, option_map};
ghost use Rattle.std.specs.List.{list_any, list_all};
ghost use Rattle.prov_base.specs.declared.place.Pos.{Pos};
ghost use Rattle.prov_base.specs.declared.place.Span.{Span};
ghost use Rattle.py_tree.specs.Binds.{form_binds, binds};
ghost use Rattle.py_tree.specs.Functions.{Function, Class, functions_in, function_at, classes_in, class_at, suite_binds, is_local};
ghost use Rattle.py_tree.specs.Owners.{Around, Standing, form_in, number_at, listed_suite, statements, standing_at, parent_of, function_of};
ghost use Rattle.py_tree.specs.Placed.{place_of, place_at, standing_on, number_on, own_places, owner_of};
ghost use Rattle.py_tree.specs.Scope.{scope_suite, is_no_definition};
ghost use Rattle.py_tree.specs.Spans.{moved, moved_standing, moved_function, moved_class, moved_suite};
ghost use Rattle.py_tree.specs.Tree.{ScriptTree, SuiteTree};
ghost use Rattle.py_tree.specs.Numbering.{IsNumbered, numbered_suite};
ghost use Rattle.py_tree.specs.Deletion.{or_pass, kept_suite, deleted};
ghost use Rattle.py_tree.specs.Places.{suite_places, suite_starts, are_ascending};
ghost use Rattle.py_tree.specs.Parts.{IsPartOf};
ghost use Rattle.py_tree.specs.Remaining.{staying, IsClosed, those_in, remaining, AddsPass};
ghost use Rattle.py_tree.specs.Renumbering.{new_number, both};
ghost use Rattle.py_tree.specs.Unplaced.{unplaced};
ghost use Rattle.py_tree.specs.WellFormed.{IsWellFormed};

/// The law that a set of all statements gives the script itself.
pub fn deletion_of_nothing()
    ensures { (keep : ℕ → Bool) (script : ScriptTree) → IsNumbered script → ((i : ℕ) → i < script.count → IsTrue (keep i)) → deleted keep script ≡ script }
{}

/// The law that what stays keeps its place: the nodes of the result stand, in their order, at places of nodes of the
/// script, and its statements, an inserted `pass` too, at places of statements.
pub fn deletion_keeps_places()
    ensures nodes { (keep : ℕ → Bool) (script : ScriptTree) → IsPartOf (suite_places (deleted keep script).body) (suite_places script.body) }
    ensures statements { (keep : ℕ → Bool) (script : ScriptTree) → IsPartOf (suite_starts (deleted keep script).body) (suite_starts script.body) }
{}

/// The law that a deletion leaves a well-formed script well formed, whatever the set: a statement of the set whose owner is
/// outside it goes with its owner.
pub fn deletion_is_well_formed()
    ensures { (keep : ℕ → Bool) (script : ScriptTree) → IsWellFormed script → IsWellFormed (deleted keep script) }
{}

/// The law that two deletions are one, by the statements of the first set that are, with the numbers that the first
/// deletion gave them, in the second. An inserted `pass` is the same whether or not the second set has it. Only the place
/// and the bytes of a `pass` may differ: the second deletion puts it where the first statement stood that the first
/// deletion had left in the suite.
pub fn deletion_twice()
    ensures { (first second : ℕ → Bool) (script : ScriptTree) → IsNumbered script
        → unplaced (deleted second (deleted first script)) ≡ unplaced (deleted (both first (new_number first script) second) script) }
{}

/// The law that nothing here looks at byte spans: with other spans the script has the same statements, places, owners,
/// names, functions and classes, but for the spans in them, and deletion gives the same.
pub fn spans_are_not_looked_at()
    ensures statements { (m : Span → Span) (script : ScriptTree) → statements (moved m script) ≡ map (moved_standing m) (statements script) }
    ensures parents { (m : Span → Span) (script : ScriptTree) (s : ℕ) → parent_of (moved m script) s ≡ parent_of script s }
    ensures owners { (m : Span → Span) (script : ScriptTree) (s : ℕ) → function_of (moved m script) s ≡ function_of script s }
    ensures placed { (m : Span → Span) (script : ScriptTree) (s : ℕ) → place_at (moved m script) s ≡ place_at script s }
    ensures numbers { (m : Span → Span) (script : ScriptTree) (at : Pos) → number_on (moved m script) at ≡ number_on script at }
    ensures node_owners { (m : Span → Span) (script : ScriptTree) (at : Pos) → owner_of (moved m script) at ≡ owner_of script at }
    ensures bound { (m : Span → Span) (script : ScriptTree) (s : ℕ) (name : List ℕ) → binds (moved m script) s name ≡ binds script s name }
    ensures functions { (m : Span → Span) (body : SuiteTree) → functions_in (moved_suite m body) ≡ map (moved_function m) (functions_in body) }
    ensures places { (m : Span → Span) (script : ScriptTree) (at : Pos) → function_at (moved m script) at ≡ option_map (moved_function m) (function_at script at) }
    ensures classes { (m : Span → Span) (body : SuiteTree) → classes_in (moved_suite m body) ≡ map (moved_class m) (classes_in body) }
    ensures local { (m : Span → Span) (f : Function) (name : List ℕ) → is_local (moved_function m f) name ≡ is_local f name }
    ensures deletion { (m : Span → Span) (keep : ℕ → Bool) (script : ScriptTree) → deleted keep (moved m script) ≡ moved m (deleted keep script) }
{}

/// The law that in a well-formed script no two functions stand at one place, no two classes, and no function at the place
/// of a class. So what is looked up by its place is exactly what stands there.
pub fn functions_stand_apart()
    ensures function { (script : ScriptTree) → IsWellFormed script → (at : Pos) (f : Function) → (function_at script at ≡ Some f) ↔ (Contains (functions_in script.body) f × (f.place ≡ at)) }
    ensures class { (script : ScriptTree) → IsWellFormed script → (at : Pos) (c : Class) → (class_at script at ≡ Some c) ↔ (Contains (classes_in script.body) c × (c.place ≡ at)) }
    ensures function_places { (script : ScriptTree) → IsWellFormed script → IsTrue (are_ascending (map (λ f. f.place) (functions_in script.body))) }
    ensures class_places { (script : ScriptTree) → IsWellFormed script → IsTrue (are_ascending (map (λ c. c.place) (classes_in script.body))) }
    ensures apart { (script : ScriptTree) → IsWellFormed script → (f : Function) (c : Class) → Contains (functions_in script.body) f → Contains (classes_in script.body) c → f.place ≡ c.place → ⊥ }
{}

/// The law that in a well-formed script a statement has one number and one place, and each tells the other. A place of a
/// node belongs to one statement, the innermost whose nodes it is of.
pub fn numbers_and_places()
    ensures numbers { (script : ScriptTree) → IsWellFormed script → (s : ℕ) (x : Standing) → (standing_at script s ≡ Some x) ↔ (Contains (statements script) x × (number_at x ≡ s)) }
    ensures places { (script : ScriptTree) → IsWellFormed script → (at : Pos) (x : Standing) → (standing_on script at ≡ Some x) ↔ (Contains (statements script) x × (place_of x ≡ at)) }
    ensures inverse { (script : ScriptTree) → IsWellFormed script → (s : ℕ) (at : Pos) → (place_at script s ≡ Some at) ↔ (number_on script at ≡ Some s) }
    ensures owner { (script : ScriptTree) → IsWellFormed script → (at : Pos) (s : ℕ) → (owner_of script at ≡ Some s) ↔ ((x : Standing) × Contains (statements script) x × (number_at x ≡ s) × Contains (own_places (form_in x.stmt)) at) }
    ensures owned { (script : ScriptTree) → IsWellFormed script → (at : Pos) → Contains (suite_places script.body) at ↔ ((s : ℕ) × (owner_of script at ≡ Some s)) }
{}

/// The law of what a deletion leaves: exactly the statements that are in the set together with all that they stand in, in
/// their order, and `pass` where a suite would be empty. Each has its new number, its old place, and its parent's new
/// number. Where the set has the parent of each of its statements, all of them stay.
pub fn statements_of_a_deletion()
    ensures statements { (keep : ℕ → Bool) (script : ScriptTree) → IsNumbered script
        → AddsPass (map (remaining keep (new_number keep script)) (staying keep script)) (statements (deleted keep script)) }
    ensures closed { (keep : ℕ → Bool) (script : ScriptTree) → IsNumbered script → IsClosed keep script → staying keep script ≡ those_in keep (statements script) }
    ensures found { (keep : ℕ → Bool) (script : ScriptTree) → IsNumbered script → (x : Standing) → Contains (staying keep script) x
        → standing_at (deleted keep script) (new_number keep script (number_at x)) ≡ Some (remaining keep (new_number keep script) x) }
    ensures parents { (keep : ℕ → Bool) (script : ScriptTree) → IsNumbered script → (x : Standing) → Contains (staying keep script) x
        → parent_of (deleted keep script) (new_number keep script (number_at x)) ≡ option_map (new_number keep script) (parent_of script (number_at x)) }
    ensures functions { (keep : ℕ → Bool) (script : ScriptTree) → IsNumbered script → (x : Standing) → Contains (staying keep script) x
        → function_of (deleted keep script) (new_number keep script (number_at x)) ≡ option_map (new_number keep script) (function_of script (number_at x)) }
    ensures places { (keep : ℕ → Bool) (script : ScriptTree) → IsNumbered script → (x : Standing) → Contains (staying keep script) x
        → place_at (deleted keep script) (new_number keep script (number_at x)) ≡ place_at script (number_at x) }
{}

/// The law of local names. A suite binds exactly the names that some statement of its scope binds itself; where it has no
/// `def` and no `class`, its scope is all its statements. Numbers do not matter, and a deletion makes no name local.
pub fn names_are_local()
    ensures bound { (body : SuiteTree) (name : List ℕ) → suite_binds body name ≡ list_any (λ s. form_binds (form_in s) name) (scope_suite body) }
    ensures scope { (around : Around) (body : SuiteTree) → IsTrue (list_all is_no_definition (listed_suite around body)) → map (λ x. x.stmt) (listed_suite around body) ≡ scope_suite body }
    ensures numbers { (n : ℕ) (body : SuiteTree) (name : List ℕ) → suite_binds (numbered_suite n body) name ≡ suite_binds body name }
    ensures deletion { (keep : ℕ → Bool) (body : SuiteTree) (name : List ℕ) → IsTrue (suite_binds (kept_suite keep body) name) → IsTrue (suite_binds body name) }
    ensures local { (keep : ℕ → Bool) (n : ℕ) (f : Function) (name : List ℕ) → IsTrue (is_local (record f { body = numbered_suite n (or_pass f.body (kept_suite keep f.body)) }) name) → IsTrue (is_local f name) }
{}
