// Laws of comparisons, and of what is in order: sorted items, and the first best one.
ghost use Rattle.std.specs.Prelude.{◌≡◌, ◌↔◌, ℕ, ℤ, true, false, List, [], ◌∷◌, Some, None};
ghost use Rattle.std.specs.Str.{IsUtf8, chars};
ghost use Rattle.py_value.specs.Contents.{Contents, Parts, object, text, tuple};
ghost use Rattle.py_model.specs.Arithmetic.{eq_plan, ne_plan, lt_plan, le_plan, gt_plan, ge_plan, max_plan, min_plan, in_plan, not_in_plan};
ghost use Rattle.py_model.specs.Effect.{Answers, effect};
ghost use Rattle.py_model.specs.Faults.{fault};
ghost use Rattle.py_model.specs.Lists.{index_method, sort_method, sorted_builtin};
ghost use Rattle.py_model.specs.Numbers.{range_count};
ghost use Rattle.py_model.specs.Orderly.{HasKeysApart};
ghost use Rattle.py_model.specs.Sorting.{refused_to};
ghost use Rattle.py_model.specs.Store.{RunStore};
ghost use Rattle.py_model.specs.Walks.{Comparison, alike, deepest, is_alike, items_of, numbers_from, order_of_texts, same_range};
ghost use Rattle.model_laws.specs.Comparing.{AreEqualMaps, HasDicts, Inside, codes_compared, comes, compared, dicts_compared, exceeds, precedes};
ghost use Rattle.model_laws.specs.Equality.{IsEqual, if_sought, in_is, index_is, not_in_is, sought};
ghost use Rattle.model_laws.specs.InOrder.{IsFirstBest, IsSortedOf};
ghost use Rattle.model_laws.specs.Reading.{HasItems, IsList};
ghost use Rattle.model_laws.specs.Results.{Does, DoesAlone, gives, throws};
ghost use Rattle.model_laws.specs.TableComparisons.{eq_is, ne_is, lt_is, le_is, gt_is, ge_is, max_is, min_is};
ghost use Rattle.model_laws.specs.TableLists.{sort_is};
ghost use Rattle.model_laws.specs.TableSequences.{sorted_is};

use py_value::tests_are_equality;

/// The law of comparisons: each does with any two values what the table says of how they compare as they are read in the store, whatever lies in
/// them.
pub fn comparisons_do_as_the_table()
    ensures eq { (store : RunStore) (answers : Answers) (v w : Contents) → HasDicts store → DoesAlone store (effect store answers (eq_plan (v ∷ (w ∷ [])))) (eq_is store v w) }
    ensures ne { (store : RunStore) (answers : Answers) (v w : Contents) → HasDicts store → DoesAlone store (effect store answers (ne_plan (v ∷ (w ∷ [])))) (ne_is store v w) }
    ensures lt { (store : RunStore) (answers : Answers) (v w : Contents) → HasDicts store → DoesAlone store (effect store answers (lt_plan (v ∷ (w ∷ [])))) (lt_is store v w) }
    ensures le { (store : RunStore) (answers : Answers) (v w : Contents) → HasDicts store → DoesAlone store (effect store answers (le_plan (v ∷ (w ∷ [])))) (le_is store v w) }
    ensures gt { (store : RunStore) (answers : Answers) (v w : Contents) → HasDicts store → DoesAlone store (effect store answers (gt_plan (v ∷ (w ∷ [])))) (gt_is store v w) }
    ensures ge { (store : RunStore) (answers : Answers) (v w : Contents) → HasDicts store → DoesAlone store (effect store answers (ge_plan (v ∷ (w ∷ [])))) (ge_is store v w) }
    ensures members { (store : RunStore) (answers : Answers) (v w : Contents) (how : Comparison) → HasDicts store → compared store false v w ≡ comes how
        → IsEqual store answers v w (is_alike how) }
{
    tests_are_equality();
}

/// The law of what is compared: dictionaries are equal exactly where they have the same keys, each with equal values; texts come first by their code
/// points; two ranges are equal exactly where they have the same numbers.
pub fn maps_texts_and_ranges_compare()
    ensures maps { (inside : Inside) (pairs others : List (Contents × Contents)) → HasKeysApart pairs → HasKeysApart others
        → (dicts_compared inside pairs others ≡ comes alike) ↔ AreEqualMaps inside pairs others }
    ensures code_points { (one other : List ℕ) → IsUtf8 one → IsUtf8 other → order_of_texts one other ≡ codes_compared (chars one) (chars other) }
    ensures ranges { (a b c d e f : ℤ) → (same_range a b c d e f ≡ true) ↔ (numbers_from (range_count a b c) a c ≡ numbers_from (range_count d e f) d f) }
{
    tests_are_equality();
}

/// The law of values that are sought: `in`, `not in` and `index` answer by the first item of a list or a tuple that is equal, as the values are read in the store.
pub fn members_are_sought()
    ensures contains { (store : RunStore) (answers : Answers) (o : ℕ) (items : List Contents) (v : Contents) → HasDicts store → IsList store o items
        → Does IsList store o (effect store answers (in_plan (v ∷ (object o ∷ [])))) (if_sought (in_is items) (sought store v items)) }
    ensures lacks { (store : RunStore) (answers : Answers) (o : ℕ) (items : List Contents) (v : Contents) → HasDicts store → IsList store o items
        → Does IsList store o (effect store answers (not_in_plan (v ∷ (object o ∷ [])))) (if_sought (not_in_is items) (sought store v items)) }
    ensures index { (store : RunStore) (answers : Answers) (o : ℕ) (items : List Contents) (v : Contents) → HasDicts store → IsList store o items
        → Does IsList store o (effect store answers (index_method (object o ∷ (v ∷ [])))) (if_sought (index_is items) (sought store v items)) }
    ensures tuple_contains { (store : RunStore) (answers : Answers) (v : Contents) (parts : Parts) → HasDicts store
        → DoesAlone store (effect store answers (in_plan (v ∷ (tuple parts ∷ [])))) (if_sought (in_is tt) (sought store v (items_of parts))) }
    ensures tuple_lacks { (store : RunStore) (answers : Answers) (v : Contents) (parts : Parts) → HasDicts store
        → DoesAlone store (effect store answers (not_in_plan (v ∷ (tuple parts ∷ [])))) (if_sought (not_in_is tt) (sought store v (items_of parts))) }
{
    tests_are_equality();
}

/// The law of sorting: where nothing is refused of the items, a list is sorted in place, and a sorted list is made of what a sequence has. Items that are
/// refused raise. Of given items only one list is sorted.
pub fn items_are_sorted()
    ensures sort { (store : RunStore) (answers : Answers) (o : ℕ) (items : List Contents) → IsList store o items → refused_to deepest items ≡ None
        → (sorted : List Contents) × (IsSortedOf store items sorted × Does IsList store o (effect store answers (sort_method (object o ∷ []))) (sort_is sorted)) }
    ensures sort_refused { (store : RunStore) (answers : Answers) (o : ℕ) (items : List Contents) (number : ℕ) (words : List ℕ) → IsList store o items
        → refused_to deepest items ≡ Some (fault number words) → Does IsList store o (effect store answers (sort_method (object o ∷ []))) (throws number (text words ∷ [])) }
    ensures sorted { (store : RunStore) (answers : Answers) (v : Contents) (items : List Contents) → HasItems store v items → refused_to deepest items ≡ None
        → (sorted : List Contents) × (IsSortedOf store items sorted × DoesAlone store (effect store answers (sorted_builtin (v ∷ []))) (sorted_is sorted)) }
    ensures sorted_refused { (store : RunStore) (answers : Answers) (v : Contents) (items : List Contents) (number : ℕ) (words : List ℕ) → HasItems store v items
        → refused_to deepest items ≡ Some (fault number words) → DoesAlone store (effect store answers (sorted_builtin (v ∷ []))) (throws number (text words ∷ [])) }
    ensures one { (store : RunStore) (items sorted also : List Contents) → refused_to deepest items ≡ None → IsSortedOf store items sorted
        → IsSortedOf store items also → sorted ≡ also }
{}

/// The law of `max` and `min`: each does what the table says of the items of one sequence, or of two operands and more. Of items of which a sort refuses nothing, the
/// answer is the first of the greatest, or of the least.
pub fn best_items_are_found()
    ensures max { (store : RunStore) (answers : Answers) (v : Contents) (items : List Contents) → HasDicts store → HasItems store v items
        → DoesAlone store (effect store answers (max_plan (v ∷ []))) (max_is store items) }
    ensures max_of { (store : RunStore) (answers : Answers) (v w : Contents) (more : List Contents) → HasDicts store
        → DoesAlone store (effect store answers (max_plan (v ∷ (w ∷ more)))) (max_is store (v ∷ (w ∷ more))) }
    ensures greatest { (store : RunStore) (item : Contents) (items : List Contents) → refused_to deepest (item ∷ items) ≡ None
        → (best : Contents) × (IsFirstBest (exceeds store) (item ∷ items) best × (max_is store (item ∷ items) ≡ gives best)) }
    ensures min { (store : RunStore) (answers : Answers) (v : Contents) (items : List Contents) → HasDicts store → HasItems store v items
        → DoesAlone store (effect store answers (min_plan (v ∷ []))) (min_is store items) }
    ensures min_of { (store : RunStore) (answers : Answers) (v w : Contents) (more : List Contents) → HasDicts store
        → DoesAlone store (effect store answers (min_plan (v ∷ (w ∷ more)))) (min_is store (v ∷ (w ∷ more))) }
    ensures least { (store : RunStore) (item : Contents) (items : List Contents) → refused_to deepest (item ∷ items) ≡ None
        → (best : Contents) × (IsFirstBest (precedes store) (item ∷ items) best × (min_is store (item ∷ items) ≡ gives best)) }
{
    tests_are_equality();
}
