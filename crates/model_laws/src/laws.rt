// Laws of the table in terms of values, each a function without a body that says it.
ghost use Rattle.std.specs.Str.{bytes_eq};
ghost use Rattle.std.specs.Prelude.{Contains, ◌≡◌, ◌↔◌, ℕ, ℤ, Bool, List, [], ◌∷◌, Option, Some, None, map, length, true, false, pos, codes, encode_utf8};
ghost use Rattle.prov_base.specs.Path.{is_path};
ghost use Rattle.py_value.specs.Contents.{Contents, Parts, nothing, object, range, text, tuple, int};
ghost use Rattle.py_value.specs.KeyOf.{key_fault};
ghost use Rattle.py_model.specs.Texts.{characters, is_scalar};
ghost use Rattle.py_model.specs.Files.{read_plan, readline_plan, write_plan, close_plan, next_line, open_plan};
ghost use Rattle.py_model.specs.Arithmetic.{add_plan, in_plan, iadd_plan, len_plan, mul_plan, neg_plan, pos_plan, abs_plan, sub_plan, floor_div_plan, mod_plan, truth_plan, not_plan, not_in_plan, sum_plan, chr_plan, ord_plan, int_plan};
ghost use Rattle.py_model.specs.Classes.{find, getattr, setattr};
ghost use Rattle.py_model.specs.Dicts.{get_method, items_method, keys_method, values_method, dict_display, dict_builtin};
ghost use Rattle.py_model.specs.Effect.{Answers, after, effect};
ghost use Rattle.py_model.specs.Lists.{append, extend, insert, pop, getitem, setitem, delitem, slice, reverse_method, list_builtin, tuple_builtin, enumerate, zip_builtin, index_method, unpack, list_display, tuple_display, iter, next};
ghost use Rattle.py_model.specs.Numbers.{times, range_count, is_int, int_text};
ghost use Rattle.py_model.specs.Operands.{number_in};
ghost use Rattle.py_model.specs.Operations.{Op, plan};
ghost use Rattle.py_model.specs.Printing.{print_values, repr_of, str_of};
ghost use Rattle.py_model.specs.Sorting.{all_are, is_number};
ghost use Rattle.py_model.specs.Store.{RunStore, file_of, opening};
ghost use Rattle.py_model.specs.Walks.{deepest, items_of, numbers_from};
ghost use Rattle.py_model.specs.TextMethods.{strip_plan, lstrip_plan, rstrip_plan, split_plan, join_plan, replace_plan, find_plan, startswith_plan, endswith_plan, upper_plan, lower_plan, isdigit_plan, ljust_plan, rjust_plan};
ghost use Rattle.model_laws.specs.Comparing.{HasDicts};
ghost use Rattle.model_laws.specs.TableFiles.{IsKnown, IsUnreadable, MakesFile};
ghost use Rattle.model_laws.specs.Equality.{IsEqual, StandsAt};
ghost use Rattle.model_laws.specs.Reading.{HasAllPairs, HasPairs, IsDict, IsInstance, IsList, pair_of, pairs_at, HasItems, IsPlainList, items_at, FileValue, IsFile};
ghost use Rattle.model_laws.specs.TableDicts.{Pairs, getitem_is as dict_getitem_is, setitem_is as dict_setitem_is, delitem_is as dict_delitem_is, in_is, len_is as dict_len_is, get_is, items_is, keys_is, values_is, setattr_is, getattr_is, truth_is as dict_truth_is, not_is as dict_not_is, iter_is as dict_iter_is, next_is as dict_next_is, MakesDict, HasNoNext, HasUsableKeys, display_pairs, not_in_is as dict_not_in_is};
ghost use Rattle.model_laws.specs.Results.{Does, DoesAlone, DoesToFile, gives};
ghost use Rattle.model_laws.specs.TableLists.{append_is, getitem_is, setitem_is, delitem_is, pop_is, pop_last_is, insert_is, len_is, extend_is, iadd_is, add_is, slice_is, mul_is, reverse_is, bound_in, truth_is, not_is, unpack_is, iter_is, next_is};
ghost use Rattle.model_laws.specs.TablePrinting.{PrintsLine, deep_is, forms_of, lies_deep, line_of, repr_form, str_form, told};
ghost use Rattle.model_laws.specs.TableComparisons.{wrong_kinds};
ghost use Rattle.model_laws.specs.TableSequences.{StandsInRange};
ghost use Rattle.model_laws.specs.Equality as members;
ghost use Rattle.model_laws.specs.TableFiles as files;
ghost use Rattle.model_laws.specs.TableNumbers as numbers;
ghost use Rattle.model_laws.specs.TableSequences as sequences;
ghost use Rattle.model_laws.specs.TableTexts as texts;

use py_model::{map_changes_by_accesses, operations_are_orderly};
use py_value::tests_are_equality;

/// The law that a plain list is the list of the items that are read of it, and of no others; and a list of items is plain.
pub fn plain_lists_have_items()
    ensures plain { (store : RunStore) (o : ℕ) → IsPlainList store o → IsList store o (items_at store o) }
    ensures one { (store : RunStore) (o : ℕ) (items : List Contents) → IsList store o items → IsPlainList store o × (items ≡ items_at store o) }
{}

/// The law of lists that are changed: where an object is the list of some items, each operation does what the table says of these items.
pub fn lists_do_as_the_table()
    ensures append { (store : RunStore) (answers : Answers) (o : ℕ) (items : List Contents) (item : Contents) → IsList store o items
        → Does IsList store o (effect store answers (append (object o ∷ (item ∷ [])))) (append_is items item) }
    ensures setitem { (store : RunStore) (answers : Answers) (o : ℕ) (items : List Contents) (index : Contents) (i : ℤ) (item : Contents)
        → IsList store o items → number_in index ≡ Some i
        → Does IsList store o (effect store answers (setitem (object o ∷ (index ∷ (item ∷ []))))) (setitem_is items i item) }
    ensures delitem { (store : RunStore) (answers : Answers) (o : ℕ) (items : List Contents) (index : Contents) (i : ℤ) → IsList store o items
        → number_in index ≡ Some i → Does IsList store o (effect store answers (delitem (object o ∷ (index ∷ [])))) (delitem_is items i) }
    ensures pop { (store : RunStore) (answers : Answers) (o : ℕ) (items : List Contents) (index : Contents) (i : ℤ) → IsList store o items
        → number_in index ≡ Some i → Does IsList store o (effect store answers (pop (object o ∷ (index ∷ [])))) (pop_is items i) }
    ensures pop_last { (store : RunStore) (answers : Answers) (o : ℕ) (items : List Contents) → IsList store o items
        → Does IsList store o (effect store answers (pop (object o ∷ []))) (pop_last_is items) }
    ensures insert { (store : RunStore) (answers : Answers) (o : ℕ) (items : List Contents) (index : Contents) (i : ℤ) (item : Contents)
        → IsList store o items → number_in index ≡ Some i
        → Does IsList store o (effect store answers (insert (object o ∷ (index ∷ (item ∷ []))))) (insert_is items i item) }
    ensures extend { (store : RunStore) (answers : Answers) (o : ℕ) (items more : List Contents) (other : Contents) → IsList store o items
        → HasItems store other more → Does IsList store o (effect store answers (extend (object o ∷ (other ∷ [])))) (extend_is items more) }
    ensures iadd { (store : RunStore) (answers : Answers) (o : ℕ) (items more : List Contents) (other : Contents) → IsList store o items
        → HasItems store other more → Does IsList store o (effect store answers (iadd_plan (object o ∷ (other ∷ [])))) (iadd_is o items more) }
    ensures reverse { (store : RunStore) (answers : Answers) (o : ℕ) (items : List Contents) → IsList store o items
        → Does IsList store o (effect store answers (reverse_method (object o ∷ []))) (reverse_is items) }
{}

/// The law of lists that are read: so each operation does that answers an item, a number or the end, or makes a new list or a tuple.
pub fn lists_are_read_as_the_table()
    ensures truth { (store : RunStore) (answers : Answers) (o : ℕ) (items : List Contents) → IsList store o items
        → Does IsList store o (effect store answers (truth_plan (object o ∷ []))) (truth_is items) }
    ensures negation { (store : RunStore) (answers : Answers) (o : ℕ) (items : List Contents) → IsList store o items
        → Does IsList store o (effect store answers (not_plan (object o ∷ []))) (not_is items) }
    ensures iter { (store : RunStore) (answers : Answers) (o : ℕ) (items : List Contents) → IsList store o items
        → Does IsList store o (effect store answers (iter (object o ∷ []))) (iter_is items) }
    ensures next { (store : RunStore) (answers : Answers) (o : ℕ) (items : List Contents) (turn : ℕ) (begun : Contents) → IsList store o items
        → Does IsList store o (effect store answers (next next_line (object o ∷ (int (pos turn) ∷ (begun ∷ []))))) (next_is items turn) }
    ensures unpack { (store : RunStore) (answers : Answers) (o : ℕ) (items : List Contents) (targets : ℕ) → IsList store o items
        → Does IsList store o (effect store answers (unpack targets (object o ∷ []))) (unpack_is targets items) }
    ensures getitem { (store : RunStore) (answers : Answers) (o : ℕ) (items : List Contents) (index : Contents) (i : ℤ) → IsList store o items
        → number_in index ≡ Some i → Does IsList store o (effect store answers (getitem (object o ∷ (index ∷ [])))) (getitem_is items i) }
    ensures len { (store : RunStore) (answers : Answers) (o : ℕ) (items : List Contents) → IsList store o items
        → Does IsList store o (effect store answers (len_plan (object o ∷ []))) (len_is items) }
    ensures add { (store : RunStore) (answers : Answers) (o p : ℕ) (items more : List Contents) → IsList store o items → IsList store p more
        → Does IsList store o (effect store answers (add_plan (object o ∷ (object p ∷ [])))) (add_is items more) }
    ensures slice { (store : RunStore) (answers : Answers) (o : ℕ) (items : List Contents) (low high : Contents) (l h : Option ℤ) → IsList store o items
        → bound_in low ≡ Some l → bound_in high ≡ Some h
        → Does IsList store o (effect store answers (slice (object o ∷ (low ∷ (high ∷ []))))) (slice_is items l h) }
    ensures mul { (store : RunStore) (answers : Answers) (o : ℕ) (items : List Contents) (number : Contents) (i : ℤ) → IsList store o items
        → number_in number ≡ Some i → Does IsList store o (effect store answers (mul_plan (object o ∷ (number ∷ [])))) (mul_is items (times i)) }
{}

/// The law of dictionaries: where an object is the dictionary of some pairs, each operation does with a usable key what the table says of these
/// pairs. They are those that are read.
pub fn dicts_do_as_the_table()
    ensures truth { (store : RunStore) (answers : Answers) (o : ℕ) (pairs : Pairs) → IsDict store o pairs
        → Does IsDict store o (effect store answers (truth_plan (object o ∷ []))) (dict_truth_is pairs) }
    ensures negation { (store : RunStore) (answers : Answers) (o : ℕ) (pairs : Pairs) → IsDict store o pairs
        → Does IsDict store o (effect store answers (not_plan (object o ∷ []))) (dict_not_is pairs) }
    ensures iter { (store : RunStore) (answers : Answers) (o : ℕ) (pairs : Pairs) → IsDict store o pairs
        → Does IsDict store o (effect store answers (iter (object o ∷ []))) (dict_iter_is pairs) }
    ensures next { (store : RunStore) (answers : Answers) (o : ℕ) (pairs : Pairs) (turn begun : ℕ) → IsDict store o pairs
        → Does IsDict store o (effect store answers (next next_line (object o ∷ (int (pos turn) ∷ (int (pos begun) ∷ []))))) (dict_next_is pairs turn begun) }
    ensures getitem { (store : RunStore) (answers : Answers) (o : ℕ) (pairs : Pairs) (key : Contents) → IsDict store o pairs → key_fault deepest key ≡ None
        → Does IsDict store o (effect store answers (getitem (object o ∷ (key ∷ [])))) (dict_getitem_is pairs key) }
    ensures setitem { (store : RunStore) (answers : Answers) (o : ℕ) (pairs : Pairs) (key item : Contents) → IsDict store o pairs → key_fault deepest key ≡ None
        → Does IsDict store o (effect store answers (setitem (object o ∷ (key ∷ (item ∷ []))))) (dict_setitem_is pairs key item) }
    ensures delitem { (store : RunStore) (answers : Answers) (o : ℕ) (pairs : Pairs) (key : Contents) → IsDict store o pairs → key_fault deepest key ≡ None
        → Does IsDict store o (effect store answers (delitem (object o ∷ (key ∷ [])))) (dict_delitem_is pairs key) }
    ensures contains { (store : RunStore) (answers : Answers) (o : ℕ) (pairs : Pairs) (key : Contents) → IsDict store o pairs → key_fault deepest key ≡ None
        → Does IsDict store o (effect store answers (in_plan (key ∷ (object o ∷ [])))) (in_is pairs key) }
    ensures lacks { (store : RunStore) (answers : Answers) (o : ℕ) (pairs : Pairs) (key : Contents) → IsDict store o pairs → key_fault deepest key ≡ None
        → Does IsDict store o (effect store answers (not_in_plan (key ∷ (object o ∷ [])))) (dict_not_in_is pairs key) }
    ensures get { (store : RunStore) (answers : Answers) (o : ℕ) (pairs : Pairs) (key instead : Contents) → IsDict store o pairs → key_fault deepest key ≡ None
        → Does IsDict store o (effect store answers (get_method (object o ∷ (key ∷ (instead ∷ []))))) (get_is pairs key instead) }
    ensures get_or_none { (store : RunStore) (answers : Answers) (o : ℕ) (pairs : Pairs) (key : Contents) → IsDict store o pairs → key_fault deepest key ≡ None
        → Does IsDict store o (effect store answers (get_method (object o ∷ (key ∷ [])))) (get_is pairs key nothing) }
    ensures len { (store : RunStore) (answers : Answers) (o : ℕ) (pairs : Pairs) → IsDict store o pairs
        → Does IsDict store o (effect store answers (len_plan (object o ∷ []))) (dict_len_is pairs) }
    ensures items { (store : RunStore) (answers : Answers) (o : ℕ) (pairs : Pairs) → IsDict store o pairs
        → Does IsDict store o (effect store answers (items_method (object o ∷ []))) (items_is pairs) }
    ensures keys { (store : RunStore) (answers : Answers) (o : ℕ) (pairs : Pairs) → IsDict store o pairs
        → Does IsDict store o (effect store answers (keys_method (object o ∷ []))) (keys_is pairs) }
    ensures values { (store : RunStore) (answers : Answers) (o : ℕ) (pairs : Pairs) → IsDict store o pairs
        → Does IsDict store o (effect store answers (values_method (object o ∷ []))) (values_is pairs) }
    ensures read { (store : RunStore) (o : ℕ) (pairs : Pairs) → HasPairs store o pairs → pairs ≡ pairs_at store o }
{
    tests_are_equality();
}

/// The law of attributes: where an object is the instance of a class with some attributes, one that is there is read and any is set as the table
/// says.
pub fn attributes_do_as_the_table()
    ensures setattr { (store : RunStore) (answers : Answers) (of : Contents) (o : ℕ) (pairs : Pairs) (name : List ℕ) (item : Contents)
        → IsInstance of store o pairs → Does (IsInstance of) store o (effect store answers (setattr name (object o) item)) (setattr_is pairs name item) }
    ensures getattr { (store : RunStore) (answers : Answers) (of : Contents) (o : ℕ) (pairs : Pairs) (name : List ℕ) (pair : Contents × Contents)
        → IsInstance of store o pairs → pair_of (text name) pairs ≡ Some pair
        → Does (IsInstance of) store o (effect store answers (getattr name (object o))) (getattr_is pairs pair) }
    ensures find { (store : RunStore) (answers : Answers) (of : Contents) (o : ℕ) (pairs : Pairs) (name : List ℕ) (pair : Contents × Contents)
        → IsInstance of store o pairs → pair_of (text name) pairs ≡ Some pair
        → Does (IsInstance of) store o (effect store answers (find name (object o))) (getattr_is pairs pair) }
{
    tests_are_equality();
}

/// The law of texts: each operator, and `len`, does with a text what the table says. `ord` undoes `chr`.
pub fn texts_do_as_the_table()
    ensures getitem { (store : RunStore) (answers : Answers) (bytes : List ℕ) (index : Contents) (i : ℤ) → number_in index ≡ Some i
        → DoesAlone store (effect store answers (getitem (text bytes ∷ (index ∷ [])))) (texts.getitem_is bytes i) }
    ensures slice { (store : RunStore) (answers : Answers) (bytes : List ℕ) (low high : Contents) (l h : Option ℤ) → bound_in low ≡ Some l → bound_in high ≡ Some h
        → DoesAlone store (effect store answers (slice (text bytes ∷ (low ∷ (high ∷ []))))) (texts.slice_is bytes l h) }
    ensures add { (store : RunStore) (answers : Answers) (one other : List ℕ)
        → DoesAlone store (effect store answers (add_plan (text one ∷ (text other ∷ [])))) (texts.add_is one other) }
    ensures mul { (store : RunStore) (answers : Answers) (bytes : List ℕ) (number : Contents) (i : ℤ) → number_in number ≡ Some i
        → DoesAlone store (effect store answers (mul_plan (text bytes ∷ (number ∷ [])))) (texts.mul_is bytes (times i)) }
    ensures contains { (store : RunStore) (answers : Answers) (sought bytes : List ℕ)
        → DoesAlone store (effect store answers (in_plan (text sought ∷ (text bytes ∷ [])))) (texts.in_is sought bytes) }
    ensures lacks { (store : RunStore) (answers : Answers) (sought bytes : List ℕ)
        → DoesAlone store (effect store answers (not_in_plan (text sought ∷ (text bytes ∷ [])))) (texts.not_in_is sought bytes) }
    ensures len { (store : RunStore) (answers : Answers) (bytes : List ℕ)
        → DoesAlone store (effect store answers (len_plan (text bytes ∷ []))) (texts.len_is bytes) }
    ensures chr { (store : RunStore) (answers : Answers) (code : ℕ) → is_scalar code ≡ true
        → DoesAlone store (effect store answers (chr_plan (int (pos code) ∷ []))) (texts.chr_is code) }
    ensures ord { (store : RunStore) (answers : Answers) (code : ℕ) → is_scalar code ≡ true
        → DoesAlone store (effect store answers (ord_plan (text (encode_utf8 code) ∷ []))) (texts.ord_is code) }
{}

/// The law of the methods of texts: each does what the table says.
pub fn text_methods_do_as_the_table()
    ensures strip { (store : RunStore) (answers : Answers) (bytes : List ℕ)
        → DoesAlone store (effect store answers (strip_plan (text bytes ∷ []))) (texts.strip_is bytes) }
    ensures lstrip { (store : RunStore) (answers : Answers) (bytes : List ℕ)
        → DoesAlone store (effect store answers (lstrip_plan (text bytes ∷ []))) (texts.lstrip_is bytes) }
    ensures rstrip { (store : RunStore) (answers : Answers) (bytes : List ℕ)
        → DoesAlone store (effect store answers (rstrip_plan (text bytes ∷ []))) (texts.rstrip_is bytes) }
    ensures split { (store : RunStore) (answers : Answers) (bytes : List ℕ)
        → DoesAlone store (effect store answers (split_plan (text bytes ∷ []))) (texts.split_is bytes) }
    ensures split_by { (store : RunStore) (answers : Answers) (bytes separator : List ℕ)
        → DoesAlone store (effect store answers (split_plan (text bytes ∷ (text separator ∷ [])))) (texts.split_by_is bytes separator) }
    ensures join { (store : RunStore) (answers : Answers) (separator : List ℕ) (v : Contents) (all : List (List ℕ)) → HasItems store v (map text all)
        → DoesAlone store (effect store answers (join_plan (text separator ∷ (v ∷ [])))) (texts.join_is separator all) }
    ensures replace { (store : RunStore) (answers : Answers) (bytes sought other : List ℕ)
        → DoesAlone store (effect store answers (replace_plan (text bytes ∷ (text sought ∷ (text other ∷ []))))) (texts.replace_is bytes sought other) }
    ensures find { (store : RunStore) (answers : Answers) (bytes sought : List ℕ)
        → DoesAlone store (effect store answers (find_plan (text bytes ∷ (text sought ∷ [])))) (texts.find_is bytes sought) }
    ensures startswith { (store : RunStore) (answers : Answers) (bytes sought : List ℕ)
        → DoesAlone store (effect store answers (startswith_plan (text bytes ∷ (text sought ∷ [])))) (texts.startswith_is bytes sought) }
    ensures endswith { (store : RunStore) (answers : Answers) (bytes sought : List ℕ)
        → DoesAlone store (effect store answers (endswith_plan (text bytes ∷ (text sought ∷ [])))) (texts.endswith_is bytes sought) }
    ensures upper { (store : RunStore) (answers : Answers) (bytes : List ℕ)
        → DoesAlone store (effect store answers (upper_plan (text bytes ∷ []))) (texts.upper_is bytes) }
    ensures lower { (store : RunStore) (answers : Answers) (bytes : List ℕ)
        → DoesAlone store (effect store answers (lower_plan (text bytes ∷ []))) (texts.lower_is bytes) }
    ensures isdigit { (store : RunStore) (answers : Answers) (bytes : List ℕ)
        → DoesAlone store (effect store answers (isdigit_plan (text bytes ∷ []))) (texts.isdigit_is bytes) }
    ensures ljust { (store : RunStore) (answers : Answers) (bytes : List ℕ) (number : Contents) (i : ℤ) → number_in number ≡ Some i
        → DoesAlone store (effect store answers (ljust_plan (text bytes ∷ (number ∷ [])))) (texts.ljust_is bytes i) }
    ensures rjust { (store : RunStore) (answers : Answers) (bytes : List ℕ) (number : Contents) (i : ℤ) → number_in number ≡ Some i
        → DoesAlone store (effect store answers (rjust_plan (text bytes ∷ (number ∷ [])))) (texts.rjust_is bytes i) }
{}

/// The law of sequences: each operation on tuples and ranges, and each turn over them and over texts, does what the table says of the items. The numbers
/// of a range are those that stand in it: some whole steps from the start, and before the end.
pub fn sequences_do_as_the_table()
    ensures unpack { (store : RunStore) (answers : Answers) (targets : ℕ) (parts : Parts)
        → DoesAlone store (effect store answers (unpack targets (tuple parts ∷ []))) (sequences.unpack_is targets (items_of parts)) }
    ensures iter_of_tuple { (store : RunStore) (answers : Answers) (parts : Parts) → DoesAlone store (effect store answers (iter (tuple parts ∷ []))) sequences.iter_is }
    ensures iter_of_range { (store : RunStore) (answers : Answers) (start end step : ℤ)
        → DoesAlone store (effect store answers (iter (range start end step ∷ []))) sequences.iter_is }
    ensures iter_of_text { (store : RunStore) (answers : Answers) (bytes : List ℕ) → DoesAlone store (effect store answers (iter (text bytes ∷ []))) sequences.iter_is }
    ensures next_of_tuple { (store : RunStore) (answers : Answers) (parts : Parts) (turn : ℕ) (begun : Contents)
        → DoesAlone store (effect store answers (next next_line (tuple parts ∷ (int (pos turn) ∷ (begun ∷ []))))) (sequences.next_is (items_of parts) turn) }
    ensures next_of_text { (store : RunStore) (answers : Answers) (bytes : List ℕ) (turn : ℕ) (begun : Contents)
        → DoesAlone store (effect store answers (next next_line (text bytes ∷ (int (pos turn) ∷ (begun ∷ []))))) (sequences.next_is (map text (characters bytes)) turn) }
    ensures next_of_range { (store : RunStore) (answers : Answers) (start end step : ℤ) (turn : ℕ) (begun : Contents)
        → DoesAlone store (effect store answers (next next_line (range start end step ∷ (int (pos turn) ∷ (begun ∷ [])))))
        (sequences.next_of_range_is start end step turn) }
    ensures getitem { (store : RunStore) (answers : Answers) (parts : Parts) (index : Contents) (i : ℤ) → number_in index ≡ Some i
        → DoesAlone store (effect store answers (getitem (tuple parts ∷ (index ∷ [])))) (sequences.getitem_is (items_of parts) i) }
    ensures getitem_of_range { (store : RunStore) (answers : Answers) (start end step : ℤ) (index : Contents) (i : ℤ) → number_in index ≡ Some i
        → DoesAlone store (effect store answers (getitem (range start end step ∷ (index ∷ [])))) (sequences.getitem_of_range_is start end step i) }
    ensures slice { (store : RunStore) (answers : Answers) (parts : Parts) (low high : Contents) (l h : Option ℤ) → bound_in low ≡ Some l → bound_in high ≡ Some h
        → DoesAlone store (effect store answers (slice (tuple parts ∷ (low ∷ (high ∷ []))))) (sequences.slice_is (items_of parts) l h) }
    ensures add { (store : RunStore) (answers : Answers) (ps qs : Parts)
        → DoesAlone store (effect store answers (add_plan (tuple ps ∷ (tuple qs ∷ [])))) (sequences.add_is (items_of ps) (items_of qs)) }
    ensures mul { (store : RunStore) (answers : Answers) (parts : Parts) (number : Contents) (i : ℤ) → number_in number ≡ Some i
        → DoesAlone store (effect store answers (mul_plan (tuple parts ∷ (number ∷ [])))) (sequences.mul_is (items_of parts) (times i)) }
    ensures len { (store : RunStore) (answers : Answers) (parts : Parts)
        → DoesAlone store (effect store answers (len_plan (tuple parts ∷ []))) (sequences.len_is (length (items_of parts))) }
    ensures len_of_range { (store : RunStore) (answers : Answers) (start end step : ℤ)
        → DoesAlone store (effect store answers (len_plan (range start end step ∷ []))) (sequences.len_is (range_count start end step)) }
    ensures range { (start end step i : ℤ) → Contains (numbers_from (range_count start end step) start step) (int i) ↔ StandsInRange start end step i }
    ensures in_range { (store : RunStore) (answers : Answers) (v : Contents) (start end step i : ℤ) → number_in v ≡ Some i
        → (is_there : Bool) × (((is_there ≡ true) ↔ StandsInRange start end step i)
        × DoesAlone store (effect store answers (in_plan (v ∷ (range start end step ∷ [])))) (sequences.in_range_is is_there)) }
    ensures not_in_range { (store : RunStore) (answers : Answers) (v : Contents) (start end step i : ℤ) → number_in v ≡ Some i
        → (is_there : Bool) × (((is_there ≡ true) ↔ StandsInRange start end step i)
        × DoesAlone store (effect store answers (not_in_plan (v ∷ (range start end step ∷ [])))) (sequences.not_in_range_is is_there)) }
    ensures other_in_range { (store : RunStore) (answers : Answers) (v : Contents) (start end step : ℤ) → number_in v ≡ None
        → DoesAlone store (effect store answers (in_plan (v ∷ (range start end step ∷ [])))) (sequences.in_range_is false) }
    ensures other_not_in_range { (store : RunStore) (answers : Answers) (v : Contents) (start end step : ℤ) → number_in v ≡ None
        → DoesAlone store (effect store answers (not_in_plan (v ∷ (range start end step ∷ [])))) (sequences.not_in_range_is false) }
{}

/// The law of displays and walks: a display makes a list, or is a tuple, of its operands, and so each that walks a sequence, of the items.
pub fn walks_do_as_the_table()
    ensures list_display { (store : RunStore) (answers : Answers) (items : List Contents)
        → DoesAlone store (effect store answers (list_display items)) (sequences.list_display_is items) }
    ensures tuple_display { (store : RunStore) (answers : Answers) (items : List Contents)
        → DoesAlone store (effect store answers (tuple_display items)) (sequences.tuple_display_is items) }
    ensures list { (store : RunStore) (answers : Answers) (v : Contents) (items : List Contents) → HasItems store v items
        → DoesAlone store (effect store answers (list_builtin (v ∷ []))) (sequences.list_is items) }
    ensures tuple { (store : RunStore) (answers : Answers) (v : Contents) (items : List Contents) → HasItems store v items
        → DoesAlone store (effect store answers (tuple_builtin (v ∷ []))) (sequences.tuple_is items) }
    ensures enumerate { (store : RunStore) (answers : Answers) (v : Contents) (items : List Contents) → HasItems store v items
        → DoesAlone store (effect store answers (enumerate (v ∷ []))) (sequences.enumerate_is items) }
    ensures zip { (store : RunStore) (answers : Answers) (v w : Contents) (items more : List Contents) → HasItems store v items → HasItems store w more
        → DoesAlone store (effect store answers (zip_builtin (v ∷ (w ∷ [])))) (sequences.zip_is items more) }
    ensures sum { (store : RunStore) (answers : Answers) (v : Contents) (items : List Contents) (all : List ℤ) → HasItems store v items
        → map number_in items ≡ map Some all → DoesAlone store (effect store answers (sum_plan (v ∷ []))) (numbers.sum_is all) }
    ensures sum_refused { (store : RunStore) (answers : Answers) (v : Contents) (items : List Contents) → HasItems store v items → all_are is_number items ≡ false
        → DoesAlone store (effect store answers (sum_plan (v ∷ []))) wrong_kinds }
{}

/// The law of numbers: each operation on operands that are numbers does what the table says of these. A number and what it repeats may stand on either
/// side. `int` undoes `str`.
pub fn numbers_do_as_the_table()
    ensures neg { (store : RunStore) (answers : Answers) (v : Contents) (i : ℤ) → number_in v ≡ Some i
        → DoesAlone store (effect store answers (neg_plan (v ∷ []))) (numbers.neg_is i) }
    ensures pos { (store : RunStore) (answers : Answers) (v : Contents) (i : ℤ) → number_in v ≡ Some i
        → DoesAlone store (effect store answers (pos_plan (v ∷ []))) (numbers.pos_is i) }
    ensures abs { (store : RunStore) (answers : Answers) (v : Contents) (i : ℤ) → number_in v ≡ Some i
        → DoesAlone store (effect store answers (abs_plan (v ∷ []))) (numbers.abs_is i) }
    ensures sub { (store : RunStore) (answers : Answers) (v w : Contents) (i j : ℤ) → number_in v ≡ Some i → number_in w ≡ Some j
        → DoesAlone store (effect store answers (sub_plan (v ∷ (w ∷ [])))) (numbers.sub_is i j) }
    ensures mul { (store : RunStore) (answers : Answers) (v w : Contents) (i j : ℤ) → number_in v ≡ Some i → number_in w ≡ Some j
        → DoesAlone store (effect store answers (mul_plan (v ∷ (w ∷ [])))) (numbers.mul_is i j) }
    ensures floordiv { (store : RunStore) (answers : Answers) (v w : Contents) (i j : ℤ) → number_in v ≡ Some i → number_in w ≡ Some j
        → DoesAlone store (effect store answers (floor_div_plan (v ∷ (w ∷ [])))) (numbers.floordiv_is i j) }
    ensures remainder { (store : RunStore) (answers : Answers) (v w : Contents) (i j : ℤ) → number_in v ≡ Some i → number_in w ≡ Some j
        → DoesAlone store (effect store answers (mod_plan (v ∷ (w ∷ [])))) (numbers.mod_is i j) }
    ensures add { (store : RunStore) (answers : Answers) (v w : Contents) (i j : ℤ) → number_in v ≡ Some i → number_in w ≡ Some j
        → DoesAlone store (effect store answers (add_plan (v ∷ (w ∷ [])))) (numbers.add_is i j) }
    ensures repeats { (store : RunStore) (answers : Answers) (v w : Contents) (i : ℤ) → number_in v ≡ Some i → number_in w ≡ None
        → effect store answers (mul_plan (v ∷ (w ∷ []))) ≡ effect store answers (mul_plan (w ∷ (v ∷ []))) }
    ensures str { (store : RunStore) (answers : Answers) (i : ℤ) → DoesAlone store (effect store answers (str_of (int i))) (numbers.str_is i) }
    ensures repr { (store : RunStore) (answers : Answers) (i : ℤ) → DoesAlone store (effect store answers (repr_of (int i))) (numbers.str_is i) }
    ensures int { (store : RunStore) (answers : Answers) (i : ℤ) → is_int i ≡ true
        → DoesAlone store (effect store answers (int_plan (text (int_text i) ∷ []))) (numbers.int_is i) }
{}

/// The law of files: where an object is a file, each operation does what the table says of its bytes and its offset.
pub fn files_do_as_the_table()
    ensures read { (store : RunStore) (answers : Answers) (o : ℕ) (file : FileValue) → IsFile store o file
        → DoesToFile file.path store o (effect store answers (read_plan (object o ∷ []))) (files.read_is file) }
    ensures readline { (store : RunStore) (answers : Answers) (o : ℕ) (file : FileValue) → IsFile store o file
        → DoesToFile file.path store o (effect store answers (readline_plan (object o ∷ []))) (files.readline_is file) }
    ensures write { (store : RunStore) (answers : Answers) (o : ℕ) (file : FileValue) (more : List ℕ) → IsFile store o file
        → DoesToFile file.path store o (effect store answers (write_plan (object o ∷ (text more ∷ [])))) (files.write_is file more) }
    ensures close { (store : RunStore) (answers : Answers) (o : ℕ) (file : FileValue) → IsFile store o file
        → DoesToFile file.path store o (effect store answers (close_plan (object o ∷ []))) (files.close_is file) }
    ensures iter { (store : RunStore) (answers : Answers) (o : ℕ) (file : FileValue) → IsFile store o file
        → DoesToFile file.path store o (effect store answers (iter (object o ∷ []))) (files.iter_is file) }
    ensures next { (store : RunStore) (answers : Answers) (o : ℕ) (file : FileValue) (turn : ℕ) (begun : Contents) → IsFile store o file
        → DoesToFile file.path store o (effect store answers (next next_line (object o ∷ (int (pos turn) ∷ (begun ∷ []))))) (files.next_is file) }
{
    tests_are_equality();
}

/// The law of members: whether a value stands in a list or a tuple, and where, is what the table says of the first item that is equal to it. Numbers and texts
/// are equal where they are the same, and an object is equal to itself. `members_are_sought` says it of containers too.
pub fn members_are_found()
    ensures contains { (store : RunStore) (answers : Answers) (o : ℕ) (items : List Contents) (v : Contents) (place : Option ℕ) → IsList store o items
        → StandsAt store answers v items place → Does IsList store o (effect store answers (in_plan (v ∷ (object o ∷ [])))) (members.in_is items place) }
    ensures lacks { (store : RunStore) (answers : Answers) (o : ℕ) (items : List Contents) (v : Contents) (place : Option ℕ) → IsList store o items
        → StandsAt store answers v items place
        → Does IsList store o (effect store answers (not_in_plan (v ∷ (object o ∷ [])))) (members.not_in_is items place) }
    ensures tuple_contains { (store : RunStore) (answers : Answers) (v : Contents) (parts : Parts) (place : Option ℕ)
        → StandsAt store answers v (items_of parts) place
        → DoesAlone store (effect store answers (in_plan (v ∷ (tuple parts ∷ [])))) (members.in_is tt place) }
    ensures tuple_lacks { (store : RunStore) (answers : Answers) (v : Contents) (parts : Parts) (place : Option ℕ)
        → StandsAt store answers v (items_of parts) place
        → DoesAlone store (effect store answers (not_in_plan (v ∷ (tuple parts ∷ [])))) (members.not_in_is tt place) }
    ensures index { (store : RunStore) (answers : Answers) (o : ℕ) (items : List Contents) (v : Contents) (place : Option ℕ) → IsList store o items
        → StandsAt store answers v items place
        → Does IsList store o (effect store answers (index_method (object o ∷ (v ∷ [])))) (members.index_is items place) }
    ensures same_number { (store : RunStore) (answers : Answers) (v w : Contents) (i : ℤ) → number_in v ≡ Some i → number_in w ≡ Some i
        → IsEqual store answers v w true }
    ensures other_number { (store : RunStore) (answers : Answers) (v w : Contents) (i j : ℤ) → number_in v ≡ Some i → number_in w ≡ Some j → (i ≡ j → ⊥)
        → IsEqual store answers v w false }
    ensures texts { (store : RunStore) (answers : Answers) (one other : List ℕ) → IsEqual store answers (text one) (text other) (bytes_eq one other) }
    ensures itself { (store : RunStore) (answers : Answers) (o : ℕ) → IsEqual store answers (object o) (object o) true }
{}

/// The law of new dictionaries: a display of usable keys makes the dictionary of its pairs, whose keys are apart, and `dict()` an empty one.
pub fn dicts_are_made()
    ensures display { (store : RunStore) (answers : Answers) (items : List Contents) → HasNoNext store → HasUsableKeys items
        → MakesDict store (effect store answers (dict_display items)) (display_pairs items []) }
    ensures empty { (store : RunStore) (answers : Answers) → HasNoNext store → MakesDict store (effect store answers (dict_builtin [])) [] }
{
    tests_are_equality();
}

/// The law of opened files: where what stands at the path is known, `open` makes a file with it, or with nothing for writing, that is not closed. Each other
/// case raises.
pub fn files_are_opened()
    ensures write { (store : RunStore) (answers : Answers) (path : List ℕ) → is_path path ≡ true
        → MakesFile store (effect store answers (open_plan (text path ∷ (text (codes "w") ∷ [])))) (files.emptied path) }
    ensures append { (store : RunStore) (answers : Answers) (path : List ℕ) → is_path path ≡ true → IsKnown store answers path
        → MakesFile store (effect store answers (open_plan (text path ∷ (text (codes "a") ∷ [])))) (files.opened_to_append path (file_of store path)) }
    ensures read { (store : RunStore) (answers : Answers) (path bytes : List ℕ) → is_path path ≡ true → IsKnown store answers path → file_of store path ≡ Some bytes
        → MakesFile store (effect store answers (open_plan (text path ∷ (text (codes "r") ∷ [])))) (files.opened_to_read path bytes) }
    ensures no_mode { (store : RunStore) (answers : Answers) (path : List ℕ)
        → effect store answers (open_plan (text path ∷ [])) ≡ effect store answers (open_plan (text path ∷ (text (codes "r") ∷ []))) }
    ensures absent { (store : RunStore) (answers : Answers) (path : List ℕ) → is_path path ≡ true → IsKnown store answers path → file_of store path ≡ None
        → DoesAlone store (effect store answers (open_plan (text path ∷ (text (codes "r") ∷ [])))) files.no_file_is }
    ensures read_unreadable { (store : RunStore) (answers : Answers) (path : List ℕ) → is_path path ≡ true → IsUnreadable store answers path
        → DoesAlone store (effect store answers (open_plan (text path ∷ (text (codes "r") ∷ [])))) files.unreadable_is }
    ensures append_unreadable { (store : RunStore) (answers : Answers) (path : List ℕ) → is_path path ≡ true → IsUnreadable store answers path
        → DoesAlone store (effect store answers (open_plan (text path ∷ (text (codes "a") ∷ [])))) files.unreadable_is }
    ensures bad_path { (store : RunStore) (answers : Answers) (path mode : List ℕ) → is_path path ≡ false → files.is_mode mode ≡ true
        → DoesAlone store (effect store answers (open_plan (text path ∷ (text mode ∷ [])))) files.bad_path_is }
    ensures bad_mode { (store : RunStore) (answers : Answers) (path mode : List ℕ) → files.is_mode mode ≡ false
        → DoesAlone store (effect store answers (open_plan (text path ∷ (text mode ∷ [])))) files.bad_mode_is }
{
    tests_are_equality();
}

/// The law of pairs: a run begins with objects that each have the pairs of their order and no others. Each operation keeps that, where the next object has no
/// entries. So each dictionary is one.
pub fn operations_keep_pairs()
    ensures begins { (path : List ℕ) (arguments : List (List ℕ)) (files : List (List ℕ × List ℕ)) → HasAllPairs (opening path arguments files) }
    ensures keeps { (store : RunStore) (answers : Answers) (op : Op) (values : List Contents) → HasAllPairs store → HasNoNext store
        → HasAllPairs (after (effect store answers (plan op values)) store) }
    ensures dicts { (store : RunStore) → HasAllPairs store → HasDicts store }
{
    tests_are_equality();
    operations_are_orderly();
    map_changes_by_accesses();
}

/// The law of printing: `repr`, `str` and `print` use the printed form that the table tells of a value as it is read in the store. Of instances, and what holds
/// one, the table tells none.
pub fn values_are_printed_as_the_table()
    ensures repr { (store : RunStore) (answers : Answers) (v : Contents) (bytes : List ℕ) → HasDicts store → repr_form store v ≡ told bytes
        → DoesAlone store (effect store answers (repr_of v)) (gives (text bytes)) }
    ensures repr_deep { (store : RunStore) (answers : Answers) (v : Contents) → HasDicts store → repr_form store v ≡ lies_deep
        → DoesAlone store (effect store answers (repr_of v)) deep_is }
    ensures str { (store : RunStore) (answers : Answers) (v : Contents) (bytes : List ℕ) → HasDicts store → str_form store v ≡ told bytes
        → DoesAlone store (effect store answers (str_of v)) (gives (text bytes)) }
    ensures str_deep { (store : RunStore) (answers : Answers) (v : Contents) → HasDicts store → str_form store v ≡ lies_deep
        → DoesAlone store (effect store answers (str_of v)) deep_is }
    ensures print { (store : RunStore) (answers : Answers) (values : List Contents) (lines : List (List ℕ)) → HasDicts store → forms_of (str_form store) values ≡ told lines
        → PrintsLine store (effect store answers (print_values values)) (line_of lines) }
    ensures print_deep { (store : RunStore) (answers : Answers) (values : List Contents) → HasDicts store → forms_of (str_form store) values ≡ lies_deep
        → DoesAlone store (effect store answers (print_values values)) deep_is }
{
    tests_are_equality();
}
