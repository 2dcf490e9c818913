// Laws of values without numbers for texts and tuples, each a function without a body that says it.
ghost use Rattle.std.specs.Prelude.{◌≡◌, ◌↔◌, true, ℕ};
ghost use Rattle.py_value.specs.Contents.{Contents, contents};
ghost use Rattle.py_value.specs.KeyOf.{fault_within, key_fault, normal, IsNormalOf};
ghost use Rattle.py_value.specs.Same.{same_value, same_location};
ghost use Rattle.py_value.specs.Seen.{SeenLocation};
ghost use Rattle.py_value.specs.Values.{ValuesView, AreInterned, IsNamed};
ghost use Rattle.py_value.specs.declared.value.Value.{Value as OneValue};

/// The law that the tests of contents and of locations are true exactly where both are equal.
pub fn tests_are_equality()
    ensures values { (v w : Contents) → (same_value v w ≡ true) ↔ (v ≡ w) }
    ensures locations { (l m : SeenLocation) → (same_location l m ≡ true) ↔ (l ≡ m) }
{}

/// The law that what is refused of a value as a key is what is refused of its contents, whatever the limit of depth.
pub fn key_faults_of_contents()
    ensures { (view : ValuesView) (levels : ℕ) (v : OneValue) → AreInterned view → IsNamed view v
        → fault_within levels view v ≡ key_fault levels (contents view v) }
{}

/// The law that two values have one key exactly where their normal contents are equal.
pub fn same_key_same_normal_contents()
    ensures { (view : ValuesView) (v w k l : OneValue) → AreInterned view → IsNormalOf view view v k → IsNormalOf view view w l
        → (k ≡ l) ↔ (normal (contents view v) ≡ normal (contents view w)) }
{}
