// That comparisons are equality.
ghost use Rattle.std.specs.Prelude.{◌≡◌, true, ◌↔◌, List, ℕ};
ghost use Rattle.prov_base.specs.contracts.text.BytesPartialEq.TheImpl.{ghosts as bytes};
ghost use Rattle.prov_base.specs.contracts.text.NamePartialEq.TheImpl.{ghosts as names};

/// The law that `==` of bytes and of names is equality.
pub fn equal_texts_are_the_same()
    ensures bytes { (b c : List ℕ) → (bytes.eq b c ≡ true) ↔ (b ≡ c) }
    ensures names { (n m : List ℕ) → (names.eq n m ≡ true) ↔ (n ≡ m) }
{}
