// What the tests of the clauses mean, as functions without a body that say it.
ghost use Rattle.std.specs.Prelude.{◌≡◌, ◌↔◌, ℕ, true, List};
ghost use Rattle.slice_edges.specs.Asks.{some_asks, some_ask_by};
ghost use Rattle.slice_law.specs.Closed.{IsIn, has};
ghost use Rattle.slice_law.specs.Edges.{Edge, Reason, edge};

/// The law that the tests of numbers and of edges find exactly what is there.
pub fn known_pairs_are_edges()
    ensures numbers { (numbers : List ℕ) (s : ℕ) → (has s numbers ≡ true) ↔ IsIn numbers s }
    ensures edges { (edges : List Edge) (s r : ℕ) → (some_asks edges s r ≡ true) ↔ ((e : Edge) × (IsIn edges e × ((e.asker ≡ s) × (e.asked ≡ r)))) }
    ensures reasons { (edges : List Edge) (reason : Reason) (s r : ℕ) → (some_ask_by edges reason s r ≡ true) ↔ IsIn edges (edge reason s r) }
{}
