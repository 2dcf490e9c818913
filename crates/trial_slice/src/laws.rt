// The law of slices, as a function without a body that says it.
ghost use Rattle.std.specs.Prelude.{◌≡◌, ℕ, Bool, List, None};
ghost use Rattle.prov_base.specs.declared.place.Pos.{Pos as OnePlace};
ghost use Rattle.py_model.specs.Occurrences.{up_to_evaluation};
ghost use Rattle.row_moments.specs.Moments.{moments_in};
ghost use Rattle.trial_loading.specs.OneTrial.{AreSame};
ghost use Rattle.trial_loading.specs.declared.trial.Trial.{Trial as OneTrial};
ghost use Rattle.trial_slice.specs.Sliced.{IsSliceOf};

/// The law that an evaluation of a trial has one slice, or is not there, and never both.
pub fn one_slice_of_a_trial()
    ensures slice { (trial other : OneTrial) (at : OnePlace) (k : ℕ) (one two : ℕ → Bool) (text more : List ℕ) → AreSame trial other → IsSliceOf trial at k one text → IsSliceOf other at k two more → text ≡ more }
    ensures never_both { (trial other : OneTrial) (at : OnePlace) (k : ℕ) (keep : ℕ → Bool) (text : List ℕ) → AreSame trial other → IsSliceOf trial at k keep text → up_to_evaluation at k (moments_in other.rows) ≡ None → ⊥ }
{}
