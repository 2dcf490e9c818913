// The law of values, as a function without a body that says it.
ghost use Rattle.std.specs.Prelude.{◌≡◌, ℕ, List};
ghost use Rattle.prov_base.specs.declared.place.Pos.{Pos as OnePlace};
ghost use Rattle.trial_loading.specs.OneTrial.{AreSame};
ghost use Rattle.trial_loading.specs.declared.trial.Trial.{Trial as OneTrial};
ghost use Rattle.trial_value.specs.Values.{IsValueAt, LacksEvaluation};

/// The law that an evaluation of a trial has one value, or is not there, and never both.
pub fn one_value_of_a_trial()
    ensures value { (trial other : OneTrial) (at : OnePlace) (k : ℕ) (text more : List ℕ) → AreSame trial other → IsValueAt at k trial text → IsValueAt at k other more → text ≡ more }
    ensures never_both { (trial other : OneTrial) (at : OnePlace) (k : ℕ) (text : List ℕ) → AreSame trial other → IsValueAt at k trial text → LacksEvaluation at k other → ⊥ }
{}
