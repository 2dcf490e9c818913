// The laws of dataflows, of sources and of effects, as functions without a body that say them.
ghost use Rattle.std.specs.Prelude.{◌≡◌, ℕ, List};
ghost use Rattle.prov_base.specs.declared.place.Pos.{Pos as OnePlace};
ghost use Rattle.trial_loading.specs.OneTrial.{AreSame};
ghost use Rattle.trial_loading.specs.declared.trial.Trial.{Trial as OneTrial};
ghost use Rattle.dep_query.specs.Dataflows.{IsDataflow};
ghost use Rattle.dep_query.specs.SiteTexts.{IsFedText, LacksSite};
ghost use Rattle.feedings.specs.declared.site.Way.{Way as OneWay};

/// The law that a trial has one dataflow.
pub fn one_dataflow_of_a_trial()
    ensures { (trial other : OneTrial) (text more : List ℕ) → AreSame trial other → IsDataflow trial text → IsDataflow other more → text ≡ more }
{}

/// The law that an evaluation of a trial has one text of sources and one of effects, or is not there, and never both.
pub fn one_feeding_of_a_trial()
    ensures text { (trial other : OneTrial) (way : OneWay) (at : OnePlace) (k : ℕ) (text more : List ℕ) → AreSame trial other → IsFedText way at k trial text → IsFedText way at k other more → text ≡ more }
    ensures never_both { (trial other : OneTrial) (way : OneWay) (at : OnePlace) (k : ℕ) (text : List ℕ) → AreSame trial other → IsFedText way at k trial text → LacksSite at k other → ⊥ }
{}
