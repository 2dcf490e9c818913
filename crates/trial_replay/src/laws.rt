// The law of replays, as a function without a body that says it.
ghost use Rattle.std.specs.Prelude.{◌≡◌, ℕ};
ghost use Rattle.prov_base.specs.declared.place.Pos.{Pos as OnePlace};
ghost use Rattle.trial_loading.specs.OneTrial.{AreSame};
ghost use Rattle.trial_loading.specs.declared.trial.Trial.{Trial as OneTrial};
ghost use Rattle.trial_replay.specs.Replays.{IsReplayAt};
ghost use Rattle.trial_replay.specs.declared.replaying.Replayed.{Replayed as OneReplay};
ghost use Rattle.trial_value.specs.Values.{LacksEvaluation};

use replays::one_replay;

/// The law that the run of the slice of an evaluation tells one thing of it, or the trial has no such evaluation, and never both.
pub fn one_replay_of_a_trial()
    ensures replay { (trial other : OneTrial) (at : OnePlace) (k : ℕ) (told more : OneReplay) → AreSame trial other → IsReplayAt at k trial told → IsReplayAt at k other more → told ≡ more }
    ensures never_both { (trial other : OneTrial) (at : OnePlace) (k : ℕ) (told : OneReplay) → AreSame trial other → IsReplayAt at k trial told → LacksEvaluation at k other → ⊥ }
{
    one_replay();
}
