// What is read of the store of trials.
ghost use Rattle.std.specs.Prelude.{◌≡◌, false};
ghost use Rattle.now_words.specs.declared.command.Query.TheVariants.{List as list_query, History, Show, Dataflow, Slice, Value, Replay, Sources, Effects};
ghost use Rattle.now_top.specs.Asking.{AnswersQuery, IsPlanOfDamage, IsPlanOfFault, IsPlanOfQuestion, IsPlanOfTrial};
ghost use Rattle.now_top.specs.Kept.{stored};
ghost use Rattle.now_top.specs.Planned.{plan_of, plan_of_text};
ghost use Rattle.now_top.specs.Reply.{replaying, telling};

use crate::planned::{Planned, ending_without};
use delivery::Ending;
use dep_query::{dataflow_text, feeding_text};
use feedings::Way;
use keeper::Keeper;
use now_words::{Evaluation, Query};
use prov_base::Bytes;
use std::alloc::Global;
use trial_history::history;
use trial_keeping::TrialFault;
use trial_list::list_text;
use trial_replay::{Replayed, replayed_text};
use trial_show::{detail_text, show_text};
use trial_slice::{EvaluationFault, slice_text};
use trial_tables::Damage;
use trial_value::recorded_value_text;

/// What a text that was read of the store comes to.
fn planned_text<'w>(text: Result<Bytes, TrialFault>) -> Planned<'w>
    ensures { plan_of result ≡ plan_of_text text }
{
    match text {
        Ok(text) => Planned::Text(text),
        Err(fault) => Planned::Closes(ending_without(fault)),
    }
}

/// What a trial comes to of which this is amiss first.
fn planned_damage<'w>(alloc: Global, number: u32, damage: Damage) -> Planned<'w>
    ensures { IsPlanOfDamage number damage (plan_of result) }
{
    match detail_text(alloc, damage) {
        Ok(words) => Planned::DamagedTrial(number, words),
        Err(_) => Planned::Closes(Ending::OutOfMemory),
    }
}

/// What the text of a trial comes to, or why there is none.
pub(crate) fn planned_trial<'w>(alloc: Global, text: Result<Bytes, TrialFault>) -> Planned<'w>
    ensures { IsPlanOfTrial text (plan_of result) }
{
    match text {
        Ok(text) => Planned::Text(text),
        Err(TrialFault::NoTrial(_)) => Planned::Closes(Ending::NothingThere),
        Err(TrialFault::Damaged(number, damage)) => planned_damage(alloc, number, damage),
        Err(TrialFault::Memory) => Planned::Closes(Ending::OutOfMemory),
        Err(TrialFault::Keeper) => Planned::Closes(Ending::StoreFailed),
        Err(TrialFault::Collision { .. }) => Planned::Closes(Ending::StoreFailed),
        Err(TrialFault::Full) => Planned::Closes(Ending::StoreFailed),
    }
}

/// What a question about an evaluation comes to that has no answer.
fn planned_fault<'w>(alloc: Global, fault: EvaluationFault) -> Planned<'w>
    ensures { IsPlanOfFault fault (plan_of result) }
{
    match fault {
        EvaluationFault::NoEvaluation => Planned::Closes(Ending::NothingThere),
        EvaluationFault::Trial(fault) => planned_trial(alloc, Err(fault)),
    }
}

/// What the answer to a question about an evaluation comes to, or why there is none.
fn planned_question<'w>(alloc: Global, text: Result<Bytes, EvaluationFault>) -> Planned<'w>
    ensures { IsPlanOfQuestion telling text (plan_of result) }
{
    match text {
        Ok(text) => Planned::Text(text),
        Err(fault) => planned_fault(alloc, fault),
    }
}

/// What a replay comes to, or why there is none.
fn planned_replay<'w>(alloc: Global, told: Result<Replayed, EvaluationFault>) -> Planned<'w>
    ensures { IsPlanOfQuestion replaying told (plan_of result) }
{
    match told {
        Ok(Replayed::Lines(text)) => Planned::Text(text),
        Ok(Replayed::NotReached) => Planned::Closes(Ending::NotReached),
        Err(fault) => planned_fault(alloc, fault),
    }
}

/// What `list` comes to.
fn answer_list<'w, K: Keeper>(alloc: Global, keeper: &mut K) -> Planned<'w>
    requires batch { K.is_open keeper.old ≡ false }
    ensures answers { AnswersQuery list_query (stored K.told K.faults keeper.old) (stored K.told K.faults keeper.new)
        (K.may_leave keeper.old) (K.may_leave keeper.new) (plan_of result) }
    ensures batch { K.is_open keeper.new ≡ false }
{
    planned_text(list_text(alloc, keeper))
}

/// What `history` comes to.
fn answer_history<'w, K: Keeper>(alloc: Global, keeper: &mut K) -> Planned<'w>
    requires batch { K.is_open keeper.old ≡ false }
    ensures answers { AnswersQuery History (stored K.told K.faults keeper.old) (stored K.told K.faults keeper.new)
        (K.may_leave keeper.old) (K.may_leave keeper.new) (plan_of result) }
    ensures batch { K.is_open keeper.new ≡ false }
{
    planned_text(history(alloc, keeper))
}

/// What `show` comes to, of the trial with a number.
fn answer_show<'w, K: Keeper>(alloc: Global, keeper: &mut K, number: u32) -> Planned<'w>
    requires batch { K.is_open keeper.old ≡ false }
    ensures answers { AnswersQuery (Show number) (stored K.told K.faults keeper.old) (stored K.told K.faults keeper.new)
        (K.may_leave keeper.old) (K.may_leave keeper.new) (plan_of result) }
    ensures batch { K.is_open keeper.new ≡ false }
{
    planned_trial(alloc, show_text(alloc, keeper, number))
}

/// What `dataflow` comes to, of the trial with a number.
fn answer_dataflow<'w, K: Keeper>(alloc: Global, keeper: &mut K, number: u32) -> Planned<'w>
    requires batch { K.is_open keeper.old ≡ false }
    ensures answers { AnswersQuery (Dataflow number) (stored K.told K.faults keeper.old) (stored K.told K.faults keeper.new)
        (K.may_leave keeper.old) (K.may_leave keeper.new) (plan_of result) }
    ensures batch { K.is_open keeper.new ≡ false }
{
    planned_question(alloc, dataflow_text(alloc, keeper, number))
}

/// What `slice` comes to, of an evaluation.
fn answer_slice<'w, K: Keeper>(alloc: Global, keeper: &mut K, of: Evaluation) -> Planned<'w>
    requires batch { K.is_open keeper.old ≡ false }
    ensures answers { AnswersQuery (Slice of) (stored K.told K.faults keeper.old) (stored K.told K.faults keeper.new)
        (K.may_leave keeper.old) (K.may_leave keeper.new) (plan_of result) }
    ensures batch { K.is_open keeper.new ≡ false }
{
    planned_question(alloc, slice_text(alloc, keeper, of.trial, of.at, of.k))
}

/// What `value` comes to, of an evaluation.
fn answer_value<'w, K: Keeper>(alloc: Global, keeper: &mut K, of: Evaluation) -> Planned<'w>
    requires batch { K.is_open keeper.old ≡ false }
    ensures answers { AnswersQuery (Value of) (stored K.told K.faults keeper.old) (stored K.told K.faults keeper.new)
        (K.may_leave keeper.old) (K.may_leave keeper.new) (plan_of result) }
    ensures batch { K.is_open keeper.new ≡ false }
{
    planned_question(
        alloc,
        recorded_value_text(alloc, keeper, of.trial, of.at, of.k),
    )
}

/// What `replay` comes to, of an evaluation.
fn answer_replay<'w, K: Keeper>(alloc: Global, keeper: &mut K, of: Evaluation) -> Planned<'w>
    requires batch { K.is_open keeper.old ≡ false }
    ensures answers { AnswersQuery (Replay of) (stored K.told K.faults keeper.old) (stored K.told K.faults keeper.new)
        (K.may_leave keeper.old) (K.may_leave keeper.new) (plan_of result) }
    ensures batch { K.is_open keeper.new ≡ false }
{
    planned_replay(alloc, replayed_text(alloc, keeper, of.trial, of.at, of.k))
}

/// What `sources` comes to, of an evaluation.
fn answer_sources<'w, K: Keeper>(alloc: Global, keeper: &mut K, of: Evaluation) -> Planned<'w>
    requires batch { K.is_open keeper.old ≡ false }
    ensures answers { AnswersQuery (Sources of) (stored K.told K.faults keeper.old) (stored K.told K.faults keeper.new)
        (K.may_leave keeper.old) (K.may_leave keeper.new) (plan_of result) }
    ensures batch { K.is_open keeper.new ≡ false }
{
    planned_question(
        alloc,
        feeding_text(alloc, keeper, Way::Sources, of.trial, of.at, of.k),
    )
}

/// What `effects` comes to, of an evaluation.
fn answer_effects<'w, K: Keeper>(alloc: Global, keeper: &mut K, of: Evaluation) -> Planned<'w>
    requires batch { K.is_open keeper.old ≡ false }
    ensures answers { AnswersQuery (Effects of) (stored K.told K.faults keeper.old) (stored K.told K.faults keeper.new)
        (K.may_leave keeper.old) (K.may_leave keeper.new) (plan_of result) }
    ensures batch { K.is_open keeper.new ≡ false }
{
    planned_question(
        alloc,
        feeding_text(alloc, keeper, Way::Effects, of.trial, of.at, of.k),
    )
}

/// What a question to the store comes to. Nothing is changed there.
pub fn answer_query<'w, K: Keeper>(alloc: Global, keeper: &mut K, query: Query) -> Planned<'w>
    requires batch { K.is_open keeper.old ≡ false }
    ensures answers { AnswersQuery query (stored K.told K.faults keeper.old) (stored K.told K.faults keeper.new)
        (K.may_leave keeper.old) (K.may_leave keeper.new) (plan_of result) }
    ensures batch { K.is_open keeper.new ≡ false }
{
    match query {
        Query::List => answer_list(alloc, keeper),
        Query::History => answer_history(alloc, keeper),
        Query::Show(number) => answer_show(alloc, keeper, number),
        Query::Dataflow(number) => answer_dataflow(alloc, keeper, number),
        Query::Slice(of) => answer_slice(alloc, keeper, of),
        Query::Value(of) => answer_value(alloc, keeper, of),
        Query::Replay(of) => answer_replay(alloc, keeper, of),
        Query::Sources(of) => answer_sources(alloc, keeper, of),
        Query::Effects(of) => answer_effects(alloc, keeper, of),
    }
}
