// Moments, with texts and tuples named anew.
ghost use Rattle.std.specs.Prelude.{◌≡◌, IfOk, OnOk};
ghost use Rattle.std.specs.Option.{option_map};
ghost use Rattle.py_value.specs.Named.{IsNamedKind};
ghost use Rattle.py_value.specs.Seen.{kind_seen};
ghost use Rattle.py_value.specs.Values.{AreInterned};
ghost use Rattle.py_model.specs.Told.{IsNamedAnswer, IsTellable, answer_seen, moment_seen};
ghost use Rattle.row_words.specs.Fits.{IsMade};
ghost use Rattle.trace_rows.specs.PartBytes.{IsAnswer};
ghost use Rattle.trace_rows.specs.RowBytes.{IsRow};
ghost use Rattle.recorder.specs.Walking.{IsReady};
ghost use Rattle.recorder.specs.Parts.{NumbersMade, NumbersAnswer, IsRowOf};

use crate::fitting::place_fits;
use crate::namer::Namer;
use crate::naming_accesses::name_accesses;
use crate::naming_values::{name_text, name_value, name_values};
use crate::walked::Walked;
use prov_base::Memory;
use py_model::{Answer, Args, Moment};
use py_value::{Accesses, Kind, Values};
use std::alloc::Global;
use trace_rows::Row;

// The kind of the object that was made, where one was.
fn name_made(
    alloc: Global,
    namer: &mut Namer,
    walked: &mut Walked,
    values: &Values,
    made: Option<Kind>,
) -> Result<Option<Kind>, Memory>
    requires own { IsReady values.now namer.old.view walked.old }
    requires named { IsNamedKind values.now made }
    ensures numbers { IfOk result (NumbersMade (option_map (kind_seen values.now) made) namer.old namer.new) }
    ensures ready { OnOk result (IsReady values.now namer.new.view walked.new) }
    ensures fits { IfOk result IsMade }
{
    match made {
        Some(Kind::Instance(class)) => {
            let class = name_value(alloc, namer, walked, values, class)?;
            Ok(Some(Kind::Instance(class)))
        }
        Some(Kind::File(path, mode)) => {
            let path = name_text(alloc, namer, walked, values, path)?;
            Ok(Some(Kind::File(path, mode)))
        }
        Some(Kind::List) => Ok(Some(Kind::List)),
        Some(Kind::Dict) => Ok(Some(Kind::Dict)),
        None => Ok(None),
    }
}

fn name_answer(
    alloc: Global,
    namer: &mut Namer,
    walked: &mut Walked,
    values: &Values,
    answer: Answer,
) -> Result<Answer, Memory>
    requires own { IsReady values.now namer.old.view walked.old }
    requires named { IsNamedAnswer values.now answer }
    ensures numbers { IfOk result (NumbersAnswer (answer_seen values.now answer) namer.old namer.new) }
    ensures ready { OnOk result (IsReady values.now namer.new.view walked.new) }
    ensures fits { IfOk result IsAnswer }
{
    match answer {
        Answer::Value(v) => Ok(Answer::Value(name_value(alloc, namer, walked, values, v)?)),
        Answer::Raised(object) => Ok(Answer::Raised(object)),
        Answer::End => Ok(Answer::End),
    }
}

// The row of a moment, of which these tuples were walked.
fn name_row(
    alloc: Global,
    namer: &mut Namer,
    walked: &mut Walked,
    values: &Values,
    moment: &Moment,
) -> Result<Row, Memory>
    requires own { IsReady values.now namer.old.view walked.old }
    requires tellable { IsTellable values.now moment.now }
    ensures row { IfOk result (IsRowOf (moment_seen values.now moment.now) namer.old namer.new) }
    ensures fits { IfOk result IsRow }
{
    match moment {
        Moment::Begin(statement) => Ok(Row::Begin(*statement)),
        Moment::Do(at, op, operands, answer, made, accesses, weight) => {
            place_fits(*at);
            let operands = name_values(alloc, namer, walked, values, operands.as_slice())?;
            let answer = name_answer(alloc, namer, walked, values, *answer)?;
            let made = name_made(alloc, namer, walked, values, *made)?;
            let accesses = name_accesses(alloc, namer, walked, values, accesses.as_slice())?;
            let operands = Args::of(operands);
            let accesses = Accesses::of(accesses);
            Ok(Row::Do(*at, *op, operands, answer, made, accesses, *weight))
        }
        Moment::Enter(call, def, parameters, accesses) => {
            place_fits(*call);
            place_fits(*def);
            let parameters = name_values(alloc, namer, walked, values, parameters.as_slice())?;
            let accesses = name_accesses(alloc, namer, walked, values, accesses.as_slice())?;
            let parameters = Args::of(parameters);
            let accesses = Accesses::of(accesses);
            Ok(Row::Enter(*call, *def, parameters, accesses))
        }
        Moment::Leave(v) => Ok(Row::Leave(name_value(alloc, namer, walked, values, *v)?)),
        Moment::End(_, how) => Ok(Row::End(*how)),
    }
}

/// The row of a moment. What it names and has no number yet gets one, and a row. A tuple of the run is walked once, at however many places
/// of the moment it stands.
pub fn name_moment(
    alloc: Global,
    namer: &mut Namer,
    values: &Values,
    moment: &Moment,
) -> Result<Row, Memory>
    requires own { AreInterned namer.old.view }
    requires tellable { IsTellable values.now moment.now }
    ensures row { IfOk result (IsRowOf (moment_seen values.now moment.now) namer.old namer.new) }
    ensures fits { IfOk result IsRow }
{
    let mut walked = Walked::new(alloc);
    name_row(alloc, namer, &mut walked, values, moment)
}
