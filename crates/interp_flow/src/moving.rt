// How frames go on where no moment is performed.
ghost use Rattle.std.specs.Prelude.{◌≡◌, map, OnOk};
ghost use Rattle.std.specs.Prelude.{None as Nothing};
ghost use Rattle.py_tree.specs.Erasure.{form_of, stmt_of};
ghost use Rattle.py_tree.specs.Tree.{ScriptTree, more_suite};
ghost use Rattle.py_value.specs.Values.{ValuesView, Keeps};
ghost use Rattle.py_model.specs.Act.{Act, begin, ret, to};
ghost use Rattle.py_model.specs.Expressions.{Task};
ghost use Rattle.py_model.specs.Statements.{task};
ghost use Rattle.flow_frames.specs.Held.{IsHeldEnd, IsHeldFlow, IsHeldStage};
ghost use Rattle.flow_frames.specs.Machine.{flow, in_suite, remaining, resumes, suite_ended};
ghost use Rattle.flow_frames.specs.Seen.{end_seen, flow_seen, frame_seen, here_seen, stage_seen, stmts_seen};
ghost use Rattle.flow_frames.specs.declared.control.Now.TheVariants.{Opens};
ghost use Rattle.flow_values.specs.Step.{doing_now, meant};

use flow_frames::{End, FlowFrames, Now, Part, Spot, Waits};
use flow_openings::opened;
use flow_suites::{Way, part_ended, part_opened};
use prov_base::Memory;
use py_tree::Stmt;
use py_value::Values;
use std::alloc::Global;

/// A statement is opened, and the rest of its suite waits for its end. What is still to be done then follows its begin.
pub(crate) fn open_stmt<'a>(
    alloc: Global,
    frames: &mut FlowFrames<'a>,
    stmt: &'a Stmt,
    rest: &'a [Stmt],
) -> Result<(), Memory>
    ensures means { OnOk result ((script : ScriptTree) (next : Task → Act) (table : ValuesView)
        → remaining script next (flow (here_seen script table frames.old.spot) (in_suite (more_suite (stmt_of stmt.entry.now) (stmts_seen rest.entry.now))) (map (frame_seen script table) frames.old.below.items))
        ≡ begin stmt.entry.now.no (remaining script next (flow_seen script table frames.new))) }
    ensures held { OnOk result ((table : ValuesView) → IsHeldFlow table frames.old → IsHeldFlow table frames.new) }
{
    let spot = Spot {
        line: stmt.pos.line,
        ..frames.spot
    };
    let now = opened(alloc, stmt, spot)?;
    frames.push(Waits::Stmt(stmt.no, rest), spot, now)
}

/// A part of a statement is opened. The texts and tuples are those of the values that it holds.
pub(crate) fn open_part<'a>(
    alloc: Global,
    frames: &mut FlowFrames<'a>,
    part: Part<'a>,
    values: &Values,
) -> Result<(), Memory>
    requires { IsHeldStage values.now part.stage }
    ensures means { OnOk result ((script : ScriptTree) (next : Task → Act) (table : ValuesView) → Keeps values.now.texts table.texts → Keeps values.now.tuples table.tuples
        → doing_now script frames.old (Opens part.entry) table next ≡ meant script frames.new table next) }
    ensures held { OnOk result ((table : ValuesView) → Keeps values.now.texts table.texts → Keeps values.now.tuples table.tuples → IsHeldFlow table frames.old → IsHeldStage table part.entry.stage → IsHeldFlow table frames.new) }
{
    let opened = part_opened(alloc, part, frames.spot, values)?;
    match opened.way {
        Way::Becomes => {
            frames.now = opened.now;
            Ok(())
        }
        Way::Runs(inner) => frames.push(Waits::Part(None, part), inner, opened.now),
    }
}

/// The suite that a part waited for has ended: the frames stand where the part stands, and go on with what follows it.
pub(crate) fn end_part<'a>(
    alloc: Global,
    frames: &mut FlowFrames<'a>,
    part: Part<'a>,
    end: End,
) -> Result<(), Memory>
    ensures means { OnOk result ((script : ScriptTree) (next : Task → Act) (table : ValuesView)
        → to (suite_ended script next (task script next) (here_seen script table frames.old.spot) part.entry.stmt.now.pos (form_of part.entry.stmt.now.form.value) (stage_seen table part.entry.stage) (end_seen table end))
        (resumes script next (map (frame_seen script table) frames.old.below.items) (λ how. ret how)) ≡ meant script frames.new table next) }
    ensures held { OnOk result ((table : ValuesView) → IsHeldFlow table frames.old → IsHeldStage table part.entry.stage → IsHeldEnd table end → IsHeldFlow table frames.new) }
{
    let now = part_ended(alloc, part, end)?;
    frames.now = now;
    Ok(())
}
