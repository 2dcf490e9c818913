// How frames go on from one statement to another.
ghost use Rattle.std.specs.Prelude.{◌≡◌};
ghost use Rattle.py_tree.specs.Tree.{ScriptTree};
ghost use Rattle.py_value.specs.Values.{ValuesView};
ghost use Rattle.py_model.specs.Act.{Act};
ghost use Rattle.py_model.specs.Expressions.{Here, Task};
ghost use Rattle.py_model.specs.Statements.{suite, then_so};
ghost use Rattle.interp_eval.specs.declared.frames.Scope.{Scope as OneScope};
ghost use Rattle.flow_frames.specs.Held.{IsHeldEnd, IsHeldNow};
ghost use Rattle.flow_frames.specs.Machine.{now_act};
ghost use Rattle.flow_frames.specs.Seen.{end_seen, now_seen, stmts_seen};

use flow_frames::{End, Now};
use py_tree::Stmt;

/// What is done after the end of a statement: the rest of its suite where it ended normally, and else its end is that of the suite.
pub fn rest_after<'a>(rest: &'a [Stmt], end: End) -> Now<'a>
    ensures means { (script : ScriptTree) (next : Task → Act) (here : Here) (table : ValuesView) → now_act script next here (now_seen table result) ≡ then_so (suite script next here (stmts_seen rest.entry.now)) (end_seen table end) }
    ensures held { (table : ValuesView) (scope : OneScope) → IsHeldEnd table end → IsHeldNow table scope result }
{
    match end {
        End::Normal => Now::InSuite(rest),
        End::Broke => Now::Ended(End::Broke),
        End::Continued => Now::Ended(End::Continued),
        End::Returned(value) => Now::Ended(End::Returned(value)),
        End::Threw(o, line) => Now::Ended(End::Threw(o, line)),
    }
}
