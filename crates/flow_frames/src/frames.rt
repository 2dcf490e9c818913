// Frames: what is done now, and what waits for its end.
ghost use Rattle.std.specs.Prelude.{◌≡◌, ◌∷◌, [], map, IfOk, OnOk};
ghost use Rattle.py_tree.specs.Erasure.{script_of};
ghost use Rattle.py_tree.specs.Tree.{ScriptTree};
ghost use Rattle.py_value.specs.Values.{ValuesView};
ghost use Rattle.py_model.specs.Act.{Act, ret, to};
ghost use Rattle.py_model.specs.Expressions.{Task};
ghost use Rattle.py_model.specs.Meaning.{at_start};
ghost use Rattle.py_model.specs.Statements.{suite};
ghost use Rattle.flow_frames.specs.Held.{IsHeldClass, IsHeldFlow, IsHeldNow, IsHeldWaits};
ghost use Rattle.flow_frames.specs.Machine.{now_act, remaining, resumes, waits_act};
ghost use Rattle.flow_frames.specs.Popping.{HoldsPopped, IsPopped};
ghost use Rattle.flow_frames.specs.Seen.{flow_seen, frame_seen, here_seen, now_seen, waits_seen};

use crate::control::{Caller, End, Now, Part};
use interp_eval::Scope;
use prov_base::Memory;
use py_tree::{Script, Stmt};
use py_value::Value;
use std::alloc::Global;

/// Where a statement stands: its scope, how many activations are open, the exception that is handled, the class around it, and its line.
#[derive(Clone, Copy)]
pub struct Spot {
    /// The activation and its function.
    pub scope: Scope,
    /// How many activations are open.
    pub open_activations: u32,
    /// The exception that is handled.
    pub handled: Option<u32>,
    /// The class in whose suite it stands directly.
    pub in_class: Option<Value>,
    /// The line of the innermost statement.
    pub line: u32,
}

/// What waits for an end.
#[derive(Drop)]
pub enum Waits<'a> {
    /// A statement, by its number, with the rest of its suite.
    Stmt(u32, &'a [Stmt]),
    /// A part of a statement; or an expression with a call, and the part that follows its value.
    Part(Option<Box<Caller<'a>>>, Part<'a>),
}

/// What waits, and where it stands.
#[derive(Drop)]
pub struct Frame<'a> {
    /// Where it stands.
    pub spot: Spot,
    /// What waits.
    pub waits: Waits<'a>,
}

/// A script that is being run: what is done now and where, and what waits, the outermost first.
#[derive(Drop)]
pub struct FlowFrames<'a> {
    /// Where what is done now stands.
    pub spot: Spot,
    /// What is done now.
    pub now: Now<'a>,
    /// What waits for its end, the outermost first.
    pub below: Vec<Frame<'a>>,
}

impl<'a> FlowFrames<'a> {
    /// A script of which nothing is done yet.
    pub fn start(alloc: Global, script: &'a Script) -> Result<FlowFrames<'a>, Memory>
        ensures means { IfOk result (λ frames. (next : Task → Act) (table : ValuesView)
            → remaining (script_of script.entry.now) next (flow_seen (script_of script.entry.now) table frames) ≡ to (suite (script_of script.entry.now) next at_start (script_of script.entry.now).body) (λ how. ret how)) }
        ensures held { IfOk result (λ frames. (table : ValuesView) → IsHeldFlow table frames) }
    {
        let spot = Spot {
            scope: Scope {
                activation: 0,
                function: None,
            },
            open_activations: 0,
            handled: None,
            in_class: None,
            line: 0,
        };
        Ok(FlowFrames {
            spot,
            now: Now::InSuite(script.body.list.as_slice()),
            below: Vec::new(alloc),
        })
    }

    /// Something is begun at a spot, and what waits for its end goes below it.
    #[inline(always)]
    pub fn push(&mut self, waits: Waits<'a>, spot: Spot, now: Now<'a>) -> Result<(), Memory>
        ensures means { OnOk result ((script : ScriptTree) (next : Task → Act) (table : ValuesView) → remaining script next (flow_seen script table self.new)
            ≡ to (to (now_act script next (here_seen script table spot) (now_seen table now.entry)) (waits_act script next (here_seen script table self.old.spot) (waits_seen table waits.entry)))
            (resumes script next (map (frame_seen script table) self.old.below.items) (λ how. ret how))) }
        ensures held { OnOk result ((table : ValuesView) → IsHeldFlow table self.old → IsHeldWaits table self.old.spot.scope waits.entry → IsHeldClass table spot.in_class → IsHeldNow table spot.scope now.entry → IsHeldFlow table self.new) }
    {
        self.below.push(Frame {
            spot: self.spot,
            waits,
        })?;
        self.spot = spot;
        self.now = now;
        Ok(())
    }

    /// Takes what waits innermost, and stands where that stands; None where nothing waits.
    pub fn pop(&mut self) -> Option<Waits<'a>>
        ensures means { IsPopped self.old self.new result }
        ensures held { (table : ValuesView) → IsHeldFlow table self.old → HoldsPopped table self.new result }
    {
        let Some(frame) = self.below.pop() else {
            return None;
        };
        self.spot = frame.spot;
        self.now = Now::Ended(End::Normal);
        Some(frame.waits)
    }
}
