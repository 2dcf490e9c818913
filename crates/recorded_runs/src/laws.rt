// The laws of recorded runs: public functions without a body, whose contracts are the laws.
ghost use Rattle.std.specs.Prelude.{◌≡◌, ℕ, List, Result, Ok};
ghost use Rattle.answer_source.specs.Live.{capture_of};
ghost use Rattle.capture.specs.Capture.{CaptureView};
ghost use Rattle.capture.specs.declared.ended.Ended.{Ended as EndedRun};
ghost use Rattle.prov_base.specs.declared.refusal.Memory.{Memory};
ghost use Rattle.py_model.specs.Capture.{Telling};
ghost use Rattle.py_tree.specs.Tree.{ScriptTree};
ghost use Rattle.run_engine.specs.Bare.{RunsBare};
ghost use Rattle.recorded_runs.specs.declared.recording.Recorded.{Recorded};
ghost use Rattle.recorded_runs.specs.RecordedRun.{RecordsRun, IsRecordedRun, IsBareOf, IsRunOf, ComeOutAlike};

/// The law that what `record_run` says of the run and of the devices is what `run_bare` says: its end, its steps, its output, its files, and its answers as they
/// were asked.
pub fn recorded_runs_are_bare()
    ensures { (script : ScriptTree) (path : List ℕ) (arguments : List (List ℕ)) (steps : ℕ) (before after : Telling) (result : Result Recorded Memory)
        → RecordsRun script path arguments steps before after result → IsBareOf script path arguments steps before after result }
{}

/// The law that recording changes nothing but by a lack of memory: a recorded run and a bare run that were given the same answers and files come out alike.
pub fn recording_changes_nothing()
    ensures { (script : ScriptTree) (path : List ℕ) (arguments : List (List ℕ)) (steps : ℕ) (before after earlier later : Telling) (asked : CaptureView) (it : Recorded) (over : EndedRun)
        → IsRecordedRun script path arguments steps before after asked it → RunsBare script path arguments steps earlier later (Ok over)
        → asked.answers ≡ over.capture.answers → asked.files ≡ over.capture.files → ComeOutAlike it.ended over }
{}

/// The law that the capture that is kept has the run. In it, with its answers in order, the script comes out as it did and has these moments. It asks what is
/// kept and nothing else. What devices tell at its end does not matter.
pub fn kept_captures_have_the_run()
    ensures { (script : ScriptTree) (path : List ℕ) (arguments : List (List ℕ)) (steps : ℕ) (before after ends : Telling) (asked : CaptureView) (it : Recorded)
        → IsRecordedRun script path arguments steps before after asked it → IsRunOf script path arguments steps (capture_of it.ended.capture ends) it }
{}
