// What the words ask for.
use prov_base::{Name, Pos};

/// An evaluation of a trial, as words name it.
#[derive(Clone, Copy)]
pub struct Evaluation {
    /// The number of the trial, from 1.
    pub trial: u32,
    /// The place of its node in the trial's script.
    pub at: Pos,
    /// Which of the evaluations at that place it is, in the order of the run, from 1.
    pub k: u32,
}

/// A command that reads the store of trials, and changes nothing.
#[derive(Clone, Copy)]
pub enum Query {
    /// `list`: all trials, by number.
    List,
    /// `history`: all trials, by number, each with its parent and whether it is the current one of its path.
    History,
    /// `show T`: the trial with this number, from 1.
    Show(u32),
    /// `dataflow T`: which statement of the trial with this number depends on which.
    Dataflow(u32),
    /// `slice T LINE COL K`: the slice of this evaluation.
    Slice(Evaluation),
    /// `value T LINE COL K`: the value of this evaluation as the trial has it, and the steps up to it.
    Value(Evaluation),
    /// `replay T LINE COL K`: the same, from the run of the slice in what the devices gave.
    Replay(Evaluation),
    /// `sources T LINE COL K`: the evaluations that feed this one.
    Sources(Evaluation),
    /// `effects T LINE COL K`: the evaluations that this one feeds.
    Effects(Evaluation),
}

/// A command. Its file is one of the words as it stands there, which need not be a path.
#[derive(Drop)]
pub enum Command<'w> {
    /// `run --bare [--steps N] FILE [ARG]..`: the file, the greatest number of steps, from 1 to 1000000, and copies of the
    /// arguments in order.
    RunBare {
        file: &'w str,
        steps: u32,
        arguments: Vec<Name>,
    },
    /// `run [--steps N] FILE [ARG]..`: the same, and the run is kept as a trial.
    RunKept {
        file: &'w str,
        steps: u32,
        arguments: Vec<Name>,
    },
    /// A command that reads the store of trials.
    Reads(Query),
    /// `restore T`: the files of the trial with this number, from 1, are put back, and it becomes the current one of its path.
    Restores(u32),
}
