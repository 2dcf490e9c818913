//! The top call of the program: what its words ask for, and how that is kept and delivered.
//!
//! [`now`] makes a plan, keeps its run, and delivers the plan. What it says is `RepliesWith` in `specs/Replies.antt`: from what its devices and the keeper tell and
//! count as it begins to what they tell and count as it ends, stage by stage.
//! - The words are a command by `now_words`, or none. What they mean over a world, the files of the folder and what the devices give, is
//!   `Means` in `specs/Means.antt`; `run` means what `run --bare` means (`specs/RunCommand.antt`).
//! - What reads the store means its reply by the tables (`Reply` in `specs/Reply.antt`, a line for each question): the lines of `list` or `history`; the lines of `show`, or the text of
//!   `slice`, `value`, `replay`, `sources`, `effects` or `dataflow`; that there is no such trial or evaluation, or what is amiss of the trial first. The keeper is asked, and its tables stay.
//! - FILE is read only where it is a path. `run` then runs its script over the devices, which are asked what the run asks and no more; without `--bare` the clock is
//!   asked before it and after it.
//! - Without `--bare` the run is kept as a trial: that of the script at FILE in what the devices gave (`specs/Kept.antt`). A fault there takes the place of how the
//!   run ended, and its files and its output are delivered all the same.
//! - The plan is delivered by `delivery`: files in order, text, closing line, status.
//!
//! The laws: a command has at most one meaning over a world ([`one_meaning`]). Where the words mean a plan, the status is that of its ending, or a fault that was
//! counted, or one of a store that does not take the trial, or out of memory ([`completes`]). Without such a fault all of the plan stands ([`does_whole`],
//! [`does_as_meant`]). The console has a prefix of the text and of a closing line in any case ([`writes_prefixes`]). [`writes_slice`] says what `slice` has written with
//! status 0, and [`writes_some_slice`] says it over a keeper that tells nothing: the slice in some trial whose rows are kept rows. [`writes_value`], [`writes_replay`],
//! [`writes_sources`], [`writes_effects`] and [`writes_dataflow`] say it of `value`, `replay`, `sources`, `effects` and `dataflow`.
//! A run with a status of its own is kept as the next trial ([`keeps_trial`]); with any other, its trial is kept or the store stays ([`keeps_or_leaves`]). No other command but `restore`
//! changes the store ([`keeps_nothing_else`]), so after any calls the store has trials of their runs in order, and what it had ([`stores_have_trials_of_runs`]).
//! `restore` has a chain of its own (`specs/Restored.antt`): it puts the files of a trial, makes the trial the current one of its path, and tells what it put.
//! [`restores_trials`] says what stands with status 0, and [`restoring_ends`] what each status means.
//! Where FILE has a script and no call failed, `run FILE` comes to its run's status, but for lack of memory or room ([`run_completes`]). Over a keeper that
//! tells its tables, status and bytes of what reads them are those of the one reply ([`replies_by_tables`]), or tell of a fault or of a lack of memory ([`reading_completes`]).
#![tactic(auto)]

mod answered;
mod asking;
mod deliver;
mod kept;
mod laws;
mod plan;
mod planned;
mod restored;
mod run;
mod source;
mod top;

pub use laws::{
    completes, does_as_meant, does_whole, keeps_nothing_else, keeps_or_leaves, keeps_trial,
    one_meaning, reading_completes, replies_by_tables, restores_trials, restoring_ends,
    run_completes, stores_have_trials_of_runs, writes_dataflow, writes_effects, writes_prefixes,
    writes_replay, writes_slice, writes_some_slice, writes_sources, writes_value,
};
pub use top::now;
