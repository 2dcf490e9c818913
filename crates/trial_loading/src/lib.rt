//! A kept trial, loaded over any keeper: its contents, its script and its rows.
//!
//! First the contents: the script's text and the rest, without the form of the script and without the rows.
//!
//! - [`script_of`] answers the script's text: its path must be one that a script may open, and the text stands under its digest (`script_in` of
//!   `specs/Rest.antt`).
//! - [`rest_of`] answers the rest: arguments, capture, output, and the files that the run left. Three records come first, then what they and the head name,
//!   in this order: arguments, capture, final files; output, files that were found by path, final files (`IsRest`). Each is there, has its
//!   digest, and each record is one. The answer is damaged exactly as the first of these is that is not so.
//! - The two calls are apart, since whether the script is in the language is checked between them, by the layer above.
//! - [`kept_trials_are_read_back`]: where a run's trial is kept, its head stands under the next number, and the script and the rest that
//!   are read under it are the run's. Its pages are those of `trial_tables`.
//!
//! What a record comes to is said by relations, as a record is read one way: `Then` of `specs/Checks.antt` is one part and then the next. The capture is
//! rebuilt by `keep` and `keep_file`, whose conditions follow from the order of the record. No path is noted as written in it.
//!
//! Whatever is answered, the keeper's tables stay. `Keeper` is answered only where its count of faults rose. Out of memory may be answered at any
//! time, and a call that always answers it meets these clauses: that calls succeed is not said here.
//!
//! All rows of a kept trial, read back from a keeper page by page, over any keeper.
//!
//! `specs/TrialPages.antt` says which rows a trial has, and what is amiss of them first. A page is there, its bytes have the digest that is kept
//! with it and are rows, and each row may stand behind those before it, on this page and on the earlier ones.
//!
//! - [`rows_of`]: `finds` says that Ok comes with exactly the rows of all pages, and with how many of them each page has. Damaged comes with
//!   what is amiss first; within a page its grammar is looked at first. A row of page 0 that may not stand comes before the absence of page 1.
//! - `RowAt` names the page, and the offset in it of the row's first byte.
//! - [`rows_are_read_one_way`]: a trial has one list of rows, or one first damage, and never both.
//! - Nothing is changed, whatever is answered. `Keeper` is answered only where the keeper's count of faults rose.
//!
//! Each page is decoded twice: alone, for its own fault and the number of its rows, and then behind the others, for one list of all rows.
//! A call that always answers out of memory meets these clauses: that it succeeds has to be tested.
//!
//! A kept trial, loaded over any keeper.
//!
//! - [`load_trial`] answers the trial with a number, `NoTrial` exactly where there is none, and `Damaged` exactly where it is not well kept.
//!   `loads` says both sides: which trial it is (`IsLoaded` of `specs/Loading.antt`), or what is amiss of it first (`IsDamaged`).
//! - The order is that of the check: the path; the script's text, its digest, and that it is a script of the language within the limits; the
//!   records of arguments, capture and final files; the output, the files that were found by path, the final files; the pages by number, with
//!   the rows on them. A stage is looked at only where those before it are fine.
//! - A text that is no script is told as `ScriptAt`, at the one place where it is refused: 1:1 where it is too large.
//! - `in_form`: the statements of a loaded script are numbered from 0, it is well formed, and its targets are flat. `stand`: its rows are kept rows.
//!   `is_trial`: the trial has the number that was asked for, its text is its script, and its rows are kept rows (`IsTrial`). These hold over any keeper, also
//!   one that exposes nothing.
//! - [`trials_are_loaded_one_way`]: a number has one trial, or one first damage, and never both.
//!
//! Whatever is answered, the keeper's tables stay, and so does its batch. `Keeper` is answered only where its count of faults rose. `Collision`
//! and `Full` are never answered. Out of memory may be answered at any time, and a call that always answers it meets these clauses: that
//! calls succeed is not said here.
#![tactic(auto)]

mod answers;
mod behind;
mod content_laws;
mod contents;
mod faults;
mod files;
mod finals;
mod gathering;
mod judging;
mod laws;
mod loading;
mod page_laws;
mod paged_rows;
mod placing;
mod reading;
mod records;
mod rest;
mod script;
mod trial;

pub use content_laws::kept_trials_are_read_back;
pub use laws::trials_are_loaded_one_way;
pub use loading::load_trial;
pub use paged_rows::PagedRows;
pub use reading::rows_of;
pub use rest::{Rest, rest_of};
pub use script::script_of;
pub use trial::{Trial, drop_trial};
