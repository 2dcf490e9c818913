//! A watch that keeps the events of a run as rows, and gives them as pages.
//!
//! [`Recorder`] tells the events that it was told, the latest first; after a refusal it tells what it told before. Its pages are those of the rows of
//! these events. The numbers in these rows fit their types, so each page is decoded as the next of them (`pages_are_the_rows`). After a refusal it
//! takes no more events: what it was told until then stays, and its pages are as before. Its rows are also given as they are, without pages.
//!
//! `specs/MomentRows.antt` says what the rows of a list of events are: each event has one row, and a text or tuple has one directly before the first row
//! that names it (`specs/Naming.antt`). `specs/PageCuts.antt` says how rows are cut into pages.
//!
//! - [`pages_of`]: the pages of rows. [`pages_are_the_rows`]: one behind the other they are the rows, and where each ends.
//! - [`name_moment`]: the row of an event, whose numbers fit their types. A [`Namer`] keeps the texts and tuples that have numbers, and the
//!   rows that they got of late. In one event each tuple of the run is walked once.
//! - `Namer::finish`: these rows, and the event's own behind them, are moved to the end of the others.
#![tactic(auto)]

mod fitting;
mod namer;
mod naming_accesses;
mod naming_moments;
mod naming_values;
mod pages;
mod recorder;
mod walked;

pub use pages::pages_are_the_rows;
pub use recorder::Recorder;
