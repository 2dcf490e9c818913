//! Sources of answers: where a run gets what devices give it. A source is live, over devices, or it is a capture that was kept.
//!
//! - [`Source`]: an answer to a question is what any capture that fits the source afterwards has under the place and the next number there, and
//!   a file that is fetched is what it has at the path. Nothing is answered exactly where that capture has nothing. Some capture fits, and in
//!   each that fits a path stands once. A source stands for what was asked and for the paths that were fetched.
//! - [`Live`]: the devices, and the capture of what they gave so far. A capture that fits has what is kept, and then
//!   only what the devices give from now to its end, by what they tell and by their counts of faults (`IsCaptureOf` of `specs/Live.antt`). What
//!   fits afterwards fitted before, so a capture that fits at the end of a run is tied to its devices from the start.
//! - [`Kept`]: a capture that was kept, for a run that is given the same. It counts the askings of this run, and answers nothing where nothing
//!   is kept.
//!
//! Of a device that does not tell, the counts alone speak. Nothing is written and no file is put by a source (`IsUntouched` of `specs/Going.antt`).
#![tactic(auto)]

mod kept;
mod live;
mod source;

pub use kept::Kept;
pub use live::{Devices, Exposes, Live};
pub use source::Source;
