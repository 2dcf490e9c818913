//! The capture of a run: what the devices gave a script, kept so that another run can be given the same. It stands on the
//! outside alone, and knows nothing of scripts.
//!
//! - [`Capture::ask_live`] asks the clock, the source of random words or the console, and keeps what it gave under the place of
//!   the call and the next number there, whatever was asked there before. A fault is kept as `Failed`, and only where the
//!   device's count of faults rose; `End` is kept only where no line was left. The device that is not asked stays as it is.
//! - [`Capture::touch_live`] keeps what the folder has at a path, `Failed` only where its count rose. It asks once: a path of
//!   which something is kept, or that was noted as written, is left as it is.
//! - [`Capture::ask_kept`] and [`Capture::touch_kept`] answer `NoAnswer` exactly where nothing of that kind is kept there.
//!   They and the readers of whole lists take no memory. [`Capture::copy_kept`] answers a copy.
//! - [`Capture::put_in_order`] puts the answers in ascending order of place and number; what is kept stays. No two answers have
//!   one place and number, and files ascend by path at any time.
//! - After a lack of memory the capture and what the devices tell are as before, and no device has failed. The room for an answer
//!   is made before a device is asked, and what it gives is kept without a copy, so that no line is lost.
//!
//! Contracts see three lists (`specs/Capture.antt`): the answers in the order in which they were kept, the files by path, and
//! the paths in order of first opening. What stands under a key is `answer_at` and `file_at` of these. That a look-up takes
//! constant time for answers, and the time of a search by halves for files, is for speed alone: no clause speaks of it.
#![tactic(auto)]

mod answer;
mod answers;
mod asking;
mod capture;
mod ended;
mod files;
mod paths;

pub use crate::capture::Capture;
pub use answer::{Ask, Asked, Given, NoAnswer};
pub use ended::{Ended, FileOut, RunEnd};
