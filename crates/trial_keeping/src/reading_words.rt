// Paths and digests, read.
ghost use Rattle.std.specs.Prelude.{◌≡◌, if◌then◌else◌, Some, None};
ghost use Rattle.row_words.specs.Reading.{Gives};
ghost use Rattle.trial_keeping.specs.RecordReading.{digest_at, path_at};

use prov_base::{Digest, Name, is_path};
use row_words::{ReadFault, read_text};
use std::alloc::Global;

/// The path at the front.
#[tactic(auto, unfolding(crate::specs::RecordReading::path_at))]
pub(crate) fn read_path(alloc: Global, bytes: &[u8]) -> Result<(Name, &[u8]), ReadFault>
    ensures { Gives (λ x. (x.0, x.1.now)) result (path_at bytes.now) }
{
    let (path, rest) = read_text(alloc, bytes)?;
    if !is_path(path.as_str()) {
        return Err(ReadFault::Bad);
    }
    Ok((path, rest))
}

/// The digest at the front.
#[tactic(auto, unfolding(crate::specs::RecordReading::digest_at))]
pub(crate) fn read_digest(bytes: &[u8]) -> Result<(Digest, &[u8]), ReadFault>
    ensures { Gives (λ x. (x.0, x.1.now)) result (digest_at bytes.now) }
{
    match bytes.split_first_chunk::<20>() {
        Some((front, rest)) => Ok((Digest { bytes: *front }, rest)),
        None => Err(ReadFault::Bad),
    }
}
