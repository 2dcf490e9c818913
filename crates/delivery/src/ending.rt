// How a command ends, before anything is put or written.
ghost use Rattle.std.specs.Prelude.{◌≡◌};
ghost use Rattle.delivery.specs.Ending.{ending_of, tells_of_store};

use prov_base::Digest;

/// How a command ends.
#[derive(Clone, Copy)]
pub enum Ending<'t> {
    /// All was done.
    Done,
    /// The script ended by an exception that nothing caught.
    Uncaught {
        /// The name of its class.
        class: &'t str,
        /// The line of the innermost statement in which it was raised last.
        line: u32,
        /// Its argument, where it has one alone that is a text.
        text: Option<&'t str>,
    },
    /// The words are no command.
    Usage,
    /// A script is refused at a place.
    Refused {
        /// Its path.
        file: &'t str,
        /// The line of the place, from 1.
        line: u32,
        /// The column of the place, from 1.
        column: u32,
    },
    /// What is asked for is not there.
    NothingThere,
    /// The folder failed at the path.
    FolderFailed(&'t str),
    /// The store of trials failed.
    StoreFailed,
    /// The steps of the run did not suffice.
    OutOfSteps,
    /// The run of a slice does not reach what is asked for.
    NotReached,
    /// Other bytes stand in the store under the digest of a content, and the run is not kept.
    Collision {
        /// The digest.
        digest: Digest,
        /// How many bytes stand there.
        kept: u64,
        /// How many bytes were given.
        given: u64,
    },
    /// The store has as many trials as it takes, and the run is not kept.
    StoreFull,
    /// A trial is not well kept.
    DamagedTrial {
        /// Its number.
        trial: u32,
        /// What is amiss of it, in words.
        detail: &'t str,
    },
    /// Memory ran out.
    OutOfMemory,
}

/// Whether the ending tells of a fault in keeping a trial.
pub(crate) fn of_store(ending: Ending<'_>) -> bool
    ensures { result ≡ tells_of_store (ending_of ending.entry) }
{
    match ending {
        Ending::StoreFailed => true,
        Ending::Collision { .. } => true,
        Ending::StoreFull => true,
        Ending::Done => false,
        Ending::Uncaught { .. } => false,
        Ending::Usage => false,
        Ending::Refused { .. } => false,
        Ending::NothingThere => false,
        Ending::FolderFailed(_) => false,
        Ending::OutOfSteps => false,
        Ending::NotReached => false,
        Ending::DamagedTrial { .. } => false,
        Ending::OutOfMemory => false,
    }
}
