// What is amiss of a kept trial.
use prov_base::{Digest, Pos};

/// What is amiss of a trial that is not well kept: the first thing in the order in which a trial is read.
#[derive(Clone, Copy, Debug)]
pub enum Damage {
    /// The path of its script is none that a script may open.
    Path,
    /// A page has other bytes than those of which it has the digest.
    PageDigest {
        /// The number of the page, from 0.
        page: u32,
        /// The digest that is kept with the page.
        kept: Digest,
        /// The digest of its bytes.
        found: Digest,
    },
    /// A page is not there.
    PageAbsent {
        /// The number of the page, from 0.
        page: u32,
    },
    /// A row of a page is none, or none that may stand there.
    RowAt {
        /// The number of the page, from 0.
        page: u32,
        /// The offset of the row's first byte in the page.
        byte: u64,
    },
    /// Other bytes stand under the digest of a content.
    ContentDigest {
        /// The digest under which they stand.
        kept: Digest,
        /// The digest of these bytes.
        found: Digest,
    },
    /// Nothing stands under the digest of a content.
    ContentAbsent {
        /// The digest.
        digest: Digest,
    },
    /// An item of a record is none.
    RecordAt {
        /// The digest of the record.
        digest: Digest,
        /// The offset of the item's first byte in the record.
        byte: u64,
    },
    /// The script is not in the language, or passes a limit.
    ScriptAt {
        /// The place of the fault.
        at: Pos,
    },
}
