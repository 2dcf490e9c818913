//! Contents by their SHA-1 digests (FIPS 180-4), over any keeper. Equal bytes are kept once. Where other bytes stand
//! under the digest, which SHA-1 does not rule out, that is a collision, and nothing is changed.
//!
//! What a digest is says the clause of `sha1`; nothing is proved of it again.
#![tactic(auto)]

mod contents;
mod fault;

pub use contents::{get, put};
pub use fault::ContentFault;
