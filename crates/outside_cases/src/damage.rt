// What a row does to the store of trials between two calls of the program, so that a trial of it is not well kept.
ghost use Rattle.std.specs.Prelude.{◌≡◌, false};

use crate::texts::{halves, number};
use keeper::{Keeper, Page};
use memory_keeper::MemoryKeeper;
use prov_base::{Bytes, Digest};
use std::alloc::{AllocError, Global};

/// Changes the store as the words say: `page N` takes the last byte from the first page of the trial with this number, `script N` puts other bytes under the
/// digest of its script. Where there is no such trial nothing is changed.
pub fn spoil(alloc: Global, keeper: &mut MemoryKeeper, words: &str) -> Result<(), AllocError>
    requires { keeper.old.held.is_open ≡ false }
    ensures { keeper.new.held.is_open ≡ false }
{
    let (kind, trial) = halves(words, ' ');
    let trial = u32::try_from(number(trial)).unwrap_or(0);
    match kind {
        "page" => shorten_page(alloc, keeper, trial)?,
        "script" => change_script(alloc, keeper, trial),
        _ => {}
    }
    Ok(())
}

/// Takes the last byte from the first page of a trial. Its digest stays.
fn shorten_page(alloc: Global, keeper: &mut MemoryKeeper, trial: u32) -> Result<(), AllocError>
    requires { keeper.old.held.is_open ≡ false }
    ensures { keeper.new.held.is_open ≡ false }
{
    let Ok(Some(page)) = keeper.page(alloc, trial, 0) else {
        return Ok(());
    };
    let shorter = match page.bytes.as_slice() {
        [front @ .., _] => Vec::from_slice(alloc, front)?,
        [] => Vec::new(alloc),
    };
    let page = Page {
        digest: page.digest,
        bytes: Bytes::of(shorter),
    };
    put_page(alloc, keeper, trial, &page);
    Ok(())
}

/// Makes a page the first one of a trial.
fn put_page(alloc: Global, keeper: &mut MemoryKeeper, trial: u32, page: &Page)
    ensures { keeper.new.held.is_open ≡ false }
{
    let begun = keeper.begin(alloc).is_ok();
    if begun && trial != 0 && trial <= keeper.seen_trials() {
        let _ = keeper.add_page(alloc, trial, 0, page);
        let _ = keeper.commit(alloc);
    }
    let _ = keeper.undo(alloc);
}

/// Puts other bytes under the digest of the script of a trial.
fn change_script(alloc: Global, keeper: &mut MemoryKeeper, trial: u32)
    requires { keeper.old.held.is_open ≡ false }
    ensures { keeper.new.held.is_open ≡ false }
{
    if let Ok(Some(head)) = keeper.head(alloc, trial) {
        put_content(alloc, keeper, &head.script);
    }
}

/// Puts other bytes under a digest.
fn put_content(alloc: Global, keeper: &mut MemoryKeeper, digest: &Digest)
    ensures { keeper.new.held.is_open ≡ false }
{
    if keeper.begin(alloc).is_ok() {
        let _ = keeper.add_content(alloc, digest, b"other bytes");
        let _ = keeper.commit(alloc);
    }
    let _ = keeper.undo(alloc);
}
