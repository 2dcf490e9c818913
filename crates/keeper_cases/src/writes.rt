// The calls that write into an open batch.
use crate::reads::write_count;
use crate::tables::page_of;
use crate::texts::{
    digest_of, halves, head_of, small, write, write_digest, write_done, write_fault, write_number,
};
use content_store::{ContentFault, put};
use keeper::{Head, KeepFault, Keeper};
use memory_keeper::MemoryKeeper;
use prov_base::Digest;
use std::alloc::{AllocError, Global};

/// Writes what a call that writes answers. Where no batch is open, or the trial is not there, it makes no call.
pub fn write_into(
    alloc: Global,
    keeper: &mut MemoryKeeper,
    call: &str,
    words: &str,
    out: &mut Vec<u8>,
) -> Result<(), AllocError> {
    if !keeper.is_open() {
        return write(out, "no batch");
    }
    let (first, second) = halves(words, ' ');
    match call {
        "trial" => add_trial(alloc, keeper, first, out),
        "again" => add_again(alloc, keeper, small(first), second, out),
        "add" => add_page(alloc, keeper, small(first), second, out),
        "keep" => write_done(
            out,
            keeper.add_content(alloc, &digest_of(first), second.as_bytes()),
        ),
        "set" => write_done(out, keeper.set_current(alloc, first, small(second))),
        "commit" => write_done(out, keeper.commit(alloc)),
        _ => write_put(alloc, out, put(alloc, keeper, words.as_bytes())),
    }
}

fn add_trial(
    alloc: Global,
    keeper: &mut MemoryKeeper,
    path: &str,
    out: &mut Vec<u8>,
) -> Result<(), AllocError> {
    let head = head_of(alloc, path)?;
    add_head(alloc, keeper, &head, out)
}

fn add_head(
    alloc: Global,
    keeper: &mut MemoryKeeper,
    head: &Head,
    out: &mut Vec<u8>,
) -> Result<(), AllocError> {
    if keeper.seen_trials() == u32::MAX || !keeper.is_open() {
        return write(out, "no room");
    }
    write_count(alloc, out, keeper.add_trial(alloc, head))
}

// Adds the head of a kept trial once more, changed: the words are how many pages it has, and which of its digests names nothing.
fn add_again(
    alloc: Global,
    keeper: &mut MemoryKeeper,
    number: u32,
    words: &str,
    out: &mut Vec<u8>,
) -> Result<(), AllocError> {
    match keeper.head(alloc, number) {
        Ok(Some(mut head)) => {
            change(&mut head, words);
            add_head(alloc, keeper, &head, out)
        }
        Ok(None) => write(out, "no trial"),
        Err(fault) => write_fault(out, fault),
    }
}

fn change(head: &mut Head, words: &str) {
    let (pages, digest) = halves(words, ' ');
    let absent = Digest { bytes: [15; 20] };
    head.pages = small(pages);
    match digest {
        "script" => head.script = absent,
        "arguments" => head.arguments = absent,
        "capture" => head.capture = absent,
        "finals" => head.finals = absent,
        "output" => head.output = absent,
        _ => {}
    }
}

fn add_page(
    alloc: Global,
    keeper: &mut MemoryKeeper,
    trial: u32,
    words: &str,
    out: &mut Vec<u8>,
) -> Result<(), AllocError> {
    let (number, text) = halves(words, ' ');
    let page = page_of(alloc, text)?;
    if trial == 0 || keeper.seen_trials() < trial || !keeper.is_open() {
        return write(out, "no trial");
    }
    write_done(out, keeper.add_page(alloc, trial, small(number), &page))
}

fn write_put(
    alloc: Global,
    out: &mut Vec<u8>,
    put: Result<Digest, ContentFault>,
) -> Result<(), AllocError> {
    match put {
        Ok(digest) => write_digest(alloc, out, &digest),
        Err(
            ContentFault::Collision {
                digest,
                kept_len,
                given_len,
            },
        ) => write_collision(alloc, out, &digest, kept_len, given_len),
        Err(ContentFault::Keeper) => write(out, "failed"),
        Err(ContentFault::Memory) => write(out, "memory"),
    }
}

/// Writes a collision with its digest and both lengths.
pub fn write_collision(
    alloc: Global,
    out: &mut Vec<u8>,
    digest: &Digest,
    kept: u64,
    given: u64,
) -> Result<(), AllocError> {
    write(out, "collision ")?;
    write_digest(alloc, out, digest)?;
    out.push(b' ')?;
    write_number(alloc, out, kept)?;
    out.push(b' ')?;
    write_number(alloc, out, given)
}
