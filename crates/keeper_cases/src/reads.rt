// The calls that read.
use crate::texts::{digest_of, halves, small, write, write_fault, write_number};
use content_store::get;
use keeper::{Head, KeepFault, Keeper, Page};
use memory_keeper::MemoryKeeper;
use prov_base::Bytes;
use std::alloc::{AllocError, Global};

/// Writes what a call that reads answers: its words are the call's name and its arguments.
pub fn read(
    alloc: Global,
    keeper: &mut MemoryKeeper,
    call: &str,
    words: &str,
    out: &mut Vec<u8>,
) -> Result<(), AllocError> {
    let (first, second) = halves(words, ' ');
    match call {
        "trials" => write_count(alloc, out, keeper.trials(alloc)),
        "head" => write_head(out, keeper.head(alloc, small(first))),
        "page" => write_page(out, keeper.page(alloc, small(first), small(second))),
        "content" => write_bytes(out, keeper.content(alloc, &digest_of(first))),
        "get" => write_bytes(out, get(alloc, keeper, &digest_of(first))),
        _ => write_current(alloc, out, keeper.current(alloc, first)),
    }
}

/// Writes the answer of a call that answers a number.
pub fn write_count(
    alloc: Global,
    out: &mut Vec<u8>,
    count: Result<u32, KeepFault>,
) -> Result<(), AllocError> {
    match count {
        Ok(count) => write_number(alloc, out, u64::from(count)),
        Err(fault) => write_fault(out, fault),
    }
}

fn write_current(
    alloc: Global,
    out: &mut Vec<u8>,
    current: Result<Option<u32>, KeepFault>,
) -> Result<(), AllocError> {
    match current {
        Ok(Some(trial)) => write_number(alloc, out, u64::from(trial)),
        Ok(None) => write(out, "none"),
        Err(fault) => write_fault(out, fault),
    }
}

fn write_head(out: &mut Vec<u8>, head: Result<Option<Head>, KeepFault>) -> Result<(), AllocError> {
    match head {
        Ok(Some(head)) => write(out, head.path.as_str()),
        Ok(None) => write(out, "none"),
        Err(fault) => write_fault(out, fault),
    }
}

fn write_page(out: &mut Vec<u8>, page: Result<Option<Page>, KeepFault>) -> Result<(), AllocError> {
    match page {
        Ok(Some(page)) => write_quoted(out, page.bytes.as_slice()),
        Ok(None) => write(out, "none"),
        Err(fault) => write_fault(out, fault),
    }
}

fn write_bytes(
    out: &mut Vec<u8>,
    bytes: Result<Option<Bytes>, KeepFault>,
) -> Result<(), AllocError> {
    match bytes {
        Ok(Some(bytes)) => write_quoted(out, bytes.as_slice()),
        Ok(None) => write(out, "none"),
        Err(fault) => write_fault(out, fault),
    }
}

fn write_quoted(out: &mut Vec<u8>, bytes: &[u8]) -> Result<(), AllocError> {
    out.push(b'[')?;
    out.extend_from_slice(bytes)?;
    out.push(b']')?;
    Ok(())
}
