// The tables that a row begins with, and how committed tables are written.
use crate::texts::{bytes_of, digest_of, halves, head_of, name_of, small, write, write_digest};
use keeper::{Head, Page};
use memory_keeper::Tables;
use prov_base::{Bytes, Digest, Name};
use std::alloc::{AllocError, Global};

fn empty(alloc: Global) -> Tables {
    Tables {
        heads: Vec::new(alloc),
        pages: Vec::new(alloc),
        contents: Vec::new(alloc),
        current: Vec::new(alloc),
    }
}

/// Tables with these entries, with a space between them: `h:PATH`, `p:TRIAL:NUMBER:TEXT`, `c:DIGEST:TEXT`, `u:PATH:TRIAL`.
pub fn tables_of(alloc: Global, entries: &str) -> Result<Tables, AllocError> {
    let mut tables = empty(alloc);
    for entry in entries.split(' ') {
        add_entry(alloc, &mut tables, entry)?;
    }
    Ok(tables)
}

fn add_entry(alloc: Global, tables: &mut Tables, entry: &str) -> Result<(), AllocError> {
    let (kind, rest) = halves(entry, ':');
    let (key, value) = halves(rest, ':');
    match kind {
        "h" => add_head(alloc, &mut tables.heads, rest),
        "p" => add_page(alloc, &mut tables.pages, small(key), value),
        "c" => add_content(alloc, &mut tables.contents, key, value),
        "u" => add_current(alloc, &mut tables.current, key, value),
        _ => Ok(()),
    }
}

fn add_head(alloc: Global, heads: &mut Vec<Head>, path: &str) -> Result<(), AllocError> {
    let head = head_of(alloc, path)?;
    heads.push(head)?;
    Ok(())
}

fn add_page(
    alloc: Global,
    pages: &mut Vec<(u32, u32, Page)>,
    trial: u32,
    words: &str,
) -> Result<(), AllocError> {
    let (number, text) = halves(words, ':');
    let page = page_of(alloc, text)?;
    pages.push((trial, small(number), page))?;
    Ok(())
}

fn add_content(
    alloc: Global,
    contents: &mut Vec<(Digest, Bytes)>,
    digest: &str,
    text: &str,
) -> Result<(), AllocError> {
    let bytes = bytes_of(alloc, text)?;
    contents.push((digest_of(digest), bytes))?;
    Ok(())
}

fn add_current(
    alloc: Global,
    current: &mut Vec<(Name, u32)>,
    path: &str,
    trial: &str,
) -> Result<(), AllocError> {
    let name = name_of(alloc, path)?;
    current.push((name, small(trial)))?;
    Ok(())
}

/// A page with these bytes.
pub fn page_of(alloc: Global, text: &str) -> Result<Page, AllocError> {
    Ok(Page {
        digest: Digest { bytes: [14; 20] },
        bytes: bytes_of(alloc, text)?,
    })
}

/// Writes tables as the entries of a row.
pub fn write_tables(alloc: Global, out: &mut Vec<u8>, tables: &Tables) -> Result<(), AllocError> {
    out.push(b'{')?;
    write_heads(alloc, out, &tables.heads)?;
    write_pages(alloc, out, &tables.pages)?;
    write_contents(alloc, out, &tables.contents)?;
    write_current(alloc, out, &tables.current)?;
    out.push(b'}')?;
    Ok(())
}

/// Writes tables likewise, with bytes as digits, and with the digest that is kept with each page.
pub fn write_digits(alloc: Global, out: &mut Vec<u8>, tables: &Tables) -> Result<(), AllocError> {
    out.push(b'{')?;
    write_heads(alloc, out, &tables.heads)?;
    for (trial, number, page) in &tables.pages {
        write(out, format!(in alloc; "p:{trial}:{number}:")?.as_str())?;
        write_digit_entry(alloc, out, &page.digest, page.bytes.as_slice())?;
    }
    for (digest, bytes) in &tables.contents {
        write(out, "c:")?;
        write_digit_entry(alloc, out, digest, bytes.as_slice())?;
    }
    write_current(alloc, out, &tables.current)?;
    out.push(b'}')?;
    Ok(())
}

fn write_digit_entry(
    alloc: Global,
    out: &mut Vec<u8>,
    digest: &Digest,
    bytes: &[u8],
) -> Result<(), AllocError> {
    write_digest(alloc, out, digest)?;
    out.push(b':')?;
    write_entry(out, hex::encode(alloc, bytes)?.as_str(), b"")
}

fn write_heads(alloc: Global, out: &mut Vec<u8>, heads: &[Head]) -> Result<(), AllocError> {
    for head in heads {
        let line = format!(in alloc; "h:{} ", head.path.as_str())?;
        write(out, &line)?;
    }
    Ok(())
}

fn write_pages(
    alloc: Global,
    out: &mut Vec<u8>,
    pages: &[(u32, u32, Page)],
) -> Result<(), AllocError> {
    for (trial, number, page) in pages {
        let key = format!(in alloc; "p:{trial}:{number}:")?;
        write_entry(out, &key, page.bytes.as_slice())?;
    }
    Ok(())
}

fn write_entry(out: &mut Vec<u8>, key: &str, bytes: &[u8]) -> Result<(), AllocError> {
    write(out, key)?;
    out.extend_from_slice(bytes)?;
    out.push(b' ')?;
    Ok(())
}

fn write_contents(
    alloc: Global,
    out: &mut Vec<u8>,
    contents: &[(Digest, Bytes)],
) -> Result<(), AllocError> {
    for (digest, bytes) in contents {
        let digits = hex::encode(alloc, digest.bytes)?;
        let key = format!(in alloc; "c:{}:", digits.as_str())?;
        write_entry(out, &key, bytes.as_slice())?;
    }
    Ok(())
}

fn write_current(
    alloc: Global,
    out: &mut Vec<u8>,
    current: &[(Name, u32)],
) -> Result<(), AllocError> {
    for (path, trial) in current {
        let line = format!(in alloc; "u:{}:{trial} ", path.as_str())?;
        write(out, &line)?;
    }
    Ok(())
}
