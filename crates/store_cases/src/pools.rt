// Cases of `region_pool`: a pool of numbers.
use crate::Stop;
use region_pool::{NoRoom, Pool};
use std::alloc::{AllocError, Global};

impl From<NoRoom> for Stop {
    fn from(_: NoRoom) -> Self {
        Stop::Memory
    }
}

/// Puts an item, for which room is made where there is none.
fn put(alloc: Global, pool: &mut Pool<u32>, item: u32) -> Result<u32, NoRoom> {
    pool.reserve(alloc, 1)?;
    Ok(pool.put(item))
}

/// Puts the numbers from the length on up to and without `to`.
fn fill(alloc: Global, pool: &mut Pool<u32>, to: u32) -> Result<(), NoRoom> {
    let from = pool.len();
    for number in from..to {
        put(alloc, pool, number)?;
    }
    Ok(())
}

/// The item of a name, or 0 where there is none.
fn item(pool: &Pool<u32>, name: u32) -> u32 {
    if name < pool.len() {
        *pool.get(name)
    } else {
        0
    }
}

/// Writes an item over another.
fn overwrite(pool: &mut Pool<u32>, name: u32, item: u32) {
    if name < pool.len() {
        *pool.get_mut(name) = item;
    }
}

/// Whether each item is its own name.
fn are_names(pool: &Pool<u32>) -> bool {
    (0..pool.len()).all(|name| item(pool, name) == name)
}

/// A place below a million that has nothing to do with the one before it.
fn scattered(step: u32) -> u32 {
    (step as u64 * 2_654_435_761 % 1_000_000) as u32
}

/// Whether a million items, got in an order that jumps about, are their names.
fn are_scattered_names(pool: &Pool<u32>) -> bool {
    (0..1_000_000).all(|step| {
        let name = scattered(step);
        item(pool, name) == name
    })
}

/// Puts the numbers up to `whole`, looks at them, and rewinds to where the pool was.
fn there_and_back(alloc: Global, pool: &mut Pool<u32>, whole: u32) -> Result<bool, NoRoom> {
    let half = pool.len();
    pool.reserve(alloc, whole)?;
    let mark = pool.mark();
    fill(alloc, pool, whole)?;
    let is_whole = pool.len() == whole && are_names(pool);
    if half <= pool.len() {
        pool.rewind(mark);
    }
    Ok(is_whole && pool.len() == half && are_names(pool))
}

/// Whether names run out where items have no size, and one more finds room afterwards.
fn names_run_out(alloc: Global) -> Result<bool, NoRoom> {
    let mut pool = Pool::new(alloc)?;
    pool.reserve(alloc, 1)?;
    let first = pool.put(());
    let is_refused = pool.reserve(alloc, u32::MAX).is_err();
    pool.reserve(alloc, u32::MAX - 1)?;
    Ok(first == 0 && is_refused && pool.put(()) == 1)
}

fn number(word: &str) -> u32 {
    word.parse::<u32>().unwrap_or(0)
}

fn told(is_so: bool) -> u32 {
    u32::from(is_so)
}

/// The number that a command answers, 1 for yes and 0 for no.
fn step(alloc: Global, pool: &mut Pool<u32>, command: &str, words: &str) -> Result<u32, NoRoom> {
    match command {
        "reserve" => pool.reserve(alloc, number(words))?,
        "put" => return put(alloc, pool, number(words)),
        "fill" => fill(alloc, pool, number(words))?,
        "get" => return Ok(item(pool, number(words))),
        "there_and_back" => return Ok(told(there_and_back(alloc, pool, number(words))?)),
        "names" => return Ok(told(are_names(pool))),
        "scattered" => return Ok(told(are_scattered_names(pool))),
        "names_run_out" => return Ok(told(names_run_out(alloc)?)),
        _ => {}
    }
    Ok(pool.len())
}

/// Puts an item behind a mark, takes it back, and answers its name.
fn marked(alloc: Global, pool: &mut Pool<u32>, item: u32) -> Result<u32, NoRoom> {
    let mark = pool.mark();
    let half = pool.len();
    let name = put(alloc, pool, item)?;
    if half <= pool.len() {
        pool.rewind(mark);
    }
    Ok(name)
}

fn answer_row(alloc: Global, pool: &mut Pool<u32>, row: &str) -> Result<u32, NoRoom> {
    let (command, words) = row.split_once(' ').unwrap_or((row, ""));
    match command {
        "marked" => marked(alloc, pool, number(words)),
        "overwrite" => {
            let (name, item) = words.split_once(' ').unwrap_or((words, ""));
            overwrite(pool, number(name), number(item));
            Ok(pool.len())
        }
        "new" => {
            *pool = Pool::new(alloc)?;
            Ok(pool.len())
        }
        _ => step(alloc, pool, command, words),
    }
}

fn write_answer(
    alloc: Global,
    row: &str,
    answer: u32,
    out: &mut Vec<u8>,
) -> Result<(), AllocError> {
    out.extend_from_slice(format!(in alloc; "{row} -> {answer}\n")?.as_bytes())
}

/// The answers to the rows of a section, each a number.
pub fn answer(alloc: Global, rows: &str, out: &mut Vec<u8>) -> Result<(), Stop> {
    let mut pool = Pool::new(alloc)?;
    for row in rows.lines() {
        let answer = answer_row(alloc, &mut pool, row)?;
        write_answer(alloc, row, answer, out)?;
    }
    Ok(())
}
