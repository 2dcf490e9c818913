// Trials loaded whole, and heads.
use crate::loads::{write_arguments, write_capture, write_counts, write_finals, write_trial_fault};
use crate::runs::write_fields;
use crate::texts::{write, write_number};
use keeper::Head;
use memory_keeper::MemoryKeeper;
use std::alloc::{AllocError, Global};
use trial_keeping::{head, list};
use trial_loading::{Trial, drop_trial, load_trial};

/// Loads the trial with this number, and writes it, or why there is none.
pub fn load_whole(
    alloc: Global,
    keeper: &mut MemoryKeeper,
    number: u32,
    out: &mut Vec<u8>,
) -> Result<(), AllocError> {
    match load_trial(alloc, keeper, number) {
        Ok(trial) => {
            let written = write_trial(alloc, out, &trial);
            drop_trial(trial);
            written
        }
        Err(fault) => write_trial_fault(alloc, out, fault),
    }
}

// Writes a trial: its number, the path of its head, its text and how many statements that has; the rest; and how many rows each page has.
fn write_trial(alloc: Global, out: &mut Vec<u8>, trial: &Trial) -> Result<(), AllocError> {
    write_script(alloc, out, trial)?;
    write(out, " / ")?;
    write_arguments(out, trial.arguments.as_slice())?;
    write_capture(alloc, out, &trial.capture)?;
    write_finals(out, trial.finals.as_slice())?;
    out.extend_from_slice(trial.output.as_slice())?;
    write(out, " / ")?;
    write_counts(
        alloc,
        out,
        trial.rows.as_slice().len() as u64,
        trial.cuts.as_slice(),
    )
}

fn write_script(alloc: Global, out: &mut Vec<u8>, trial: &Trial) -> Result<(), AllocError> {
    write_number(alloc, out, u64::from(trial.number))?;
    write(out, " ")?;
    write(out, trial.head.path.as_str())?;
    write(out, " ")?;
    out.extend_from_slice(trial.text.as_slice())?;
    write(out, " ")?;
    write_number(alloc, out, u64::from(trial.script.count))
}

/// Reads the head of the trial with this number, and writes it with all its fields, or why there is none.
pub fn load_head(
    alloc: Global,
    keeper: &mut MemoryKeeper,
    number: u32,
    out: &mut Vec<u8>,
) -> Result<(), AllocError> {
    match head(alloc, keeper, number) {
        Ok(head) => write_fields(alloc, out, &head),
        Err(fault) => write_trial_fault(alloc, out, fault),
    }
}

/// Lists all heads, and writes the path, the number of pages and the parent of each, or why there are none.
pub fn list_heads(
    alloc: Global,
    keeper: &mut MemoryKeeper,
    out: &mut Vec<u8>,
) -> Result<(), AllocError> {
    match list(alloc, keeper) {
        Ok(heads) => write_heads(alloc, out, heads.as_slice()),
        Err(fault) => write_trial_fault(alloc, out, fault),
    }
}

fn write_heads(alloc: Global, out: &mut Vec<u8>, heads: &[Head]) -> Result<(), AllocError> {
    for head in heads {
        let line = format!(in alloc; "{} {} {};", head.path.as_str(), head.pages, head.parent)?;
        write(out, line.as_str())?;
    }
    Ok(())
}
