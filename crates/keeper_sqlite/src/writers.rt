// The four statements that write, in a transaction that the caller begins and ends.
use crate::fault::fault_of;
use keeper::{Batch, Head, KeepFault, Page};
use prov_base::{Bytes, Digest, Name};
use sqlite::types::ValueRef;
use sqlite::{Alter, Transaction, params};

const ADD_TRIAL: &str = "
INSERT INTO trial (number, format, language, path, script, arguments, capture, output, finals,
    budget, steps, status, pages, started, ended, parent)
VALUES (?1, ?2, ?3, ?4, ?5, ?6, ?7, ?8, ?9, ?10, ?11, ?12, ?13, ?14, ?15, ?16)";

const ADD_PAGE: &str = "INSERT INTO page (trial, number, digest, bytes) VALUES (?1, ?2, ?3, ?4)";

const ADD_CONTENT: &str = "INSERT INTO content (digest, bytes) VALUES (?1, ?2)";

const SET_CURRENT: &str = "
INSERT INTO current (path, trial) VALUES (?1, ?2)
ON CONFLICT (path) DO UPDATE SET trial = excluded.trial";

// Writes the entries of a batch. It drops no pages: no call of a keeper asks for that yet.
pub(crate) fn write_entries<S: Alter>(
    transaction: &mut Transaction<'_, S>,
    batch: &Batch,
) -> Result<(), KeepFault> {
    write_heads(transaction, &batch.heads)?;
    write_pages(transaction, &batch.pages)?;
    write_contents(transaction, &batch.contents)?;
    write_current(transaction, &batch.current)
}

fn write_heads<S: Alter>(
    transaction: &mut Transaction<'_, S>,
    heads: &[(u32, Head)],
) -> Result<(), KeepFault> {
    for entry in heads {
        write_head(transaction, entry.0, &entry.1)?;
    }
    Ok(())
}

fn write_pages<S: Alter>(
    transaction: &mut Transaction<'_, S>,
    pages: &[(u32, u32, Page)],
) -> Result<(), KeepFault> {
    for entry in pages {
        let page = &entry.2;
        let digest = page.digest.bytes.as_slice();
        let bytes = page.bytes.as_slice();
        write(
            transaction,
            ADD_PAGE,
            params![entry.0, entry.1, digest, bytes],
        )?;
    }
    Ok(())
}

fn write_contents<S: Alter>(
    transaction: &mut Transaction<'_, S>,
    contents: &[(Digest, Bytes)],
) -> Result<(), KeepFault> {
    for entry in contents {
        let digest = entry.0.bytes.as_slice();
        write(
            transaction,
            ADD_CONTENT,
            params![digest, entry.1.as_slice()],
        )?;
    }
    Ok(())
}

fn write_current<S: Alter>(
    transaction: &mut Transaction<'_, S>,
    current: &[(Name, u32)],
) -> Result<(), KeepFault> {
    for entry in current {
        write(transaction, SET_CURRENT, params![entry.0.as_str(), entry.1])?;
    }
    Ok(())
}

fn write_head<S: Alter>(
    transaction: &mut Transaction<'_, S>,
    number: u32,
    head: &Head,
) -> Result<(), KeepFault> {
    let values = params![
        number,
        u32::from(head.format),
        u32::from(head.language),
        head.path.as_str(),
        head.script.bytes.as_slice(),
        head.arguments.bytes.as_slice(),
        head.capture.bytes.as_slice(),
        head.output.bytes.as_slice(),
        head.finals.bytes.as_slice(),
        head.budget,
        head.steps,
        u32::from(head.status),
        head.pages,
        head.started,
        head.ended,
        head.parent,
    ];
    write(transaction, ADD_TRIAL, values)
}

// Runs a statement of a transaction.
fn write<S: Alter>(
    transaction: &mut Transaction<'_, S>,
    statement: &str,
    values: &[ValueRef<'_>],
) -> Result<(), KeepFault> {
    match transaction.execute(statement, values) {
        Ok(_) => Ok(()),
        Err(error) => Err(fault_of(error)),
    }
}
