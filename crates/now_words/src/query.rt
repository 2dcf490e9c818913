// The words of a command that reads the store of trials, and of `restore`.
ghost use Rattle.std.specs.Prelude.{◌≡◌, ◌∷◌, [], ℕ, List, map, option_and_then, option_map, IfOk};
ghost use Rattle.std.specs.String.{string_bytes};
ghost use Rattle.now_words.specs.Command.{evaluation_by, evaluation_of, alone_of, evaluation_query_of, positional_words, query_command, query_of, restore_command, trial_of};
ghost use Rattle.now_words.specs.Parsed.{command_of_code};
ghost use Rattle.now_words.specs.Positionals.{behind, positionals_from};

use crate::command::{Command, Evaluation, Query};
use crate::number::number;
use crate::reading::is_option;
use prov_base::{Memory, Pos};
use std::alloc::Global;

/// The greatest number of a trial, of a line, of a column and of an evaluation.
const GREATEST: u32 = 4294967295;

// Takes a word, where the first `--` stood before it or not. Answers whether it stands there now, or that the word may not stand there.
fn take_one<'w>(
    taken: &mut Vec<&'w str>,
    ended: bool,
    word: &'w str,
) -> Result<Option<bool>, Memory>
    ensures { IfOk result (λ found. (words : List (List ℕ)) → option_and_then (λ now. behind (map (λ k. k.now) taken.new.items) (positionals_from now words)) found
        ≡ behind (map (λ k. k.now) taken.old.items) (positionals_from ended (word.now ∷ words))) }
{
    if ended {
        taken.push(word)?;
        return Ok(Some(true));
    }
    if word == "--" {
        return Ok(Some(true));
    }
    if is_option(word.as_bytes()) {
        return Ok(None);
    }
    taken.push(word)?;
    Ok(Some(false))
}

// The positionals among the words behind a command that has no options, if each word may stand there.
fn positionals<'w>(alloc: Global, words: &'w [String]) -> Result<Option<Vec<&'w str>>, Memory>
    ensures { IfOk result (λ found. option_map (λ given. map (λ k. k.now) given.items) found ≡ positional_words (map string_bytes words.now)) }
{
    let mut taken = Vec::new(alloc);
    let mut ended = false;
    for word in words {
        match take_one(&mut taken, ended, word.as_str())? {
            Some(now) => ended = now,
            None => return Ok(None),
        }
    }
    Ok(Some(taken))
}

// What a command word asks for that stands alone.
fn alone(query: Query, given: &[&str]) -> Option<Query>
    ensures { result ≡ alone_of query (map (λ k. k.now) given.now) }
{
    match given {
        [] => Some(query),
        _ => None,
    }
}

// The trial that words name.
fn trial_in(given: &[&str]) -> Option<u32>
    ensures { result ≡ trial_of (map (λ k. k.now) given.now) }
{
    match given {
        [] => None,
        [trial] => number(trial.as_bytes(), GREATEST),
        _ => None,
    }
}

// The evaluation that four words name.
fn evaluation(trial: &str, line: &str, column: &str, k: &str) -> Option<Evaluation>
    ensures { result ≡ evaluation_by trial.now line.now column.now k.now }
{
    let trial = number(trial.as_bytes(), GREATEST)?;
    let line = number(line.as_bytes(), GREATEST)?;
    let col = number(column.as_bytes(), GREATEST)?;
    let k = number(k.as_bytes(), GREATEST)?;
    let at = Pos { line, col };
    Some(Evaluation { trial, at, k })
}

// The evaluation that words name.
fn evaluation_in(given: &[&str]) -> Option<Evaluation>
    ensures { result ≡ evaluation_of (map (λ k. k.now) given.now) }
{
    match given {
        [] | [_] | [_, _] | [_, _, _] => None,
        [trial, line, column, k] => evaluation(trial, line, column, k),
        _ => None,
    }
}

// What a command word asks for that stands before the words of an evaluation.
fn evaluation_query(verb: &str, given: &[&str]) -> Option<Query>
    ensures { result ≡ evaluation_query_of verb.now (map (λ k. k.now) given.now) }
{
    if verb == "slice" {
        let found = evaluation_in(given)?;
        return Some(Query::Slice(found));
    }
    if verb == "value" {
        let found = evaluation_in(given)?;
        return Some(Query::Value(found));
    }
    if verb == "replay" {
        let found = evaluation_in(given)?;
        return Some(Query::Replay(found));
    }
    if verb == "sources" {
        let found = evaluation_in(given)?;
        return Some(Query::Sources(found));
    }
    if verb == "effects" {
        let found = evaluation_in(given)?;
        return Some(Query::Effects(found));
    }
    None
}

// What a command word and its positionals ask for.
fn query_by(verb: &str, given: &[&str]) -> Option<Query>
    ensures { result ≡ query_of verb.now (map (λ k. k.now) given.now) }
{
    if verb == "list" {
        return alone(Query::List, given);
    }
    if verb == "history" {
        return alone(Query::History, given);
    }
    if verb == "show" {
        let found = trial_in(given)?;
        return Some(Query::Show(found));
    }
    if verb == "dataflow" {
        let found = trial_in(given)?;
        return Some(Query::Dataflow(found));
    }
    evaluation_query(verb, given)
}

/// The command of a command word that reads the store, and of the words behind it.
pub(crate) fn read_query<'w>(
    alloc: Global,
    verb: &str,
    words: &'w [String],
) -> Result<Option<Command<'w>>, Memory>
    ensures { IfOk result (λ found. option_map command_of_code found ≡ query_command verb.now (map string_bytes words.now)) }
{
    let Some(given) = positionals(alloc, words)? else {
        return Ok(None);
    };
    let query = query_by(verb, given.as_slice());
    Ok(query.map(|query| Command::Reads(query)))
}

/// The command of the words behind `restore`.
pub(crate) fn read_restore<'w>(
    alloc: Global,
    words: &'w [String],
) -> Result<Option<Command<'w>>, Memory>
    ensures { IfOk result (λ found. option_map command_of_code found ≡ restore_command (map string_bytes words.now)) }
{
    let Some(given) = positionals(alloc, words)? else {
        return Ok(None);
    };
    let number = trial_in(given.as_slice());
    Ok(number.map(|number| Command::Restores(number)))
}
