// The words of a command line.
ghost use Rattle.std.specs.Prelude.{◌≡◌, map, option_map, IfOk};
ghost use Rattle.std.specs.String.{string_bytes};
ghost use Rattle.now_words.specs.Command.{run_command, command_of};
ghost use Rattle.now_words.specs.Parsed.{command_of_code};

use crate::command::Command;
use crate::query::{read_query, read_restore};
use crate::reading::Reading;
use prov_base::Memory;
use std::alloc::Global;

// The command of the words behind `run`.
fn read_run(alloc: Global, words: &[String]) -> Result<Option<Command<'_>>, Memory>
    ensures { IfOk result (λ found. option_map command_of_code found ≡ run_command (map string_bytes words.now)) }
{
    let mut reading = Reading::new(alloc);
    for word in words {
        if !reading.take_word(alloc, word.as_str())? {
            return Ok(None);
        }
    }
    Ok(reading.command())
}

/// The command that the words are: those of the command line behind the program's name. `None` where they are no command,
/// by the rules at the head of this crate. It fails only where memory runs out.
pub fn read(alloc: Global, words: &[String]) -> Result<Option<Command<'_>>, Memory>
    ensures { IfOk result (λ found. option_map command_of_code found ≡ command_of (map string_bytes words.now)) }
{
    let Some((verb, rest)) = words.split_first() else {
        return Ok(None);
    };
    if verb.as_str() == "run" {
        return read_run(alloc, rest);
    }
    if verb.as_str() == "restore" {
        return read_restore(alloc, rest);
    }
    read_query(alloc, verb.as_str(), rest)
}
