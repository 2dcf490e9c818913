// The cut of a text: one pass over the statements, and one over the bytes.
ghost use Rattle.std.specs.Prelude.{◌≡◌, ℕ, ◌+◌, ◌<◌, ◌≤◌, List, length, IsTrue, [], IfOk};
ghost use Rattle.py_lines.specs.declared.parts.Line.{Line};
ghost use Rattle.py_lines.specs.Logical.{HasLines};
ghost use Rattle.py_lines.specs.Piece.{ends_line};
ghost use Rattle.py_lines.specs.Place.{line_feeds};
ghost use Rattle.py_tree.specs.Deletion.{deleted};
ghost use Rattle.py_tree.specs.Erasure.{script_of};
ghost use Rattle.py_tree.specs.Numbering.{IsNumbered};
ghost use Rattle.py_tree.specs.StmtSet.{has};
ghost use Rattle.py_grammar.specs.Grammar.{InGrammar};
ghost use Rattle.py_grammar.specs.Language.{Language, IsScriptIn, IsScriptWithin};
ghost use Rattle.py_grammar.specs.Limits.{Limits};
ghost use Rattle.slice_text.specs.Cut.{cut_from, cut_text, growths, script_gaps};
ghost use Rattle.slice_text.specs.TextScript.{HasScript};

use crate::gaps::{Gaps, add_suite};
use crate::offsets::{Offsets, filled, gone};
use prov_base::{Bytes, Memory};
use py_tree::{Script, StmtSet};
use std::alloc::Global;

/// The text of a script without the statements outside the set, or Memory. Each byte of a statement that goes, from its
/// first token to the end of its last line, becomes a space, but line ends stay. Where a suite of a statement that stays
/// loses all its statements, `pass` takes the place of the first, and the line grows if it is too short for it. All else
/// stays as it was, at its line and column.
pub fn cut(alloc: Global, text: &[u8], script: &Script, keep: &StmtSet) -> Result<Bytes, Memory>
    ensures cut { IfOk result (λ bytes. bytes ≡ cut_text (has keep.now) (script_of script.now) text.now) }
    ensures line_ends { IfOk result (λ bytes. line_feeds bytes ≡ line_feeds text.now) }
    ensures grows { IfOk result (λ bytes. length text.now ≤ length bytes) }
    ensures script { (lines : List Line) → HasLines text.now lines → InGrammar lines (script_of script.now) → IfOk result (λ bytes. HasScript InGrammar bytes (deleted (has keep.now) (script_of script.now))) }
    ensures placed { (language : Language) (lines : List Line) → HasLines text.now lines → IsScriptIn language lines (script_of script.now) → IfOk result (λ bytes. HasScript (IsScriptIn language) bytes (deleted (has keep.now) (script_of script.now))) }
    ensures within { (limits : Limits) (language : Language) (lines : List Line) → HasLines text.now lines → IsScriptWithin limits language lines (script_of script.now) → IfOk result (λ bytes. HasScript (IsScriptWithin limits language) bytes (deleted (has keep.now) (script_of script.now))) }
    ensures growth { (lines : List Line) → HasLines text.now lines → InGrammar lines (script_of script.now) → IfOk result (λ bytes. length bytes ≡ length text.now + growths text.now (script_gaps (has keep.now) (script_of script.now))) }
    ensures whole { IsNumbered (script_of script.now) → ((i : ℕ) → i < script.now.count → IsTrue (has keep.now i)) → IfOk result (λ bytes. bytes ≡ text.now) }
{
    let mut gaps = Gaps::new(alloc);
    add_suite(&script.body, keep, false, &mut gaps)?;
    let goes = gone(alloc, text.len(), gaps.as_slice())?;
    let begins = filled(alloc, text.len(), gaps.as_slice())?;
    let cut = written(alloc, text, &goes, &begins)?;
    Ok(Bytes::of(cut))
}

fn is_line_end(byte: u8) -> bool
    ensures { result ≡ ends_line byte }
{
    byte == b'\n' || byte == b'\r'
}

// The text with spaces for the bytes that go, and with each `pass` that begins.
fn written(alloc: Global, text: &[u8], goes: &Offsets, begins: &Offsets) -> Result<Vec<u8>, Memory>
    ensures { IfOk result (λ cut. cut.items ≡ cut_from (has goes.now) (has begins.now) 0 [] text.now) }
{
    let mut cut = Vec::with_capacity(alloc, text.len())?;
    let mut due: &[u8] = b"";
    for (at, byte) in text.iter().enumerate() {
        if begins.has(at) {
            due = b"pass";
        }
        if is_line_end(*byte) {
            cut.extend_from_slice(due)?;
            cut.push(*byte)?;
            due = b"";
        } else if let Some((letter, later)) = due.split_first() {
            cut.push(*letter)?;
            due = later;
        } else {
            cut.push(if goes.has(at) { b' ' } else { *byte })?;
        }
    }
    cut.extend_from_slice(due)?;
    Ok(cut)
}
