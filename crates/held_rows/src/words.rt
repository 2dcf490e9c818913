// The texts of a trial with those of its path and arguments.
ghost use Rattle.std.specs.Prelude.{◌≡◌, [], ℕ, List, map, slice_get, Some, IfOk, OnOk};
ghost use Rattle.py_value.specs.Values.{StandOnce, Keeps};
ghost use Rattle.py_value.specs.declared.value.Value.{Value as OneValue};
ghost use Rattle.held_rows.specs.Kept.{AreTexts};

use prov_base::Memory;
use py_value::Values;
use std::alloc::Global;

// Puts texts into an empty table, each at its number.
fn put_texts(alloc: Global, values: &mut Values, names: &[&str]) -> Result<(), Memory>
    requires once { StandOnce (map (λ k. k.now) names.now) }
    requires none { values.old ≡ record { texts = []; tuples = [] } }
    ensures texts { OnOk result (values.new.texts ≡ map (λ k. k.now) names.now) }
    ensures tuples { values.new.tuples ≡ [] }
{
    for name in names {
        values.text(alloc, name)?;
    }
    Ok(())
}

// The number of the text of a word, which goes behind the others unless it is there.
fn add_word<'a>(
    alloc: Global,
    values: &mut Values,
    texts: &mut Vec<&'a str>,
    word: &'a str,
) -> Result<u32, Memory>
    requires { map (λ k. k.now) texts.old.items ≡ values.old.texts }
    ensures same { OnOk result (map (λ k. k.now) texts.new.items ≡ values.new.texts) }
    ensures name { IfOk result (λ n. slice_get values.new.texts n ≡ Some word.now) }
    ensures keeps { Keeps values.old.texts values.new.texts }
    ensures once { StandOnce values.new.texts }
{
    let number = values.text(alloc, word)?;
    if number as usize == texts.len() {
        texts.push(word)?;
    }
    Ok(number)
}

// The numbers of the texts of words, which go behind the others unless they are there.
fn add_words<'a>(
    alloc: Global,
    values: &mut Values,
    texts: &mut Vec<&'a str>,
    words: &[&'a str],
) -> Result<Vec<u32>, Memory>
    requires same { map (λ k. k.now) texts.old.items ≡ values.old.texts }
    requires once { StandOnce values.old.texts }
    ensures same { OnOk result (map (λ k. k.now) texts.new.items ≡ values.new.texts) }
    ensures numbers { IfOk result (λ numbers. AreTexts values.new numbers.items (map (λ k. k.now) words.now)) }
    ensures keeps { OnOk result (Keeps values.old.texts values.new.texts) }
    ensures once { OnOk result (StandOnce values.new.texts) }
{
    let mut numbers = Vec::new(alloc);
    for word in words {
        numbers.push(add_word(alloc, values, texts, word)?)?;
    }
    Ok(numbers)
}

/// Texts of which none stands twice, with those of words behind them where they are not there, and the numbers of the words.
pub(crate) fn texts_with<'a>(
    alloc: Global,
    names: Vec<&'a str>,
    words: &[&'a str],
) -> Result<(Vec<&'a str>, Vec<u32>), Memory>
    requires { StandOnce (map (λ k. k.now) names.items) }
    ensures keeps { IfOk result (λ both. Keeps (map (λ k. k.now) names.entry.items) (map (λ k. k.now) both.0.items)) }
    ensures once { IfOk result (λ both. StandOnce (map (λ k. k.now) both.0.items)) }
    ensures numbers { IfOk result (λ both. (tuples : List (List OneValue)) → AreTexts (record { texts = map (λ k. k.now) both.0.items; tuples = tuples }) both.1.items (map (λ k. k.now) words.now)) }
{
    let mut values = Values::new(alloc)?;
    put_texts(alloc, &mut values, names.as_slice())?;
    let mut texts = names;
    let numbers = add_words(alloc, &mut values, &mut texts, words)?;
    Ok((texts, numbers))
}
