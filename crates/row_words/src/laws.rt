// That words are read exactly.
ghost use Rattle.py_value.specs.declared.value.Value.{Value};
ghost use Rattle.row_words.specs.Bytes.{number_bytes, signed_bytes, place_bytes, text_bytes, value_bytes, values_bytes, made_bytes};
ghost use Rattle.row_words.specs.Fits.{IsLong, IsShort, IsPlace, IsText, IsValue, AreValues, IsMade};
ghost use Rattle.row_words.specs.Reading.{Reads, number_at, short_at, place_at, text_at, value_at, list_at, made_at};

/// The law that words are read exactly: what has the bytes of a word is read as that word, whatever follows it, and what is read as a word
/// has its bytes.
pub fn words_are_read_exactly()
    ensures numbers { Reads number_bytes IsLong number_at }
    ensures short_numbers { Reads number_bytes IsShort short_at }
    ensures places { Reads place_bytes IsPlace place_at }
    ensures texts { Reads text_bytes IsText text_at }
    ensures values { Reads value_bytes IsValue value_at }
    ensures lists_of_values { Reads values_bytes AreValues (list_at value_at) }
    ensures kinds { Reads made_bytes IsMade made_at }
{}
