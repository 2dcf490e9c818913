// That parts of rows are read exactly.
ghost use Rattle.row_words.specs.Reading.{Reads};
ghost use Rattle.trace_rows.specs.PartBytes.{answer_bytes, IsAnswer};
ghost use Rattle.trace_rows.specs.PartReading.{answer_at};

/// The law that answers are read exactly: what has the bytes of an answer is read as that answer, whatever follows it, and what is read as
/// an answer has its bytes.
pub fn parts_are_read_exactly()
    ensures { Reads answer_bytes IsAnswer answer_at }
{}
