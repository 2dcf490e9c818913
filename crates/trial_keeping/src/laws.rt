// That records are read one way, and what the order of their lists is.
ghost use Rattle.std.specs.Prelude.{◌↔◌, List};
ghost use Rattle.capture.specs.declared.answer.Asked.{Asked};
ghost use Rattle.capture.specs.Answers.{AreInOrder};
ghost use Rattle.row_words.specs.Fits.{IsList};
ghost use Rattle.trial_keeping.specs.declared.record.FileRecord.{FileRecord};
ghost use Rattle.trial_keeping.specs.RecordBytes.{arguments_bytes, finals_bytes};
ghost use Rattle.trial_keeping.specs.RecordFits.{ArgumentsFit, CaptureFits, FinalsFit, IsAnswer, AnswersFit, IsFile, AreAscending, FilesFit};
ghost use Rattle.trial_keeping.specs.RecordFaults.{kept_bytes, IsBadArguments, IsBadCapture, AreBadFinals, IsReadOneWay};

/// The law that records are read one way: two values with the same bytes are the same, bytes that are the record of a value have no bad
/// place, and no bytes have two.
pub fn records_are_read_one_way()
    ensures arguments { IsReadOneWay arguments_bytes ArgumentsFit IsBadArguments }
    ensures captures { IsReadOneWay kept_bytes CaptureFits IsBadCapture }
    ensures finals { IsReadOneWay finals_bytes FinalsFit AreBadFinals }
{}

/// The law of order: the answers that have a record are those in ascending order of place and number, and the files those in ascending order of
/// the paths' bytes, each of which fits by itself.
pub fn lists_are_in_order()
    ensures answers { (answers : List Asked) → AnswersFit answers ↔ IsList IsAnswer answers × AreInOrder answers }
    ensures files { (files : List FileRecord) → FilesFit files ↔ IsList IsFile files × AreAscending files }
{}
