// The items of records, read: what was given, answers, what was found, files and final files.
ghost use Rattle.std.specs.Prelude.{◌≡◌};
ghost use Rattle.std.specs.Str.{bytes_eq};
ghost use Rattle.row_words.specs.Reading.{Gives, into, front_at, number_at, signed_at};
ghost use Rattle.trial_keeping.specs.RecordFits.{is_next, is_earlier as is_earlier_answer, is_ahead as is_ahead_file, is_final as is_final_path};
ghost use Rattle.trial_keeping.specs.RecordReading.{made_time, made_line, made_failed, ask_at, given_behind as behind_given, given_at, asking_at, answer_at, next_answer as next_answer_at, found_behind as behind_found, found_at, file_at, next_file as next_file_at, final_at, next_final as next_final_at};

use crate::reading_words::{read_digest, read_path};
use crate::record::{FileRecord, FinalRecord, FoundRecord};
use crate::tags::{FoundTag, GivenTag, ask_tag, found_tag, given_tag};
use capture::{Ask, Asked, Given};
use prov_base::Bytes;
use row_words::{ReadFault, read_front, read_number, read_place, read_short, read_signed};
use std::alloc::Global;

#[tactic(auto, unfolding(crate::specs::RecordReading::ask_at))]
fn read_ask(bytes: &[u8]) -> Result<(Ask, &[u8]), ReadFault>
    ensures { Gives (λ x. (x.0, x.1.now)) result (ask_at bytes.now) }
{
    let [b, rest @ ..] = bytes else {
        return Err(ReadFault::Bad);
    };
    match ask_tag(*b) {
        None => Err(ReadFault::Bad),
        Some(what) => Ok((what, rest)),
    }
}

fn read_time(rest: &[u8]) -> Result<((Ask, Given), &[u8]), ReadFault>
    ensures { Gives (λ x. (x.0, x.1.now)) result (into made_time (signed_at rest.now)) }
{
    let (time, rest) = read_signed(rest)?;
    Ok(((Ask::Time, Given::Number(time)), rest))
}

fn read_line(alloc: Global, rest: &[u8]) -> Result<((Ask, Given), &[u8]), ReadFault>
    ensures { Gives (λ x. (x.0, x.1.now)) result (into made_line (front_at rest.now)) }
{
    let (line, rest) = read_front(rest)?;
    let line = Bytes::of(Vec::from_slice(alloc, line)?);
    Ok(((Ask::Line, Given::Line(line)), rest))
}

fn read_failed(rest: &[u8]) -> Result<((Ask, Given), &[u8]), ReadFault>
    ensures { Gives (λ x. (x.0, x.1.now)) result (into made_failed (ask_at rest.now)) }
{
    let (what, rest) = read_ask(rest)?;
    Ok(((what, Given::Failed), rest))
}

// What was given, of which the first byte was read.
#[tactic(auto, unfolding(crate::specs::RecordReading::given_behind))]
fn given_behind(
    alloc: Global,
    tag: GivenTag,
    rest: &[u8],
) -> Result<((Ask, Given), &[u8]), ReadFault>
    ensures { Gives (λ x. (x.0, x.1.now)) result (behind_given tag rest.now) }
{
    match tag {
        GivenTag::Number => read_time(rest),
        GivenTag::Word => {
            let (word, rest) = read_number(rest)?;
            Ok(((Ask::Word, Given::Word(word)), rest))
        }
        GivenTag::Line => read_line(alloc, rest),
        GivenTag::End => Ok(((Ask::Line, Given::End), rest)),
        GivenTag::Failed => read_failed(rest),
    }
}

#[tactic(auto, unfolding(crate::specs::RecordReading::given_at))]
fn read_given(alloc: Global, bytes: &[u8]) -> Result<((Ask, Given), &[u8]), ReadFault>
    ensures { Gives (λ x. (x.0, x.1.now)) result (given_at bytes.now) }
{
    let [b, rest @ ..] = bytes else {
        return Err(ReadFault::Bad);
    };
    match given_tag(*b) {
        None => Err(ReadFault::Bad),
        Some(tag) => given_behind(alloc, tag, rest),
    }
}

// The number of an asking.
#[tactic(auto, unfolding(crate::specs::RecordReading::asking_at))]
fn read_asking(bytes: &[u8]) -> Result<(u32, &[u8]), ReadFault>
    ensures { Gives (λ x. (x.0, x.1.now)) result (asking_at bytes.now) }
{
    let (k, rest) = read_short(bytes)?;
    if k == 0 {
        return Err(ReadFault::Bad);
    }
    Ok((k, rest))
}

#[tactic(auto, unfolding(crate::specs::RecordReading::answer_at))]
fn read_answer(alloc: Global, bytes: &[u8]) -> Result<(Asked, &[u8]), ReadFault>
    ensures { Gives (λ x. (x.0, x.1.now)) result (answer_at bytes.now) }
{
    let (at, rest) = read_place(bytes)?;
    let (k, rest) = read_asking(rest)?;
    let ((what, given), rest) = read_given(alloc, rest)?;
    Ok((Asked { at, k, what, given }, rest))
}

// Whether an answer stands before another: by line, on one line by column, and at one place by number.
fn is_earlier(a: &Asked, b: &Asked) -> bool
    ensures { result ≡ is_earlier_answer a.now b.now }
{
    a.at.line < b.at.line
        || a.at.line == b.at.line && (a.at.col < b.at.col || a.at.col == b.at.col && a.k < b.k)
}

fn is_next_answer(before: &[Asked], asked: &Asked) -> bool
    ensures { result ≡ is_next is_earlier_answer before.now asked.now }
{
    match before.last() {
        None => true,
        Some(last) => is_earlier(last, asked),
    }
}

/// The answer at the front, which stands behind those before.
#[tactic(auto, unfolding(crate::specs::RecordReading::next_answer))]
pub(crate) fn next_answer<'a>(
    alloc: Global,
    before: &[Asked],
    bytes: &'a [u8],
) -> Result<(Asked, &'a [u8]), ReadFault>
    ensures { Gives (λ x. (x.0, x.1.now)) result (next_answer_at before.now bytes.now) }
{
    let (asked, rest) = read_answer(alloc, bytes)?;
    if !is_next_answer(before, &asked) {
        return Err(ReadFault::Bad);
    }
    Ok((asked, rest))
}

// What was found, of which the first byte was read.
#[tactic(auto, unfolding(crate::specs::RecordReading::found_behind))]
fn found_behind(tag: FoundTag, rest: &[u8]) -> Result<(FoundRecord, &[u8]), ReadFault>
    ensures { Gives (λ x. (x.0, x.1.now)) result (behind_found tag rest.now) }
{
    match tag {
        FoundTag::Content => {
            let (digest, rest) = read_digest(rest)?;
            Ok((FoundRecord::Content(digest), rest))
        }
        FoundTag::Absent => Ok((FoundRecord::Absent, rest)),
        FoundTag::TooLarge => Ok((FoundRecord::TooLarge, rest)),
        FoundTag::Failed => Ok((FoundRecord::Failed, rest)),
    }
}

#[tactic(auto, unfolding(crate::specs::RecordReading::found_at))]
fn read_found(bytes: &[u8]) -> Result<(FoundRecord, &[u8]), ReadFault>
    ensures { Gives (λ x. (x.0, x.1.now)) result (found_at bytes.now) }
{
    let [b, rest @ ..] = bytes else {
        return Err(ReadFault::Bad);
    };
    match found_tag(*b) {
        None => Err(ReadFault::Bad),
        Some(tag) => found_behind(tag, rest),
    }
}

#[tactic(auto, unfolding(crate::specs::RecordReading::file_at))]
fn read_file(alloc: Global, bytes: &[u8]) -> Result<(FileRecord, &[u8]), ReadFault>
    ensures { Gives (λ x. (x.0, x.1.now)) result (file_at bytes.now) }
{
    let (path, rest) = read_path(alloc, bytes)?;
    let (found, rest) = read_found(rest)?;
    Ok((FileRecord { path, found }, rest))
}

// Whether the path of a file stands before that of another, byte by byte.
fn is_ahead(file: &FileRecord, other: &FileRecord) -> bool
    ensures { result ≡ is_ahead_file file.now other.now }
{
    file.path.as_str().cmp(other.path.as_str()).is_lt()
}

fn is_next_file(before: &[FileRecord], file: &FileRecord) -> bool
    ensures { result ≡ is_next is_ahead_file before.now file.now }
{
    match before.last() {
        None => true,
        Some(last) => is_ahead(last, file),
    }
}

/// The file at the front, of which the path stands behind those before.
#[tactic(auto, unfolding(crate::specs::RecordReading::next_file))]
pub(crate) fn next_file<'a>(
    alloc: Global,
    before: &[FileRecord],
    bytes: &'a [u8],
) -> Result<(FileRecord, &'a [u8]), ReadFault>
    ensures { Gives (λ x. (x.0, x.1.now)) result (next_file_at before.now bytes.now) }
{
    let (file, rest) = read_file(alloc, bytes)?;
    if !is_next_file(before, &file) {
        return Err(ReadFault::Bad);
    }
    Ok((file, rest))
}

#[tactic(auto, unfolding(crate::specs::RecordReading::final_at))]
fn read_final(alloc: Global, bytes: &[u8]) -> Result<(FinalRecord, &[u8]), ReadFault>
    ensures { Gives (λ x. (x.0, x.1.now)) result (final_at bytes.now) }
{
    let (path, rest) = read_path(alloc, bytes)?;
    let (digest, rest) = read_digest(rest)?;
    Ok((FinalRecord { path, digest }, rest))
}

// Whether a file of this path is among these.
fn is_final(finals: &[FinalRecord], path: &str) -> bool
    ensures { result ≡ is_final_path finals.now path.now }
{
    finals.iter().any(|other| path == other.path.as_str())
}

/// The final file at the front, of which the path is none of those before.
#[tactic(auto, unfolding(crate::specs::RecordReading::next_final))]
pub(crate) fn next_final<'a>(
    alloc: Global,
    before: &[FinalRecord],
    bytes: &'a [u8],
) -> Result<(FinalRecord, &'a [u8]), ReadFault>
    ensures { Gives (λ x. (x.0, x.1.now)) result (next_final_at before.now bytes.now) }
{
    let (written, rest) = read_final(alloc, bytes)?;
    if is_final(before, written.path.as_str()) {
        return Err(ReadFault::Bad);
    }
    Ok((written, rest))
}
