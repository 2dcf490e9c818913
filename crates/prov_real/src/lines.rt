// Lines out of a source that gives pieces. What was read beyond a line is kept for the next one, and what was read
// before a refusal is kept for the next call. That bytes which lines took are let go, and that no byte is searched
// twice, is for memory and time alone: no clause speaks of it.
ghost use Rattle.std.specs.Prelude.{◌≡◌, ◌≤◌, [], length, IfOk, IfSome, OnOk};
ghost use Rattle.std.specs.Io.KnownBytes.{Keeps, prepend_known};
ghost use Rattle.prov_real.specs.Lines.{IsLine, ReadsLine, WhereKnown, GivesWholeLine, GivesLastLine, IsLineFeed, Grows};

use prov_base::Bytes;
use prov_outside::Trouble;
use std::alloc::Global;
use std::io::Read;
use std::marker::Model;
use std::mem;

const LF: u8 = b'\n';

const LONGEST_LINE: usize = 1_048_576;

const CHUNK: usize = 4096;

/// The bytes that were read of a source and that no line has taken yet, seen as their list. They are few: a line that
/// is too long already is not read on.
#[derive(Drop)]
pub struct Unread {
    bytes: Vec<u8>,
    // Lines took the bytes before this place.
    start: usize,
    // So many bytes from there on were found to hold no LF.
    searched: usize,
}

impl Model for Unread {
    ghost use Rattle.std.specs.Prelude.{List, ℕ, drop};
    ghost use Rattle.prov_real.specs.Lines.{IsSearched};

    ghost Value = { List ℕ };

    ghost view = { λ u. drop u.start u.bytes.items };

    ghost invariant = { λ u. IsSearched u.bytes.items u.start u.searched };
}

impl Unread {
    /// Nothing was read so far. It takes no memory.
    pub fn new(alloc: Global) -> Unread
        ensures { result ≡ [] }
    {
        Unread {
            bytes: Vec::new(alloc),
            start: 0,
            searched: 0,
        }
    }

    /// The next line without its LF, or `None` at the end of the source, which is where it gives nothing. The last
    /// line may lack its LF, and is a line where it is not empty. A line of more than 1,048,576 bytes is a fault, and
    /// stays in front. After an `Err` no byte is lost.
    pub fn next_line<R: Read>(
        &mut self,
        alloc: Global,
        source: &mut R,
    ) -> Result<Option<Bytes>, Trouble>
        ensures line { WhereKnown (prepend_known self.old (R.remaining source.old))
            (prepend_known self.new (R.remaining source.new)) (ReadsLine result) }
        ensures length { IfOk result (λ line. IfSome line (λ bytes. length bytes ≤ LONGEST_LINE)) }
        ensures no_lf { IfOk result (λ line. IfSome line IsLine) }
    {
        loop {
            if let Some(line) = self.whole_line(alloc)? {
                return Ok(Some(line));
            }
            if !self.fill(source)? {
                return Ok(self.last_line(alloc));
            }
        }
    }

    /// The line whose LF was read already, or `None` where there is none.
    fn whole_line(&mut self, alloc: Global) -> Result<Option<Bytes>, Trouble>
        ensures { GivesWholeLine LONGEST_LINE result self.old self.new }
    {
        let unread = &self.bytes[self.start..];
        let Some(at) = line_feed(&unread[self.searched..]) else {
            self.searched = unread.len();
            return Ok(None);
        };
        let length = self.searched + at;
        if length > LONGEST_LINE {
            return Err(Trouble::Failed);
        }
        let line = Vec::from_slice(alloc, &unread[..length])?;
        self.start += length + 1;
        self.searched = 0;
        Ok(Some(Bytes::of(line)))
    }

    /// Reads on, and says whether the source gave anything. It refuses where the line is too long already.
    fn fill<R: Read>(&mut self, source: &mut R) -> Result<bool, Trouble>
        ensures kept { Keeps (prepend_known self.old (R.remaining source.old))
            (prepend_known self.new (R.remaining source.new)) }
        ensures more { IfOk result (Grows self.old self.new (R.remaining source.new)) }
        ensures length { OnOk result (length self.old ≤ LONGEST_LINE) }
    {
        if self.bytes.len() - self.start > LONGEST_LINE {
            return Err(Trouble::Failed);
        }
        self.compact();
        // The room comes first, so that what was read always finds a place.
        self.bytes.reserve(CHUNK)?;
        let mut chunk = [0u8; CHUNK];
        match source.read(&mut chunk) {
            Ok(count) => {
                self.bytes.extend_from_slice(&chunk[..count])?;
                Ok(count > 0)
            }
            Err(_) => Err(Trouble::Failed),
        }
    }

    /// Lets go of the bytes that lines took.
    fn compact(&mut self)
        ensures { self.new ≡ self.old }
    {
        self.bytes.drain(..self.start);
        self.start = 0;
    }

    /// All that is left, as the line at the end of a source, or `None` where nothing is left.
    fn last_line(&mut self, alloc: Global) -> Option<Bytes>
        ensures { GivesLastLine result self.old self.new }
    {
        let mut line = mem::replace(&mut self.bytes, Vec::new(alloc));
        line.drain(..self.start);
        self.start = 0;
        self.searched = 0;
        if line.is_empty() {
            None
        } else {
            Some(Bytes::of(line))
        }
    }
}

/// Where the first LF stands.
fn line_feed(bytes: &[u8]) -> Option<usize>
    ensures { IsLineFeed bytes.now result }
{
    bytes.iter().position(|byte| *byte == LF)
}
