// The files that a run opened for writing.
ghost use Rattle.std.specs.Prelude.{◌≡◌, IfOk};
ghost use Rattle.std.specs.Prelude.{◌<◌, length};
ghost use Rattle.op_state.specs.Finals.{AreFinals, AreFilesOf, IsFileOf};
ghost use Rattle.op_work.specs.Work.{AreNamedPaths};

use crate::held::Held;
use crate::laws::holding_is_seen;
use capture::FileOut;
use op_work::Work;
use prov_base::{Bytes, Memory, Name};
use std::alloc::Global;

impl Held {
    /// What was printed.
    pub fn output(&self) -> &[u8]
        ensures { result.now ≡ self.now.output }
    {
        self.output.as_slice()
    }

    /// The files that were opened for writing, in order of first opening, each with its bytes. It fails where memory runs out, or where such a
    /// file is not there.
    pub fn finals(&self, alloc: Global) -> Result<Vec<FileOut>, Memory>
        ensures { IfOk result (λ files. AreFinals self.now files.items) }
    {
        holding_is_seen();
        files_of(&self.work, alloc, &self.opened)
    }
}

// Each of the files at these paths.
fn files_of(work: &Work, alloc: Global, paths: &[u32]) -> Result<Vec<FileOut>, Memory>
    requires { AreNamedPaths work.now.values paths.now }
    ensures { IfOk result (λ files. AreFilesOf work.now paths.now files.items) }
{
    let mut files = Vec::new(alloc);
    for path in paths.iter() {
        let file = file_of(work, alloc, *path)?;
        files.push(file)?;
    }
    Ok(files)
}

// The file at a path.
fn file_of(work: &Work, alloc: Global, path: u32) -> Result<FileOut, Memory>
    requires { path < length work.now.values.texts }
    ensures { IfOk result (IsFileOf work.now path) }
{
    let Some(bytes) = work.file(path) else {
        return Err(Memory);
    };
    let name = String::from_str(alloc, work.text_of(path))?;
    let bytes = Vec::from_slice(alloc, bytes)?;
    Ok(FileOut {
        path: Name::of(name),
        bytes: Bytes::of(bytes),
    })
}
