// A doer that is made, answers rows, and comes to its end.
use answer_source::Source;
use capture::FileOut;
use case_operations::{Left, Runner, answer_rows_with, closed};
use op_parts::Parts;
use op_state::{Held, drop_held};
use prov_base::{Bytes, Memory, Name};
use prov_outside::{Console, Trouble};
use std::alloc::Global;

/// What is held at the end of a run.
struct Rest {
    held: Held,
}

impl Left for Rest {
    fn output(&self) -> &[u8] {
        self.held.output()
    }

    fn finals(&self, alloc: Global) -> Result<Vec<FileOut>, Memory> {
        self.held.finals(alloc)
    }

    fn let_go(self) {
        let Rest { held } = self;
        drop_held(held)
    }
}

/// What a doer holds, whose source is let go.
fn rest_of<S: Source + Drop>(parts: Parts<S>) -> Rest {
    let (held, _source) = parts.finish();
    Rest { held }
}

/// Answers rows, and writes the one that begins anew, which it gives back. The doer is let go.
fn over<C: Console, S: Source + Drop>(
    alloc: Global,
    console: &mut C,
    parts: Parts<S>,
) -> Result<Option<Bytes>, Trouble> {
    let (parts, next) = answer_rows_with(alloc, console, parts);
    closed(alloc, console, rest_of(parts), next)
}

/// Answers rows with doers of `op_parts`.
pub struct Sitting;

impl<C: Console> Runner<C> for Sitting {
    fn run<S: Source + Drop>(
        &self,
        alloc: Global,
        console: &mut C,
        arguments: &[Name],
        source: S,
    ) -> Result<Option<Bytes>, Trouble> {
        match Parts::new(alloc, "s.py", arguments, source) {
            Ok(parts) => over(alloc, console, parts),
            Err(_) => Err(Trouble::Memory),
        }
    }
}
