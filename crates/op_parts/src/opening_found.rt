// Openings of files.
ghost use Rattle.std.specs.Prelude.{◌≡◌, ◌<◌, map, length, option_copied, IfSome};
ghost use Rattle.op_parts.specs.Files.{is_told as is_known_to_be, FinishesAt};
ghost use Rattle.op_devices.specs.Asking.{Known, answered_by};
ghost use Rattle.op_devices.specs.Opening.{path_in, IsOpened};
ghost use Rattle.op_state.specs.Held.{begun};
ghost use Rattle.op_work.specs.Work.{Extends};
ghost use Rattle.py_model.specs.Files.{open_plan};
ghost use Rattle.py_value.specs.Contents.{contents};
ghost use Rattle.py_value.specs.Values.{AreNamed};

use op_state::{Held, begin};
use prov_base::Memory;
use prov_outside::Found;
use py_model::Deed;
use py_value::Value;
use std::alloc::Global;

/// The path that an opening with these operands asks of, by the number of its text.
pub fn path_asked(held: &Held, operands: &[Value]) -> Option<u32>
    requires { AreNamed held.now.work.values operands.now }
    ensures path { result ≡ path_in held.now.work.values operands.now }
    ensures named { IfSome result (λ path. path < length held.now.work.values.texts) }
{
    op_devices::path_asked(&held.work, operands)
}

/// `open`, with so many steps left: by whether the run opened the path for writing, and by what was found there if not. It is none where it
/// costs more. A path of which nothing is known is answered as out of memory.
pub fn open_found(
    held: &mut Held,
    alloc: Global,
    operands: &[Value],
    opened: bool,
    found: Option<&Found>,
    left: u32,
) -> Result<Option<Deed>, Memory>
    requires named { AreNamed held.old.work.values operands.now }
    requires some { 0 < left }
    ensures finishes { (k : Known) → IsOpened k held.old.work.values (path_in held.old.work.values operands.now) opened (option_copied found.entry)
        → FinishesAt (path_in held.old.work.values operands.now) (λ table. answered_by k (open_plan (map (contents table) operands.now))) (record held.old { work = begun left held.old.work }) held.new result }
    ensures extends { Extends held.old.work.values held.new.work.values }
{
    if !is_told(op_devices::path_asked(&held.work, operands), opened, found) {
        return Err(Memory);
    }
    begin(&mut held.work, left);
    let answer = op_devices::open(&mut held.work, alloc, operands, opened, found);
    held.end(alloc, answer)
}

// Whether it is known of a path that it was opened, or what was found there.
fn is_told(path: Option<u32>, opened: bool, found: Option<&Found>) -> bool
    ensures { result ≡ is_known_to_be path opened (option_copied found.entry) }
{
    match path {
        Some(_) => opened || found.is_some(),
        None => true,
    }
}
