// An operation begins.
ghost use Rattle.std.specs.Prelude.{◌≡◌, ◌<◌};
ghost use Rattle.op_state.specs.Held.{begun};

use op_work::Work;

/// An operation begins, with so many steps left.
pub fn begin(work: &mut Work, left: u32)
    requires { 0 < left }
    ensures { work.new ≡ begun left work.old }
{
    let _ = work.begin(left);
}
