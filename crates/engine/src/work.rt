// The work buffer cleared after a run.
// Not here: what a run does in it (evaluator).
ghost use Rattle.std.specs.Prelude.{◌≤◌, ◌≡◌, length};
ghost use Rattle.cofj.specs.Limits.{work_size};
ghost use Rattle.cofj.specs.Calls.{cleared};

use crate::session::WORK;

// The first bytes, as many as a run is lent, become zero, the others stay.
pub(crate) fn clear(work: &mut [u8])
    requires { work_size ≤ length work.old }
    ensures { work.new ≡ cleared work.old }
{
    work[..WORK].fill(0);
}
