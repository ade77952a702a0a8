// A head that was read, at e4, d1, b1 or q1.
ghost use Rattle.thread.specs.Met.{Met};

use cells::{Front, Head};
use place::{After, Place, Resume, RunStep};

// An announcement that is met is run, and then the call goes back; past a plain head it goes on to a place.
pub(crate) fn met<F: FnOnce(Front) -> Place>(head: Head, resume: Resume, plain: F) -> After
    requires { F.IsAlwaysCallable plain }
    ensures { Met (F.post plain) resume head result }
{
    match head {
        Head::Plain(front) => After::On(plain(front)),
        Head::Announced(a) => After::On(Place::Running(a, RunStep::A1, resume)),
    }
}
