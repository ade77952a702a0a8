// A step of a thread (01, "Steps"): which access it makes at its place, and how it goes on with what the
// access found. Nothing here touches memory; that is how one step stays one access.
//
// A file for each of 01's four kinds of call, each with `access` and `after`; running an announcement is a
// crate of its own, `running`. Which step is taken is a match, as in the definitions: each has data of its own, which a table of
// closures would have to be handed.
#![tactic(auto)]

pub mod batch;
pub mod dequeue;
pub mod dequeues;
pub mod enqueue;
pub(crate) mod met;

ghost use Rattle.std.specs.Prelude.{◌≡◌};
ghost use Rattle.thread.specs.Calls.{access, after};

use access::Access;
use cells::Request;
use found::Found;
use place::{After, Place};

// The access of the next step, where the request is that of the announcement that is run. An idle
// thread takes no step; its access has no meaning, and is the one that the definition names.
pub fn access(place: Place, request: Request) -> Access
    ensures { result ≡ access place request }
{
    match place {
        Place::Idle => Access::ReadHead,
        Place::Enqueue(node, step) => enqueue::access(step, node),
        Place::Dequeue(step) => dequeue::access(step),
        Place::Batch(own, step) => batch::access(step, own),
        Place::Dequeues(step) => dequeues::access(step),
        Place::Running(a, step, _) => running::access(step, a, request),
    }
}

// How the call goes on with what that access found; `pending` is the count of pending dequeues.
pub fn after(place: Place, found: Found, request: Request, pending: u32) -> After
    ensures { result ≡ after place found request pending }
{
    match place {
        Place::Idle => After::On(Place::Idle),
        Place::Enqueue(node, step) => enqueue::after(step, node, found),
        Place::Dequeue(step) => dequeue::after(step, found),
        Place::Batch(own, step) => batch::after(step, own, found),
        Place::Dequeues(step) => dequeues::after(step, found, pending),
        Place::Running(a, step, resume) => running::after(step, a, found, request, resume),
    }
}
