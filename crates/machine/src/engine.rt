// Step and Run: the accesses of a thread's call, one after the other, and the call's end.
ghost use Rattle.std.specs.Prelude.{◌≡◌};
ghost use Rattle.machine.specs.Steps.{hop, hops, tell, advance};
ghost use Rattle.machine.specs.Entries.{reply_of};

use crate::seat::Seat;
use crate::{Machine, Reply};
use answer::{Answer, CallResult};
use cells::Tail;
use pairing::{Cursor, Supply};
use place::{After, Place};

// How the last of some steps went on, and how many there were.
#[derive(Clone, Copy)]
pub(crate) struct Hopped {
    pub after: After,
    pub steps: u32,
}

impl Machine {
    // One step: its access is made on the few cells that it reaches, and the thread moves on.
    #[tactic(auto, using(crate::proofs::Hops::hop_made))]
    fn hop(&mut self, at: Seat) -> After
        ensures machine { self.new ≡ (hop self.old at.number).machine }
        ensures after { result ≡ (hop self.old at.number).after }
    {
        let place = self.rows[at.number].place;
        let request = self.announcements[place.announcement()].request;
        let access = thread::access(place, request);
        let node = access.node();
        let other = access.announcement();
        let hit = memory::made(
            access,
            self.ends,
            self.links[node],
            self.announcements[other],
        );
        self.ends = hit.cells.ends;
        self.links[node] = hit.cells.link;
        self.announcements[other] = hit.cells.announcement;
        let after = thread::after(
            place,
            hit.found,
            request,
            self.rows[at.number].tally.dequeues,
        );
        self.rows[at.number].place = after.place();
        after
    }

    // At most `most` steps, to the end of the call; its results are not paired yet. Where all were taken, or none, the call goes
    // on at no place that counts: the definition `hops` says Idle.
    pub(crate) fn hops(&mut self, at: Seat, most: u32) -> Hopped
        ensures { hops most self.old at.number ≡ record { machine = self.new; after = result.after; steps = result.steps } }
    {
        for taken in 0..most {
            let after = self.hop(at);
            if !after.goes_on() {
                return Hopped {
                    after,
                    steps: taken + 1,
                };
            }
        }
        Hopped {
            after: After::On(Place::Idle),
            steps: most,
        }
    }

    // The answer after some steps. In the step that ends a batch's call its futures become done, and the
    // pending list and the tally are cleared.
    pub(crate) fn tell(&mut self, at: Seat, steps: u32, after: After) -> Reply
        ensures machine { self.new ≡ (tell self.old at.number steps after).machine }
        ensures reply { result ≡ reply_of (tell self.old at.number steps after) }
    {
        match after {
            After::On(_) => Reply::of(Answer::More, steps),
            After::Ok => Reply::of(Answer::Ended(CallResult::Ok), steps),
            After::Empty => Reply::of(Answer::Ended(CallResult::Empty), steps),
            After::Item(node) => {
                let item = self.items[(node % Tail::NODES) as usize];
                Reply::of(Answer::Ended(CallResult::Item(item)), steps)
            }
            After::Pair { from } => {
                let supply = Supply::Batch {
                    next: Some(self.rows[at.number].first),
                    none_left: false,
                };
                self.settle(at, steps, Cursor { at: from, supply })
            }
            After::PairDequeues { from, taken } => {
                let supply = Supply::Dequeues { left: taken };
                self.settle(at, steps, Cursor { at: from, supply })
            }
        }
    }

    // Run, accepted.
    #[tactic(auto, using(crate::proofs::Runs::advance_is_told))]
    pub(crate) fn advance(&mut self, at: Seat, most: u32) -> Reply
        ensures machine { self.new ≡ (advance self.old at.number most).machine }
        ensures reply { result ≡ reply_of (advance self.old at.number most) }
    {
        let ran = self.hops(at, most);
        self.tell(at, ran.steps, ran.after)
    }
}
