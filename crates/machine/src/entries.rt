// The entries of 01: one verdict by the refusal table, and what an accepted entry starts.
ghost use Rattle.std.specs.Prelude.{◌≡◌};
ghost use Rattle.machine.specs.Entries.{linked_behind, defer_enqueue, defer_dequeue, announced, set_off, start_enqueue, start_dequeue, apply, reply_of, asked, accepted};
ghost use Rattle.machine.specs.State.{row_at};
ghost use Rattle.next.specs.Next.{next_future};

use crate::seat::Seat;
use crate::{Machine, Reply, Told};
use answer::{Answer, CallResult, Item, Operation};
use cells::Tail;
use entry::Entry;
use next::Used;
use place::{BatchStep, DequeueStep, DequeuesStep, EnqueueStep, Place};

// What an entry starts. `at` is the thread's place among the rows.
impl Machine {
    // A pending enqueue's node stands behind the one before it, where there is one.
    #[tactic(auto, unfolding(crate::specs::Entries::linked_behind))]
    fn link_behind(&mut self, at: Seat, node: u16)
        ensures { self.new ≡ linked_behind self.old (row_at self.old at.number) node }
    {
        if self.rows[at.number].tally.enqueues != 0 {
            let last = self.rows[at.number].last % Tail::NODES;
            self.links[usize::from(last)] = Some(node);
        }
    }

    // FutureEnqueue: a node, a future and a pending place.
    #[tactic(auto, unfolding(crate::specs::Entries::defer_enqueue, crate::specs::Entries::linked_behind))]
    fn defer_enqueue(&mut self, at: Seat, item: Item) -> u16
        ensures future { result ≡ next_future self.old.used }
        ensures machine { self.new ≡ defer_enqueue self.old at.number item }
    {
        let node = self.hand_out_node(item);
        self.link_behind(at, node);
        let future = self.hand_out_future(at.number as u8, Operation::Enqueue);
        self.rows[at.number].push_enqueue(future, node);
        future
    }

    // FutureDequeue: a future and a pending place.
    #[tactic(auto, unfolding(crate::specs::Entries::defer_dequeue))]
    fn defer_dequeue(&mut self, at: Seat) -> u16
        ensures future { result ≡ next_future self.old.used }
        ensures machine { self.new ≡ defer_dequeue self.old at.number }
    {
        let future = self.hand_out_future(at.number as u8, Operation::Dequeue);
        self.rows[at.number].push_dequeue(future);
        future
    }

    // A batch with an enqueue is handed its announcement.
    fn announce(&mut self, at: Seat, future: u16)
        ensures { self.new ≡ announced self.old at.number (row_at self.old at.number) future }
    {
        let own = self.hand_out_announcement(self.rows[at.number].request());
        self.rows[at.number].call(Place::Batch(own, BatchStep::B1), future);
    }

    // Evaluate of a future that is not done: the whole pending list is set off as a batch.
    #[tactic(auto, unfolding(crate::specs::Entries::set_off))]
    fn set_off(&mut self, at: Seat, future: u16)
        ensures { self.new ≡ set_off self.old at.number future }
    {
        if self.rows[at.number].tally.enqueues == 0 {
            self.rows[at.number].call(Place::Dequeues(DequeuesStep::Q1), future);
        } else {
            self.announce(at, future);
        }
    }

    // Enqueue, accepted.
    #[tactic(auto, unfolding(crate::specs::Entries::start_enqueue))]
    fn start_enqueue(&mut self, at: Seat, item: Item)
        ensures { self.new ≡ start_enqueue self.old at.number item }
    {
        if self.rows[at.number].count == 0 {
            let node = self.hand_out_node(item);
            self.rows[at.number].place = Place::Enqueue(node, EnqueueStep::E1);
        } else {
            let future = self.defer_enqueue(at, item);
            self.set_off(at, future);
        }
    }

    // Dequeue, accepted.
    #[tactic(auto, unfolding(crate::specs::Entries::start_dequeue))]
    fn start_dequeue(&mut self, at: Seat)
        ensures { self.new ≡ start_dequeue self.old at.number }
    {
        if self.rows[at.number].count == 0 {
            self.rows[at.number].place = Place::Dequeue(DequeueStep::D1);
        } else {
            let future = self.defer_dequeue(at);
            self.set_off(at, future);
        }
    }

    // Evaluate of the thread's own future: its result at once where it is done.
    #[tactic(auto, unfolding(crate::specs::Entries::asked))]
    fn evaluate_own(&mut self, at: Seat, future: u16, outcome: Option<CallResult>) -> Reply
        ensures machine { self.new ≡ (asked self.old at.number future outcome).machine }
        ensures reply { result ≡ reply_of (asked self.old at.number future outcome) }
    {
        match outcome {
            None => {
                self.set_off(at, future);
                Reply::of(Answer::Started, 0)
            }
            Some(result) => Reply::of(Answer::Ended(result), 0),
        }
    }

    // An entry that was accepted; it can't refuse any more. `outcome` is that of the future that Evaluate names.
    #[tactic(auto, unfolding(crate::specs::Entries::accepted))]
    fn accepted(&mut self, at: Seat, entry: Entry, outcome: Option<CallResult>) -> Reply
        ensures machine { self.new ≡ (accepted self.old at.number entry outcome).machine }
        ensures reply { result ≡ reply_of (accepted self.old at.number entry outcome) }
    {
        match entry {
            Entry::Enqueue { thread: _, item } => {
                self.start_enqueue(at, Item { value: item });
                Reply::of(Answer::Started, 0)
            }
            Entry::Dequeue { thread: _ } => {
                self.start_dequeue(at);
                Reply::of(Answer::Started, 0)
            }
            Entry::FutureEnqueue { thread: _, item } => {
                let future = self.defer_enqueue(at, Item { value: item });
                Reply::of(Answer::Future(u32::from(future)), 0)
            }
            Entry::FutureDequeue { thread: _ } => {
                let future = self.defer_dequeue(at);
                Reply::of(Answer::Future(u32::from(future)), 0)
            }
            Entry::Evaluate { thread: _, future } => {
                self.evaluate_own(at, (future % Used::FUTURES) as u16, outcome)
            }
            Entry::Step { thread: _ } => self.advance(at, 1),
            Entry::Run { thread: _, steps } => self.advance(at, steps),
        }
    }

    // One entry: it answers as 01's table says, or is refused with the machine unchanged.
    #[tactic(auto, using(crate::proofs::Decided::entry_decided), unfolding(crate::specs::Entries::decided))]
    pub fn enter(&mut self, entry: Entry) -> Reply
        ensures reply { result ≡ reply_of (apply self.old entry) }
        ensures machine { self.new ≡ (apply self.old entry).machine }
    {
        let at = Seat::of(entry.thread());
        let asked = self.futures[(entry.future() % Used::FUTURES) as usize];
        let verdict = refuse::verdict(
            entry,
            self.threads,
            self.nodes,
            self.used,
            self.rows[at.number],
            asked,
        );
        match verdict {
            Err(refusal) => Reply {
                answer: Err(refusal),
                steps: 0,
            },
            Ok(()) => self.accepted(at, entry, asked.outcome),
        }
    }

    // The machine after one entry, and what the entry answers: by value, for its promise may not go.
    pub fn apply(mut self, entry: Entry) -> Told
        ensures { result ≡ apply self entry }
    {
        let reply = self.enter(entry);
        Told {
            machine: self,
            answer: reply.answer,
            steps: reply.steps,
        }
    }
}
