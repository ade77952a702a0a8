// Handing out a node, a future, an announcement: in number order, and each once. That one is left is
// tested before.
ghost use Rattle.std.specs.Prelude.{◌≡◌};
ghost use Rattle.machine.specs.HandOut.{hand_out_node, hand_out_future, hand_out_announcement};
ghost use Rattle.next.specs.Next.{next_node, next_future, next_announcement};

use crate::Machine;
use answer::{Future, Item, Operation};
use cells::{Announcement, Request};

impl Machine {
    // The node holds the item and no link.
    pub(crate) fn hand_out_node(&mut self, item: Item) -> u16
        ensures node { result ≡ next_node self.old.used }
        ensures machine { self.new ≡ hand_out_node self.old item }
    {
        let node = self.used.next_node();
        self.links[usize::from(node)] = None;
        self.items[usize::from(node)] = item;
        self.used.nodes = self.used.nodes.wrapping_add(1);
        node
    }

    // The future belongs to a thread and waits for its result.
    pub(crate) fn hand_out_future(&mut self, owner: u8, operation: Operation) -> u16
        ensures future { result ≡ next_future self.old.used }
        ensures machine { self.new ≡ hand_out_future self.old owner operation }
    {
        let future = self.used.next_future();
        self.futures[usize::from(future)] = Future {
            owner,
            operation,
            outcome: None,
        };
        self.used.futures = self.used.futures.wrapping_add(1);
        future
    }

    // The announcement has its request, and no old tail yet.
    pub(crate) fn hand_out_announcement(&mut self, request: Request) -> u8
        ensures announcement { result ≡ next_announcement self.old.used }
        ensures machine { self.new ≡ hand_out_announcement self.old request }
    {
        let announcement = self.used.next_announcement();
        self.announcements[usize::from(announcement)] = Announcement {
            request,
            old_tail: None,
        };
        self.used.announcements = self.used.announcements.wrapping_add(1);
        announcement
    }
}
