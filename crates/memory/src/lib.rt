// Shared memory, and the one access that a step makes of it (01, "Steps": one step is one access). A thread
// never touches a cell: it says which access it makes, and `made` makes it.
#![tactic(auto)]

ghost use Rattle.std.specs.Prelude.{◌≡◌};
ghost use Rattle.memory.specs.Made.{on, cas_link, cas_tail, cas_head, write_old_tail, announce};

use access::Access;
use cells::{Announcement, Ends, Front, Head, Tail};
use found::Found;

// The cells that one access can reach: both ends, one link, one announcement.
#[derive(Clone, Copy)]
pub struct Cells {
    pub ends: Ends,
    pub link: Option<u16>,
    pub announcement: Announcement,
}

#[derive(Clone, Copy)]
pub struct Hit {
    pub cells: Cells,
    pub found: Found,
}

// The access made on the cells that it reaches.
pub fn made(access: Access, ends: Ends, link: Option<u16>, announcement: Announcement) -> Hit
    ensures { result ≡ on access (record { ends = ends; link = link; announcement = announcement }) }
{
    let mut cells = Cells {
        ends,
        link,
        announcement,
    };
    let found = cells.make(access);
    Hit { cells, found }
}

impl Cells {
    #[tactic(auto, unfolding(crate::specs::Made::on))]
    fn make(&mut self, access: Access) -> Found
        ensures cells { self.new ≡ (on access self.old).cells }
        ensures found { result ≡ (on access self.old).found }
    {
        match access {
            Access::ReadHead => Found::Head(self.ends.head),
            Access::ReadTail => Found::Tail(self.ends.tail),
            Access::ReadLink { .. } => Found::Link(self.link),
            Access::ReadOldTail { .. } => Found::OldTail(self.announcement.old_tail),
            Access::CasLink { to, .. } => Found::Link(self.cas_link(to)),
            Access::CasTail { was, to } => Found::Taken(self.cas_tail(was, to)),
            Access::CasHead { was, to } => Found::Taken(self.cas_head(was, Head::Plain(to))),
            Access::WriteOldTail { tail, .. } => Found::Taken(self.write_old_tail(tail)),
            Access::Announce { own, was } => Found::Taken(self.announce(own, was)),
        }
    }

    // The link found: taken where there was none.
    fn cas_link(&mut self, to: u16) -> Option<u16>
        ensures cells { self.new ≡ (cas_link self.old to self.old.link).cells }
        ensures found { Found.Link result ≡ (cas_link self.old to self.old.link).found }
    {
        let found = self.link;
        if found.is_none() {
            self.link = Some(to);
        }
        found
    }

    fn cas_tail(&mut self, was: Tail, to: Tail) -> bool
        ensures cells { self.new ≡ (cas_tail self.old was to).cells }
        ensures found { Found.Taken result ≡ (cas_tail self.old was to).found }
    {
        let taken = self.ends.tail.same(was);
        if taken {
            self.ends.tail = to;
        }
        taken
    }

    fn cas_head(&mut self, was: Head, to: Head) -> bool
        ensures cells { self.new ≡ (cas_head self.old was to).cells }
        ensures found { Found.Taken result ≡ (cas_head self.old was to).found }
    {
        let taken = self.ends.head.same(was);
        if taken {
            self.ends.head = to;
        }
        taken
    }

    // A write is taken always.
    fn write_old_tail(&mut self, tail: Tail) -> bool
        ensures cells { self.new ≡ (write_old_tail self.old tail).cells }
        ensures found { Found.Taken result ≡ (write_old_tail self.old tail).found }
    {
        self.announcement.old_tail = Some(tail);
        true
    }

    // b2, the one access with two cells: the own announcement's old head, which nobody else can see
    // yet, and the head.
    fn announce(&mut self, own: u8, was: Front) -> bool
        ensures cells { self.new ≡ (announce self.old own was).cells }
        ensures found { Found.Taken result ≡ (announce self.old own was).found }
    {
        self.announcement.request.old_head = was;
        self.cas_head(Head::Plain(was), Head::Announced(own))
    }
}
