// What has been handed out, and the number that comes next.
#![tactic(auto)]

ghost use Rattle.std.specs.Prelude.{◌≡◌, ◌<◌, ◌≤◌, ◌%◌};
ghost use Rattle.next.specs.Next.{next_node, next_future, next_announcement};

// How many nodes, futures and announcements have been handed out.
#[derive(Clone, Copy)]
pub struct Used {
    pub nodes: u32,
    pub futures: u32,
    pub announcements: u32,
}

// The number that is handed out next. The remainders make it total: one that is not left is refused. Three names: each counts
// by a field of its own, the last answers a `u8`, and the definitions of the same names stand.
impl Used {
    pub const NODES: u32 = 512;

    pub const FUTURES: u32 = 512;

    pub const ANNOUNCEMENTS: u32 = 64;

    pub fn next_node(self) -> u16
        ensures { result ≡ next_node self }
    {
        number::<{ Used::NODES }>(self.nodes)
    }

    pub fn next_future(self) -> u16
        ensures { result ≡ next_future self }
    {
        number::<{ Used::FUTURES }>(self.futures)
    }

    pub fn next_announcement(self) -> u8
        ensures { result ≡ next_announcement self }
    {
        number::<{ Used::ANNOUNCEMENTS }>(self.announcements) as u8
    }
}

// The number that comes next of so many.
fn number<const MANY: u32>(used: u32) -> u16
    requires { (0 < MANY) × (MANY ≤ 512) }
    ensures { result ≡ used % MANY }
{
    (used % MANY) as u16
}
