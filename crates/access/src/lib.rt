// The accesses that a step can make (01, "Steps": one step is one access), and which cells each reaches.
#![tactic(auto)]

ghost use Rattle.std.specs.Prelude.{◌≡◌, ◌<◌};
ghost use Rattle.access.specs.Reach.{node_of, announcement_of};

use cells::{Announcement, Front, Head, Tail};

// One access. A link is only ever compared with none and swapped.
#[derive(Clone, Copy)]
pub enum Access {
    ReadHead,
    ReadTail,
    ReadLink { node: u16 },
    ReadOldTail { of: u8 },
    CasLink { node: u16, to: u16 },
    CasTail { was: Tail, to: Tail },
    CasHead { was: Head, to: Front },
    WriteOldTail { of: u8, tail: Tail },
    Announce { own: u8, was: Front },
}

// The remainders make every access total; no reachable machine holds a node from 512 or an
// announcement from 64 on. Where an access reaches no link, or no announcement, the contract says 0, which an
// `Option` would not keep.
impl Access {
    // The node whose link the access reaches.
    #[tactic(auto, unfolding(crate::specs::Reach::node_of))]
    pub fn node(self) -> usize
        ensures { (result ≡ node_of self) × (result < 512) }
    {
        match self {
            Access::ReadLink { node } | Access::CasLink { node, .. } => {
                usize::from(node % Tail::NODES)
            }
            _ => 0,
        }
    }

    // The announcement that the access reaches.
    #[tactic(auto, unfolding(crate::specs::Reach::announcement_of))]
    pub fn announcement(self) -> usize
        ensures { (result ≡ announcement_of self) × (result < 64) }
    {
        match self {
            Access::ReadOldTail { of }
            | Access::WriteOldTail { of, .. }
            | Access::Announce { own: of, .. } => usize::from(of % Announcement::ANNOUNCEMENTS),
            _ => 0,
        }
    }
}
