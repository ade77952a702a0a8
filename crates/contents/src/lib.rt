// Contents and depth (01, "Contents and order of effect").
#![tactic(auto)]

ghost use Rattle.std.specs.Prelude.{◌≡◌, ◌≤◌, length};
ghost use Rattle.contents.specs.Contents.{abstract_head, announced_head, head_to_be, walked, contents, chain_after, items_after, front_of, depth};
ghost use Rattle.lent.specs.Lent.{writing, written};

use cells::{Announcement, Front, Head, Request, Tail};
use machine::Machine;
use pairing::node_behind;
use place::RunStep;
use refusal::Refusal;
use tally::less;

// The node that so many links lead to from a node. The three walks of this file are loops of their own and no iterator: one goes
// so many steps, one to the end of the chain, one as far as there is room.
#[tactic(auto, unfolding(crate::specs::Contents::walked))]
fn walked(links: &[Option<u16>; Machine::NODES], from: u16, many: u32) -> u16
    ensures { result ≡ walked links.now from many }
{
    let mut at = from;
    for _step in 0..many {
        at = node_behind(links[(at % Tail::NODES) as usize], at);
    }
    at
}

// The head that a7 will set, once a batch is linked behind its old tail. `walk_to` answers one of the two steps; of the
// others the definition says 0. Request and old tail side by side, as in the definition.
fn head_to_be(links: &[Option<u16>; Machine::NODES], request: Request, old: Tail) -> u16
    ensures { result ≡ head_to_be links.now request old }
{
    match running::walk_to(request, old) {
        RunStep::A6 { rise: _, at, left } => walked(links, at, left),
        RunStep::A7 { rise: _, to } => to,
        _ => 0,
    }
}

// With an announcement in the head: the old head until the first node is linked, from then on the head
// that a7 will set. While the old tail is not written, the batch is linked where the tail's link leads
// to its first node.
fn announced_head(
    links: &[Option<u16>; Machine::NODES],
    tail: Tail,
    announcement: Announcement,
) -> u16
    ensures { result ≡ announced_head links.now tail announcement }
{
    let request = announcement.request;
    match announcement.old_tail {
        Some(old) => head_to_be(links, request, old),
        None => {
            if links[(tail.node % Tail::NODES) as usize] == Some(request.first) {
                return head_to_be(links, request, tail);
            }
            request.old_head.node
        }
    }
}

#[tactic(auto, unfolding(crate::specs::Contents::abstract_head))]
fn abstract_head(machine: &Machine) -> u16
    ensures { result ≡ abstract_head machine.now }
{
    match machine.ends.head {
        Head::Plain(front) => front.node,
        Head::Announced(a) => {
            let announcement = machine.announcements[(a % Announcement::ANNOUNCEMENTS) as usize];
            announced_head(&machine.links, machine.ends.tail, announcement)
        }
    }
}

// How many nodes stand behind a node.
#[tactic(auto, unfolding(crate::specs::Contents::chain_after))]
fn length_after(links: &[Option<u16>; Machine::NODES], node: u16) -> usize
    ensures { result ≡ length (chain_after 512 links.now node) }
{
    let mut at = node;
    for count in 0..Machine::NODES {
        match links[(at % Tail::NODES) as usize] {
            None => return count,
            Some(next) => at = next,
        }
    }
    Machine::NODES
}

// Writes the items of the nodes behind a node into `out`, which has as many places.
fn write_items(machine: &Machine, node: u16, out: &mut [u32])
    requires { length out.old ≡ length (items_after machine.now.links machine.now.items node) }
    ensures { out.new ≡ items_after machine.now.links machine.now.items node }
{
    let mut at = node;
    for place in out {
        at = node_behind(machine.links[(at % Tail::NODES) as usize], at);
        *place = machine.items[(at % Tail::NODES) as usize].value;
    }
}

// Writes what the queue holds at the start of `out`, oldest first. Refused, and `out` left as it is:
// NoRoom where it does not fit.
#[tactic(auto, unfolding(crate::specs::Contents::contents))]
pub fn write_to(machine: &Machine, out: &mut [u32]) -> Result<usize, Refusal>
    ensures { (result ≡ writing (contents machine.now) out.old) × (out.new ≡ written (contents machine.now) out.old) }
{
    let head = abstract_head(machine);
    let count = length_after(&machine.links, head);
    if out.len() < count {
        return Err(Refusal::NoRoom);
    }
    write_items(machine, head, &mut out[..count]);
    Ok(count)
}

// The same of a machine that is handed over: its promise may not go.
pub fn write(machine: Machine, out: &mut [u32]) -> Result<usize, Refusal>
    ensures { (result ≡ writing (contents machine) out.old) × (out.new ≡ written (contents machine) out.old) }
{
    write_to(&machine, out)
}

// The head, or the old head while an announcement is in it.
fn front_of(machine: &Machine) -> Front
    ensures { result ≡ front_of machine.now.ends.head machine.now.announcements }
{
    match machine.ends.head {
        Head::Plain(front) => front,
        Head::Announced(a) => {
            let announcement = machine.announcements[(a % Announcement::ANNOUNCEMENTS) as usize];
            announcement.request.old_head
        }
    }
}

// The tail's count less the head's, the old head's while an announcement is in the head; 0 where that
// is negative.
#[tactic(auto, unfolding(crate::specs::Contents::depth))]
pub fn depth_of(machine: &Machine) -> u32
    ensures { result ≡ depth machine.now }
{
    let front = front_of(machine);
    less(machine.ends.tail.count.0, front.count.0)
}

// The same of a machine that is handed over: its promise may not go.
pub fn depth(machine: Machine) -> u32
    ensures { result ≡ depth machine }
{
    depth_of(&machine)
}
