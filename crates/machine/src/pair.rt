// Pairing of a batch's results with its futures (listings 6 and 8), part of the step that ends the call.
ghost use Rattle.std.specs.Prelude.{◌≡◌};
ghost use Rattle.machine.specs.Pairing.{around, pairing, settled};
ghost use Rattle.machine.specs.Entries.{reply_of};

use crate::seat::Seat;
use crate::{Machine, Reply};
use answer::Future;
use cells::Tail;
use pairing::{Around, Cursor};
use row::Row;

impl Machine {
    // The futures of a row's pending calls become done, in calling order.
    fn pair(&mut self, at: Seat, start: Cursor)
        ensures { self.new ≡ pairing self.old at.number start }
    {
        let row = self.rows[at.number];
        let count = (row.count % Row::COUNTS) as usize;
        let mut cursor = start;
        for pending in &row.pending[..count] {
            let future = usize::from(*pending % Future::FUTURES);
            let around = self.around(cursor, row.last);
            let paid = cursor.pay(self.futures[future].operation, around);
            self.futures[future].outcome = Some(paid.result);
            cursor = paid.cursor;
        }
    }

    // What a turn of the pairing reads.
    fn around(&self, cursor: Cursor, last: u16) -> Around
        ensures { result ≡ around self.now.links self.now.items last cursor }
    {
        let behind = self.links[(cursor.at % Tail::NODES) as usize];
        let node = pairing::node_behind(behind, cursor.at);
        Around {
            behind,
            node,
            item: self.items[(node % Tail::NODES) as usize],
            behind_next: self.links[(cursor.next_node() % Tail::NODES) as usize],
            last,
        }
    }

    // The end of a batch's call: paired, the row cleared, the answer that of the future that was asked for.
    #[tactic(auto, unfolding(crate::specs::Pairing::settled, crate::specs::Pairing::pairing))]
    pub(crate) fn settle(&mut self, at: Seat, steps: u32, start: Cursor) -> Reply
        ensures machine { self.new ≡ (settled self.old at.number steps start).machine }
        ensures reply { result ≡ reply_of (settled self.old at.number steps start) }
    {
        self.pair(at, start);
        let asked = self.rows[at.number].future % Future::FUTURES;
        self.rows[at.number].clear();
        Reply::of(self.futures[usize::from(asked)].answer(), steps)
    }
}
