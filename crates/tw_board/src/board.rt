//! The board and its ends.

ghost use Rattle.std.specs.Prelude.{◌≡◌, IfOk};
ghost use Rattle.tw_vtime.specs.Stamps.{IsStamp};
ghost use Rattle.tw_theory.specs.Board.{AtMost, IsMet, nothing_posted, posted_after};
ghost use Rattle.tw_board.specs.Known.{Known};

use crate::rule::{
    Enters, FindsCommitted, FindsGvt, Greatest, Notes, PostsCommitted, PostsGvt, SeesCommitted,
    SeesGvt, Shown, Told, View,
};
use atomic_table::{Seat, Table};
use std::alloc::{AllocError, Global};
use std::marker::Model;
use std::sync::Arc;
use tw_vtime::Stamp;

/// The two words.
type Words = Table<u8, View, (), Greatest, Global>;

/// The place of the word of global virtual time.
const GVT: usize = 0;

/// The place of the word of committed records.
const COMMITTED: usize = 1;

/// A board: global virtual time and a count of records, which one publisher posts and readers see while a run goes
/// on. This value makes its readers. Contracts see which board it is.
#[derive(Drop)]
pub struct Board {
    table: Arc<Words>,
}

impl Model for Board {
    ghost use Rattle.std.specs.Prelude.{◌≡◌};
    ghost use Rattle.std.specs.Arc.{arc_value};
    ghost use Rattle.atomic_table.specs.Seated.{TableId, table_id_coded};

    ghost Value = { TableId };

    ghost coded = { table_id_coded };

    ghost view = { λ b. (arc_value b.table).shared.table_id };

    ghost invariant = { λ b. (arc_value b.table).shared.table_id.words ≡ 2 };
}

/// The one end of a board that posts. Contracts see which board it is of, and the greatest numbers that it has
/// posted, 0.0.0 and 0 before any.
#[derive(Drop)]
pub struct Publisher {
    table: Arc<Words>,
    seat: Seat<u8, View>,
}

impl Model for Publisher {
    ghost use Rattle.std.specs.Prelude.{◌≡◌, true};
    ghost use Rattle.std.specs.Arc.{arc_value};
    ghost use Rattle.tw_board.specs.Known.{Known, known_coded};

    ghost Value = { Known };

    ghost coded = { known_coded };

    ghost view = { λ p. record { board = p.seat.table_id; numbers = (p.seat.me.0.gvt, p.seat.me.0.committed) } };

    ghost invariant = { λ p. (p.seat.table_id ≡ (arc_value p.table).shared.table_id) × (p.seat.table_id.words ≡ 2) × (p.seat.me.0.posts ≡ true) };
}

/// An end of a board that looks. Contracts see which board it is of, and the greatest numbers that it has seen,
/// 0.0.0 and 0 before any.
#[derive(Drop)]
pub struct Reader {
    table: Arc<Words>,
    seat: Seat<u8, View>,
}

impl Model for Reader {
    ghost use Rattle.std.specs.Prelude.{◌≡◌, false};
    ghost use Rattle.std.specs.Arc.{arc_value};
    ghost use Rattle.tw_board.specs.Known.{Known, known_coded};

    ghost Value = { Known };

    ghost coded = { known_coded };

    ghost view = { λ r. record { board = r.seat.table_id; numbers = (r.seat.me.0.gvt, r.seat.me.0.committed) } };

    ghost invariant = { λ r. (r.seat.table_id ≡ (arc_value r.table).shared.table_id) × (r.seat.table_id.words ≡ 2) × (r.seat.me.0.posts ≡ false) };
}

/// The stamp of a number that stands on the board.
fn stamp_of(number: u64) -> Stamp
    requires { IsStamp number }
    ensures { result ≡ number }
{
    Stamp::unpack(number).unwrap()
}

impl Board {
    /// A board on which nothing was posted, and its one publisher: 0.0.0 and 0 records.
    ///
    /// Refused for want of memory alone (4).
    pub fn new(alloc: Global) -> Result<(Board, Publisher), AllocError>
        ensures { IfOk result (λ b. b.1 ≡ record { board = b.0; numbers = nothing_posted }) }
    {
        let (table, seat) = Words::of_words(alloc, &[0, 0], &())?;
        let table = Arc::new(alloc, table)?;
        let publisher = Publisher {
            table: table.clone()?,
            seat,
        };
        Ok((Board { table }, publisher))
    }

    /// A reader of this board that has seen nothing.
    ///
    /// Refused for want of memory alone (4).
    pub fn reader(&mut self) -> Result<Reader, AllocError>
        ensures board { self.new ≡ self.old }
        ensures reader { IfOk result (λ r. r ≡ record { board = self.old; numbers = nothing_posted }) }
    {
        let table = self.table.clone()?;
        let (_, seat) = table.shared.load_new_seat::<Enters>(GVT);
        Ok(Reader { table, seat })
    }
}

impl Publisher {
    /// Posts global virtual time and how many records are committed: each of the two on the board becomes the
    /// greater of what was posted and what is posted now. First the one, then the other, in one atomic step each.
    ///
    /// It takes no memory and waits for nobody.
    pub fn post(&mut self, gvt: Stamp, committed: u64)
        ensures { self.new ≡ record { board = self.old.board; numbers = posted_after self.old.numbers (gvt, committed) } }
    {
        let number = gvt.pack();
        self.table
            .shared
            .fetch_max::<PostsGvt>(&mut self.seat, GVT, number);
        self.table
            .shared
            .fetch_max::<PostsCommitted>(&mut self.seat, COMMITTED, committed);
    }
}

impl Reader {
    /// Global virtual time and how many records are committed, as they stand on the board: what it answers is what
    /// this reader has then seen, and neither is less than what it saw before. It looks at the one and then at the
    /// other, so a post may come in between.
    ///
    /// It takes no memory and waits for nobody.
    pub fn see(&mut self) -> (Stamp, u64)
        ensures seen { self.new ≡ record { board = self.old.board; numbers = result } }
        ensures rises { AtMost self.old.numbers result }
    {
        let number = self.table.shared.load::<SeesGvt>(&mut self.seat, GVT);
        let committed = self
            .table
            .shared
            .load::<SeesCommitted>(&mut self.seat, COMMITTED);
        (stamp_of(number), committed)
    }

    /// Exactly what the publisher has posted: the greatest global virtual time and the greatest count. The two ends
    /// must be of one board. This reader has then seen these numbers, and what it saw before was not above them.
    ///
    /// It takes no memory and waits for nobody.
    pub fn meet(&mut self, publisher: &mut Publisher) -> (Stamp, u64)
        requires { self.old.board ≡ publisher.old.board }
        ensures met { IsMet publisher.old.numbers self.old.numbers result }
        ensures seen { self.new ≡ record { board = self.old.board; numbers = result } }
        ensures publisher { publisher.new ≡ publisher.old }
    {
        let shared = &self.table.shared;
        let note = shared.split_seat::<Notes>(&mut self.seat);
        shared.join_seat::<Told>(&mut publisher.seat, note);
        let gvt = shared.load::<FindsGvt>(&mut publisher.seat, GVT);
        let committed = shared.load::<FindsCommitted>(&mut publisher.seat, COMMITTED);
        let note = shared.split_seat::<Notes>(&mut publisher.seat);
        shared.join_seat::<Shown>(&mut self.seat, note);
        (stamp_of(gvt), committed)
    }
}
