//! The rule of the board's two words, and the kinds of step that keep it.
//!
//! Nothing here exists when the program runs: these types are names for the facts of `specs/Rule.antt`.

use atomic_table::{Join, Play, Split, TableRule};

/// What an end of the board knows: the greatest numbers that it has posted or seen, and, of the publisher, what a
/// reader told it. No value of it is ever made.
pub struct View {
    /// Whether this is the publisher.
    pub posts: bool,
    /// The packed number of the greatest stamp that it has posted or seen.
    pub gvt: u64,
    /// The greatest number of committed records that it has posted or seen.
    pub committed: u64,
    /// The packed number of the greatest stamp that a reader told it of.
    pub told_gvt: u64,
    /// The greatest number of committed records that a reader told it of.
    pub told_committed: u64,
}

/// Each word is the greatest number that was posted there, and nobody has seen a greater one.
pub struct Greatest;

impl TableRule<u8, View, ()> for Greatest {
    ghost use Rattle.std.specs.Prelude.{true};
    ghost use Rattle.tw_board.specs.Rule.{view, IsKept};

    ghost holds = { λ _. IsKept };

    ghost first = { λ _. view true 0 0 0 0 };
}

/// A reader's load of the word of global virtual time.
pub struct SeesGvt;

impl Play<u8, View> for SeesGvt {
    ghost use Rattle.tw_board.specs.Rule.{HasSeenGvt};

    ghost then = { λ _ v n w. HasSeenGvt v n w };
}

/// A reader's load of the word of committed records.
pub struct SeesCommitted;

impl Play<u8, View> for SeesCommitted {
    ghost use Rattle.tw_board.specs.Rule.{HasSeenCommitted};

    ghost then = { λ _ v n w. HasSeenCommitted v n w };
}

/// The publisher's load of the word of global virtual time.
pub struct FindsGvt;

impl Play<u8, View> for FindsGvt {
    ghost use Rattle.tw_board.specs.Rule.{HasFoundGvt};

    ghost then = { λ _ v n w. HasFoundGvt v n w };
}

/// The publisher's load of the word of committed records.
pub struct FindsCommitted;

impl Play<u8, View> for FindsCommitted {
    ghost use Rattle.tw_board.specs.Rule.{HasFoundCommitted};

    ghost then = { λ _ v n w. HasFoundCommitted v n w };
}

/// The publisher's post to the word of global virtual time.
pub struct PostsGvt;

impl Play<u8, View> for PostsGvt {
    ghost use Rattle.tw_board.specs.Rule.{HasPostedGvt};

    ghost then = { λ s v _ w. HasPostedGvt s.first v w };
}

/// The publisher's post to the word of committed records.
pub struct PostsCommitted;

impl Play<u8, View> for PostsCommitted {
    ghost use Rattle.tw_board.specs.Rule.{HasPostedCommitted};

    ghost then = { λ s v _ w. HasPostedCommitted s.first v w };
}

/// A new reader has seen nothing.
pub struct Enters;

impl Play<u8, View> for Enters {
    ghost use Rattle.std.specs.Prelude.{◌≡◌};
    ghost use Rattle.tw_board.specs.Rule.{reader};

    ghost then = { λ _ _ _ w. w.0 ≡ reader 0 0 };
}

/// A note of what an end has posted or seen, for another end.
pub struct Notes;

impl Split<View> for Notes {
    ghost use Rattle.tw_board.specs.Rule.{reader};

    ghost left = { λ v. v };

    ghost right = { λ v. reader v.gvt v.committed };
}

/// The publisher is told what a reader has seen.
pub struct Told;

impl Join<View> for Told {
    ghost use Rattle.tw_board.specs.Rule.{reader};

    ghost both = { λ v w. record v { told_gvt = w.gvt; told_committed = w.committed } };

    ghost spent = { reader 0 0 };
}

/// A reader is shown what was posted.
pub struct Shown;

impl Join<View> for Shown {
    ghost use Rattle.tw_board.specs.Rule.{reader};

    ghost both = { λ v w. record v { gvt = w.gvt; committed = w.committed } };

    ghost spent = { reader 0 0 };
}
