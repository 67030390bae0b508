//! The board by worked examples, and readers that look while another thread posts.

ghost use Rattle.std.specs.Prelude.{◌≡◌};

use super::helpers::stamp;
use std::process::Abort;
use std::thread;
use tw_board::{Board, Publisher, Reader};
use tw_vtime::Stamp;

/// How often each reader looks, and how many pairs are posted meanwhile.
const LOOKS: u64 = 10_000;

#[test]
fn board_never_falls(rt: HostRuntime) {
    let (mut board, mut publisher) = Board::new(rt.alloc()).expect(&rt, "memory");
    let mut reader = board.reader().expect(&rt, "memory");
    let risen = (stamp(&rt, 3, 0, 0), 3);
    for (gvt, committed) in [risen, (stamp(&rt, 2, 0, 1), 1)] {
        publisher.post(gvt, committed);
        assert!(rt; reader.see() == risen);
    }
}

#[test]
fn board_parts(rt: HostRuntime) {
    let (mut board, mut publisher) = Board::new(rt.alloc()).expect(&rt, "memory");
    let mut reader = board.reader().expect(&rt, "memory");
    assert!(rt; reader.see() == (Stamp::START, 0));
    publisher.post(Stamp::END, 7);
    publisher.post(stamp(&rt, 5, 0, 0), 9);
    assert!(rt; reader.see() == (Stamp::END, 9));
    let mut other = board.reader().expect(&rt, "memory");
    assert!(rt; other.meet(&mut publisher) == (Stamp::END, 9));
    assert!(rt; other.see() == (Stamp::END, 9));
}

/// Looks many times, and answers whether it never saw less than before.
fn watch(reader: &mut Reader) -> bool
    ensures { reader.new.board ≡ reader.old.board }
{
    let mut last = (Stamp::START, 0);
    let mut rose = true;
    for _ in 0..LOOKS {
        let seen = reader.see();
        rose &= last.0 <= seen.0 && last.1 <= seen.1;
        last = seen;
    }
    rose
}

/// Posts many rising pairs: at the tick n, that half of n records are committed.
fn climb(rt: &impl Abort, publisher: &mut Publisher)
    ensures { publisher.new.board ≡ publisher.old.board }
{
    for tick in 0..LOOKS {
        publisher.post(stamp(rt, tick, 0, 0), tick / 2);
    }
}

#[test]
fn four_readers_never_see_less(rt: HostRuntime) {
    let (mut board, mut publisher) = Board::new(rt.alloc()).expect(&rt, "memory");
    let mut watched = Vec::new(rt.alloc());
    for _ in 0..4 {
        let reader = board.reader().expect(&rt, "memory");
        watched.push((reader, false)).ok().expect(&rt, "memory");
    }
    let readers = watched.as_mut_slice();
    thread::join_mut(
        &rt,
        &mut || thread::for_each_mut(
            &rt,
            readers,
            4,
            &|_, watched| watched.1 = watch(&mut watched.0),
        ),
        &mut || climb(&rt, &mut publisher),
    );
    let last = (stamp(&rt, LOOKS - 1, 0, 0), (LOOKS - 1) / 2);
    for (reader, rose) in watched.iter_mut() {
        assert!(rt; *rose && reader.see() == last);
    }
}

/// A reader that has watched, and whether it never saw less than before.
fn watched(mut reader: Reader) -> (Reader, bool)
    ensures { result.0.board ≡ reader.board }
{
    let rose = watch(&mut reader);
    (reader, rose)
}

/// A publisher that has climbed.
fn climbed(rt: &impl Abort, mut publisher: Publisher) -> Publisher
    ensures { result.board ≡ publisher.board }
{
    climb(rt, &mut publisher);
    publisher
}

/// Whoever comes back from a thread is of the board that it went with.
#[test]
fn a_reader_back_from_a_thread_meets_the_publisher(rt: HostRuntime) {
    let (mut board, publisher) = Board::new(rt.alloc()).expect(&rt, "memory");
    let reader = board.reader().expect(&rt, "memory");
    let ((mut reader, rose), mut publisher) = thread::join(
        &rt,
        move || -> (Reader, bool)
            ensures { result.0.board ≡ reader.board }
        { watched(reader) },
        move || -> Publisher
            ensures { result.board ≡ publisher.board }
        { climbed(&rt, publisher) },
    );
    let last = (stamp(&rt, LOOKS - 1, 0, 0), (LOOKS - 1) / 2);
    assert!(rt; rose && reader.meet(&mut publisher) == last && reader.see() == last);
}
