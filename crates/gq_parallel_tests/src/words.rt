// Words fed by several seats, in one thread and in two.
ghost use Rattle.std.specs.Prelude.{◌≡◌, ◌≤◌, [], ◌∷◌, map};
ghost use Rattle.gq_words.specs.Seats.{openings_of, IsSeatOf};

use gq_words::{Op, WordFault, WordSeat, Words, shift, unshift};
use std::test::Fail;
use std::thread::{Threads, join};

const INPUTS: u64 = 10_000;

// One thread's part: feeds the numbers from `first` on, each to all four words.
fn feed_all(words: &Words, mut seat: WordSeat, first: u64) -> WordSeat
    requires own { IsSeatOf words.now seat }
    requires ops { map (λ o. o.0) (openings_of words.now) ≡ Op.Max ∷ Op.Min ∷ Op.Or ∷ Op.And ∷ [] }
    requires small { first ≤ 1000000 }
    ensures { IsSeatOf words.entry.now result }
{
    for i in 0..INPUTS {
        let x = first + i;
        words.feed_max(&mut seat, 0, x);
        words.feed_min(&mut seat, 1, x);
        words.feed_or(&mut seat, 2, x);
        words.feed_and(&mut seat, 3, !x);
    }
    seat
}

fn feed_by_two<R: Threads + Sync>(
    rt: &R,
    words: &Words,
    one: WordSeat,
    other: WordSeat,
) -> (WordSeat, WordSeat)
    requires one { IsSeatOf words.now one }
    requires other { IsSeatOf words.now other }
    requires ops { map (λ o. o.0) (openings_of words.now) ≡ Op.Max ∷ Op.Min ∷ Op.Or ∷ Op.And ∷ [] }
    ensures { IsSeatOf words.entry.now result.0 × IsSeatOf words.entry.now result.1 }
{
    join(
        rt,
        || -> WordSeat
            requires { IsSeatOf words.now one × (map (λ o. o.0) (openings_of words.now) ≡ Op.Max ∷ Op.Min ∷ Op.Or ∷ Op.And ∷ []) }
            ensures { IsSeatOf words.entry.now result }
        { feed_all(words, one, 0) },
        || -> WordSeat
            requires { IsSeatOf words.now other × (map (λ o. o.0) (openings_of words.now) ≡ Op.Max ∷ Op.Min ∷ Op.Or ∷ Op.And ∷ []) }
            ensures { IsSeatOf words.entry.now result }
        { feed_all(words, other, INPUTS) },
    )
}

#[test]
fn two_threads_lose_no_input(rt: HostRuntime) -> Result<(), Fail> {
    let openings = [
        (Op::Max, 3),
        (Op::Min, u64::MAX),
        (Op::Or, 1 << 40),
        (Op::And, u64::MAX),
    ];
    let (words, mut seat) = Words::open(rt.alloc(), &openings, 2)?;
    let other = words.split(&mut seat);
    let (mut seat, other) = feed_by_two(&rt, &words, seat, other);
    words.join(&mut seat, other);
    let words = words.close(seat)?;
    let all = (1 << 15) - 1;
    assert_eq!(rt;
        words.as_slice(),
        [2 * INPUTS - 1, 0, all | 1 << 40, !all].as_slice()
    );
    Ok(())
}

#[test]
fn a_maximum_is_of_both_seats(rt: HostRuntime) -> Result<(), Fail> {
    let (words, mut one) = Words::open(rt.alloc(), &[(Op::Max, shift(5))], 2)?;
    let mut other = words.split(&mut one);
    words.feed_max(&mut one, 0, shift(9));
    words.feed_max(&mut other, 0, shift(-3));
    words.join(&mut one, other);
    let words = words.close(one)?;
    assert_eq!(rt; words.as_slice(), [shift(9)].as_slice());
    assert_eq!(rt; unshift(words[0]), 9);
    Ok(())
}

#[test]
fn a_seat_that_is_apart_is_missed(rt: HostRuntime) -> Result<(), Fail> {
    let (words, mut one) = Words::open(rt.alloc(), &[(Op::Max, shift(5))], 3)?;
    let mut other = words.split(&mut one);
    assert_eq!(rt; one.spare(), 1);
    words.feed_max(&mut one, 0, shift(9));
    words.feed_max(&mut other, 0, shift(-3));
    let fault = words.close(one).err();
    assert_eq!(rt; fault, Some(WordFault::Apart { joined: 1, made: 2 }));
    Ok(())
}

#[test]
fn words_that_nobody_fed_are_their_openings(rt: HostRuntime) -> Result<(), Fail> {
    let (words, seat) = Words::open(rt.alloc(), &[(Op::Or, 6), (Op::And, 7)], 1)?;
    assert_eq!(rt; words.close(seat)?.as_slice(), [6, 7].as_slice());
    let (none, seat) = Words::open(rt.alloc(), &[], 1024)?;
    assert_eq!(rt; none.close(seat)?.as_slice(), [].as_slice());
    Ok(())
}

#[test]
fn a_shift_begins_at_the_least_number(rt: HostRuntime) -> Result<(), Fail> {
    let words = [shift(i64::MIN), shift(-1), shift(0), shift(i64::MAX)];
    assert_eq!(rt; words, [0, (1 << 63) - 1, 1 << 63, u64::MAX]);
    assert_eq!(rt; unshift(shift(-42)), -42);
    Ok(())
}

fn is_shared<T: Send + Sync>(_: &T) {}

fn is_moved<T: Send>(_: &T) {}

#[test]
fn words_are_shared_and_seats_are_moved(rt: HostRuntime) -> Result<(), Fail> {
    let (words, seat) = Words::open(rt.alloc(), &[], 1)?;
    is_shared(&words);
    is_moved(&seat);
    Ok(())
}
