//! Three lists of the same numbers, with a tree and without one.

ghost use Rattle.std.specs.Prelude.{◌≡◌, ◌+◌, ◌<◌, true};

use kin_num::NoMemory;
use kin_rank::Rank;
use std::alloc::Global;
use std::test::Fail;

/// A call of a rank.
#[derive(Clone, Copy, Debug)]
pub enum Call {
    Plant,
    /// A number, and its places in F, G and T.
    Insert(u32, u32, u32, u32),
    Remove(u32),
    SwapF(u32),
    SwapG(u32),
    SwapT(u32),
}

/// What is asked of a rank, and the answer.
#[derive(Clone, Copy)]
enum Ask<'a> {
    First(u32, u32, Option<u32>),
    Within((u32, u32), (u32, u32), &'a [u32]),
}

/// Whether the number at this place can be exchanged with the next.
fn has_next(place: u32, len: usize) -> bool
    ensures { result ≡ true → place + 1 < len }
{
    len > 0 && (place as usize) < len - 1
}

/// Carries a call out. Where its conditions don't hold, nothing changes, and the answer is `false`.
pub fn carry_out(rank: &mut Rank, call: Call) -> Result<bool, NoMemory> {
    match call {
        Call::Plant => rank.plant_tree()?,
        Call::Insert(no, f, g, t) => {
            let end = rank.len();
            if no as usize >= rank.room() || rank.has(no) {
                return Ok(false);
            }
            if f as usize > end || g as usize > end || t as usize > end {
                return Ok(false);
            }
            rank.insert(no, f, g, t)?;
        }
        Call::Remove(no) => {
            if !rank.has(no) {
                return Ok(false);
            }
            rank.remove(no);
        }
        Call::SwapF(place) => {
            if !has_next(place, rank.len()) {
                return Ok(false);
            }
            rank.swap_f(place);
        }
        Call::SwapG(place) => {
            if !has_next(place, rank.len()) {
                return Ok(false);
            }
            rank.swap_g(place);
        }
        Call::SwapT(place) => {
            if !has_next(place, rank.len()) {
                return Ok(false);
            }
            rank.swap_t(place);
        }
    }
    Ok(true)
}

/// Whether the rank answers so.
fn gives(rank: &Rank, ask: Ask<'_>) -> Result<bool, NoMemory> {
    match ask {
        Ask::First(f, g, first) => Ok(rank.first_in(f, g) == first),
        Ask::Within(f, g, numbers) => Ok(rank.in_ranges(f, g)?.as_slice() == numbers),
    }
}

/// Whether all calls can be carried out, and the answers after them are right.
fn answers(rank: &mut Rank, calls: &[Call], asks: &[Ask<'_>]) -> Result<bool, NoMemory> {
    for call in calls {
        if !carry_out(rank, *call)? {
            return Ok(false);
        }
    }
    for ask in asks {
        if !gives(rank, *ask)? {
            return Ok(false);
        }
    }
    Ok(true)
}

/// F is 0 1 2, G is 2 0 1 and T is 1 2 0. Then G is 0 2 1.
const MADE: [Call; 3] = [
    Call::Insert(0, 0, 0, 0),
    Call::Insert(1, 1, 1, 0),
    Call::Insert(2, 2, 0, 1),
];

fn are_three_numbers(rank: &mut Rank) -> Result<bool, NoMemory> {
    let before = answers(
        rank,
        &[],
        &[
            Ask::First(0, 0, Some(1)),
            Ask::First(0, 1, Some(1)),
            Ask::First(1, 0, None),
            // the last places, and places past the end
            Ask::First(2, 0, None),
            Ask::First(0, 2, None),
            Ask::First(2, 2, None),
            Ask::First(u32::MAX, 0, None),
            Ask::First(0, u32::MAX, None),
            // no places, and more places than there are
            Ask::Within((1, 1), (0, 3), &[]),
            Ask::Within((2, 1), (0, 3), &[]),
            Ask::Within((3, 9), (0, 9), &[]),
            Ask::Within((0, 9), (0, 9), &[0, 1, 2]),
            Ask::Within((1, u32::MAX), (0, 2), &[2]),
        ],
    )?;
    let after = answers(
        rank,
        &[Call::SwapG(0)],
        &[Ask::First(1, 0, Some(2)), Ask::Within((0, 2), (0, 2), &[0])],
    )?;
    Ok(before && after)
}

/// The same lists, given at once.
fn made_at_once(alloc: Global) -> Result<Rank, NoMemory> {
    Rank::with_tree(alloc, 2, &[0, 1, 2], &[2, 0, 1], &[1, 2, 0])
}

#[test]
fn three_numbers(rt: HostRuntime) -> Result<(), Fail> {
    let mut bare = Rank::new(rt.alloc(), 2)?;
    assert!(rt; answers(&mut bare, &MADE, &[])?);
    assert!(rt; are_three_numbers(&mut bare)?, "without a tree");
    let mut planted = Rank::new(rt.alloc(), 2)?;
    assert!(rt; answers(&mut planted, &[Call::Plant], &[])?);
    assert!(rt; answers(&mut planted, &MADE, &[])?);
    assert!(rt; are_three_numbers(&mut planted)?, "with a tree");
    let mut given = made_at_once(rt.alloc())?;
    assert!(rt; are_three_numbers(&mut given)?, "from three lists");
    Ok(())
}

/// A number is put in at each of these places, and taken out again.
#[test]
fn a_number_comes_and_goes(rt: HostRuntime) -> Result<(), Fail> {
    for tree in [false, true] {
        let mut rank = Rank::new(rt.alloc(), 3)?;
        if tree {
            rank.plant_tree()?;
        }
        // F is 1 2, G is 2 1 and T is 1 2.
        let first = [Call::Insert(1, 0, 0, 0), Call::Insert(2, 1, 0, 1)];
        assert!(rt; answers(&mut rank, &first, &[])?);
        for (call, within, asks) in [
            (
                Call::Insert(5, 0, 0, 0),
                5,
                [
                    Ask::First(0, 0, Some(1)),
                    Ask::First(1, 0, Some(2)),
                    Ask::Within((0, 1), (0, 1), [5].as_slice()),
                ]
                .as_slice(),
            ),
            (
                Call::Insert(4, 1, 1, 1),
                4,
                [
                    Ask::First(0, 0, Some(4)),
                    Ask::First(0, 1, None),
                    Ask::Within((0, 2), (0, 2), [4].as_slice()),
                ]
                .as_slice(),
            ),
            (
                Call::Insert(3, 2, 2, 2),
                3,
                [
                    Ask::First(0, 0, Some(3)),
                    Ask::First(1, 1, Some(3)),
                    Ask::First(2, 2, None),
                    Ask::Within((1, 3), (1, 3), [3].as_slice()),
                ]
                .as_slice(),
            ),
        ] {
            assert!(rt; answers(&mut rank, &[call], asks)?, "{call:?}, tree {tree}");
            let asks = [
                Ask::First(0, 0, None),
                Ask::Within((0, 1), (0, 1), &[]),
                Ask::Within((0, 3), (0, 3), &[1, 2]),
            ];
            let gone = [Call::Remove(within)];
            assert!(rt; answers(&mut rank, &gone, &asks)?, "{call:?}, tree {tree}");
        }
    }
    Ok(())
}
