//! Slots point, let go and point again, and are compared with lists written down by hand.

use kin_num::NoMemory;
use kin_pointers::pointers::Pointers;
use std::test::Fail;

/// Lets a slot point at a number, or at none. Where there is no such slot or number, or the slot points already, nothing
/// changes.
fn turn(pointers: &mut Pointers, slot: u32, number: Option<u32>) -> Result<(), NoMemory> {
    if slot as usize >= pointers.slots() {
        return Ok(());
    }
    match number {
        None => pointers.release(slot),
        Some(number) => {
            if (number as usize) < pointers.numbers() && pointers.target(slot).is_none() {
                pointers.point(slot, number)?;
            }
        }
    }
    Ok(())
}

/// The slots that point at a number, or none where there is no such number.
fn slots_of(pointers: &Pointers, number: u32) -> &[u32] {
    if (number as usize) < pointers.numbers() {
        pointers.slots_of(number)
    } else {
        &[]
    }
}

/// At which number a slot points.
fn target(pointers: &Pointers, slot: u32) -> Option<u32> {
    if (slot as usize) < pointers.slots() {
        pointers.target(slot)
    } else {
        None
    }
}

#[test]
fn a_list_loses_its_first_slot(rt: HostRuntime) -> Result<(), Fail> {
    let mut pointers = Pointers::new(rt.alloc(), 2)?;
    for _ in 0..3 {
        pointers.add_slot()?;
    }
    for (slot, number, at_zero, at_one) in [
        (0, Some(1), [].as_slice(), [0].as_slice()),
        (2, Some(1), [].as_slice(), [0, 2].as_slice()),
        (1, Some(0), [1].as_slice(), [0, 2].as_slice()),
        (0, None, [1].as_slice(), [2].as_slice()),
        (0, Some(0), [1, 0].as_slice(), [2].as_slice()),
        (2, None, [1, 0].as_slice(), [].as_slice()),
    ] {
        turn(&mut pointers, slot, number)?;
        assert_eq!(rt; target(&pointers, slot), number, "slot {slot}");
        assert_eq!(rt; slots_of(&pointers, 0), at_zero, "slot {slot}");
        assert_eq!(rt; slots_of(&pointers, 1), at_one, "slot {slot}");
    }
    Ok(())
}
