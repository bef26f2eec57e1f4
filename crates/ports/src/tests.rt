//! What the ports do on examples.

use crate::answers::{Fed, Refusal};
use crate::interruptible::Interruptible;
use crate::port::Port;
use crate::renumbered::Renumbered;
use crate::slot_map::SlotMap;
use crate::uninterruptible::Uninterruptible;
use std::test::Fail;

#[test]
fn second_feed_reports_the_flaw(rt: HostRuntime) -> Result<(), Fail> {
    let mut port = Interruptible::new(5)?;
    port.set_flaw(3, 9)?;
    port.open(3, 1, 10)?;
    assert_eq!(rt; port.feed(3)?, Fed::Wrote(5));
    assert_eq!(rt; port.feed(3)?, Fed::Flawed { block: 9, board: 3 });
    Ok(())
}

#[test]
fn refusals_come_in_order(rt: HostRuntime) -> Result<(), Fail> {
    let mut port = Interruptible::new(5)?;
    assert_eq!(rt; port.open(32, 32, 0), Err(Refusal::NoSuchSlot));
    assert_eq!(rt; port.open(31, 32, 0), Err(Refusal::BadImage));
    assert_eq!(rt; port.feed(32), Err(Refusal::NoSuchSlot));
    assert_eq!(rt; port.feed(31), Err(Refusal::NothingLeft));
    Ok(())
}

#[test]
fn another_slot_waits_for_the_half_written_one(rt: HostRuntime) -> Result<(), Fail> {
    let mut port = Uninterruptible::new(5)?;
    port.open(1, 1, 10)?;
    port.open(2, 2, 5)?;
    assert_eq!(rt; port.feed(1)?, Fed::Wrote(5));
    assert_eq!(rt; port.feed(2), Err(Refusal::OtherHalfWritten));
    assert_eq!(rt; port.feed(3), Err(Refusal::NothingLeft));
    Ok(())
}

#[test]
fn piled_layers_reach_the_board(rt: HostRuntime) -> Result<(), Fail> {
    let mut board = Uninterruptible::new(7)?;
    board.set_flaw(4, 9)?;
    let mut map = SlotMap::identity();
    map.exchange(4, 5)?;
    let lower = Renumbered::new(board, map);
    map.exchange(4, 6)?;
    // Slot 6 is slot 5 of the lower layer and slot 4 of the board.
    let mut port = Renumbered::new(lower, map);
    port.open(6, 1, 20)?;
    assert_eq!(rt; port.feed(6)?, Fed::Wrote(7));
    assert_eq!(rt; port.left(6)?, 13);
    assert_eq!(rt; port.feed(6)?, Fed::Flawed { block: 9, board: 4 });
    Ok(())
}

#[test]
fn a_layer_has_the_constant_of_its_port(rt: HostRuntime) {
    assert!(rt; Renumbered::<Interruptible>::INTERRUPTIBLE);
    assert!(rt; !Renumbered::<Uninterruptible>::INTERRUPTIBLE);
}
