//! Room is there where memory is.
use kq_alarm::Alarms;
use kq_kevent::Kq;
use std::test::Fail;

#[test]
fn there_is_room_for_alarms(rt: HostRuntime) {
    let mut alarms = Alarms::new(rt.alloc());
    assert!(rt; alarms.reserve(4));
}

#[test]
fn there_is_room_for_a_change(rt: HostRuntime) -> Result<(), Fail> {
    let mut kqueue = Kq::new(rt.alloc(), 1);
    kqueue.reserve(1)?;
    Ok(())
}
