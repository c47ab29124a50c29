//! A thread sleeps and is woken, at the lock and at the gate.

use crate::gate::{self, Gate};
use crate::lock::{self, Lock};
use std::test::Fail;

#[test]
fn a_sleeper_of_the_lock_is_woken(rt: HostRuntime) -> Result<(), Fail> {
    use crate::lock::{Act, Place};
    let mut lock = Lock::new(rt.alloc(), 2).expect(&rt, "memory");
    let steps = [
        (0, Act::TryOnce, true, Place::Holding),
        (1, Act::Come, true, Place::Trying),
        (1, Act::Try, true, Place::Trying),
        (1, Act::CountLate, false, Place::Trying),
        (1, Act::CountIn, true, Place::Counted),
        (1, Act::ReadDrawn, true, Place::Choosing),
        (1, Act::ReadServed, true, Place::Parking),
        (1, Act::Park, true, Place::Asleep),
        (1, Act::Try, false, Place::Asleep),
        (0, Act::Give, true, Place::Freed),
        (0, Act::Read, true, Place::Looking),
        (0, Act::LookDrawn, true, Place::Looked),
        (0, Act::LookServed, true, Place::WakingOne),
        (0, Act::WakeNobody, false, Place::WakingOne),
        (0, Act::Wake(1), true, Place::Out),
        (1, Act::CountOut, true, Place::Trying),
        (1, Act::CountLate, true, Place::Drawing),
        (1, Act::Draw, true, Place::Trying),
        (0, Act::Come, true, Place::Trying),
        (0, Act::CountIn, true, Place::Counted),
        (0, Act::ReadDrawn, true, Place::Choosing),
        (0, Act::ReadServed, true, Place::Yielding),
        (0, Act::Yield, true, Place::Kept),
        (1, Act::Try, true, Place::Got),
        (1, Act::CountLateOut, true, Place::Serving),
        (1, Act::Serve, true, Place::Served),
        (1, Act::WakeKept, true, Place::Holding),
        (0, Act::Try, false, Place::Awake),
        (1, Act::Give, true, Place::Freed),
        (1, Act::Read, true, Place::Looking),
        (1, Act::LookDrawn, true, Place::Looked),
        (1, Act::LookServed, true, Place::WakingOne),
        (1, Act::WakeNobody, true, Place::Out),
        (0, Act::CountOut, true, Place::Trying),
        (0, Act::Try, true, Place::Holding),
    ];
    for (thread, act, done, place) in steps {
        assert!(rt; lock.step(lock::Event { thread, act }) == done);
        let one = lock.thread(thread);
        assert!(rt; one.is_some_and(|one| one.place == place));
    }
    assert!(rt; lock.is_held() && lock.waiting() == 0 && lock.thread(2).is_none());
    Ok(())
}

#[test]
fn a_sleeper_with_a_ticket_is_woken(rt: HostRuntime) -> Result<(), Fail> {
    use crate::gate::{Act, Place};
    let mut gate = Gate::new(rt.alloc(), 2).expect(&rt, "memory");
    let steps = [
        (0, Act::ComeBare, true, Place::Trying),
        (0, Act::Try, true, Place::Holding),
        (1, Act::Come, true, Place::Asking),
        (1, Act::ReadServed, true, Place::Asked),
        (1, Act::ReadTickets, true, Place::Trying),
        (1, Act::Try, true, Place::Told),
        (1, Act::Wait, false, Place::Told),
        (1, Act::Count, true, Place::Counted),
        (1, Act::TakeTicket, true, Place::Counted),
        (1, Act::ReadCalls, true, Place::Asking),
        (1, Act::ReadServed, true, Place::Asked),
        (1, Act::ReadTickets, true, Place::Trying),
        (1, Act::Try, true, Place::Told),
        (1, Act::Wait, true, Place::Asleep),
        (0, Act::Give, true, Place::Given),
        (0, Act::CountOut, true, Place::Leaving),
        (0, Act::Serve, true, Place::Gone),
        (0, Act::ReadSleepers, true, Place::Calling),
        (0, Act::Raise, true, Place::Raised),
        (0, Act::LookServed, true, Place::Looked),
        (0, Act::LookTickets, true, Place::WakingAll),
        (0, Act::WakeAll, true, Place::Out),
        (1, Act::ReadCalls, true, Place::Asking),
    ];
    for (thread, act, done, place) in steps {
        assert!(rt; gate.step(gate::Event { thread, act }) == done);
        let one = gate.thread(thread);
        assert!(rt; one.is_some_and(|one| one.place == place));
    }
    let one = gate.thread(1);
    assert!(rt; one.is_some_and(|one| one.is_counted && one.seen == 1 && one.has_ticket));
    assert!(rt; gate.sleepers() == 1);
    Ok(())
}
