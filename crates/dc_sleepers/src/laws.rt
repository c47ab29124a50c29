//! Laws of the definitions, as contracts of functions that do nothing.

ghost use Rattle.dc_sleepers.specs.GateLaw.{NoSleeperAtTheGateIsForgotten};
ghost use Rattle.dc_sleepers.specs.LockLaw.{NoSleeperOfTheLockIsForgotten};
ghost use Rattle.dc_sleepers.specs.LockThreads.{StepsByThread};

/// After every list of events, if a thread sleeps until the lock is free, then the lock is held, or a thread
/// that gave it back has its wake still before it, or one that was woken, or not put to sleep, has its try or
/// its look at the lock still before it. If a thread sleeps until one more ticket is served, then the lock is
/// held, or a thread that gave it back wakes all still, or one that has a ticket and has slept tries or looks
/// before it sleeps. So if every thread sleeps or doesn't want the lock, none sleeps.
pub fn no_sleeper_of_the_lock_is_forgotten()
    ensures { NoSleeperOfTheLockIsForgotten }
{}

/// A step at the lock is made by one thread alone: whether it may take it, and what becomes of it, follows
/// from that thread and from the number that the step reads. Each other thread stays as it is, but for a
/// sleeper that is woken. So a running thread that goes through `next` is a thread of this machine.
pub fn a_step_of_the_lock_is_its_threads()
    ensures { StepsByThread }
{}

/// After every list of events in which each wait comes before `WRAP` calls were made since its thread read
/// them: if a thread sleeps, then the lock is held, or a thread whose call is over has its raise of the calls
/// or its wake still before it, or one that is counted and awake asks or tries before it sleeps. So if every
/// thread sleeps or makes no call, none sleeps.
pub fn no_sleeper_at_the_gate_is_forgotten()
    ensures { NoSleeperAtTheGateIsForgotten }
{}
