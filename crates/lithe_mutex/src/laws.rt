//! The law of the mutex, the contract of a function with an empty body.
ghost use Rattle.lithe_mutex.specs.Order.{LeaveInOrder};

/// Over any run of calls, waiting contexts leave in the order of arrival, and none is lost or doubled.
pub fn waiters_leave_in_order<T, C>()
    ensures { LeaveInOrder T C }
{}
