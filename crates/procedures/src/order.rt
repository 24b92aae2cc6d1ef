// What a procedure orders once its parameters are right.
ghost use Rattle.std.specs.Prelude.{◌≡◌, ◌<◌};
ghost use Rattle.calendar.specs.Calendar.{seconds_in_all};
ghost use Rattle.model.specs.Procedures.{clock_after};
ghost use Rattle.procedures.specs.Orders.{meant, Timely};

use numbers::log::LogName;
use pending::table::PendingTable;

#[derive(Clone, Copy)]
pub enum Order {
    ClearAll,
    Clear(LogName),
    // The oldest unread entries of a log become read: so many.
    Acknowledge(LogName, u16),
    SetClock(u32),
    ActivateAll,
    Activate(PendingTable),
    WithdrawAll,
    Withdraw(PendingTable),
    ReadSelf,
}

// The clock after an order. The calendar has it if it has the clock before.
pub fn clock_after(clock: u32, order: Order) -> u32
    requires clock { clock < seconds_in_all }
    requires timely { Timely order }
    ensures clock { result ≡ clock_after clock (meant order) }
    ensures range { result < seconds_in_all }
{
    match order {
        Order::SetClock(second) => second,
        _ => clock,
    }
}
