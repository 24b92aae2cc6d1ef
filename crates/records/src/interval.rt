// A record of the load profile: the total register at the end of an interval, and the interval's status.
ghost use Rattle.records.specs.Layouts.{interval_bytes, interval_of, IntervalFits};
ghost use Rattle.records.specs.Lengths.{interval_narrow, interval_long};
ghost use Rattle.records.specs.Readings.{interval_back};
ghost use Rattle.records.specs.Wholes.{interval_only};

use crate::kind::Record;
use crate::layout::date_in;
use crate::status::Status;
use calendar::DateTime;
use fields::bytes::{get8, put_bytes, put8};
use fields::order::Little;
use fields::words::{get32, put32};

#[derive(Clone, Copy, PartialEq, Eq, Debug)]
pub struct Interval {
    pub at: DateTime,
    pub total: u32,
    pub status: Status,
}

impl Record for Interval {
    const WIDTH: usize = 11;

    ghost WIDTH = { 11 };

    ghost bytes = { interval_bytes };

    ghost parsed = { interval_of };

    ghost fits = { IntervalFits };

    ghost narrow = { interval_narrow };

    ghost long = { interval_long };

    ghost back = { interval_back };

    ghost only = { interval_only };

    #[tactic(auto, using(crate::proofs::Fills::in_turn), unfolding(crate::specs::Layouts::interval_layout))]
    fn write(&self, slot: &mut [u8]) {
        put_bytes(slot, 0, &<[u8; 6]>::from(self.at));
        put32::<Little>(slot, 6, self.total);
        put8(slot, 10, self.status.into());
    }

    fn read(slot: &[u8]) -> Option<Interval> {
        let status = Status::try_from(get8(slot, 10)).ok()?;
        Some(Interval {
            at: date_in(slot),
            total: get32::<Little>(slot, 6),
            status,
        })
    }
}
