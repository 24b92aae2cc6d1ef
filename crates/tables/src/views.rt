// The tables that are made from the meter's state.
ghost use Rattle.std.specs.Prelude.{◌≡◌, ◌<◌, ◌≤◌, length};
ghost use Rattle.calendar.specs.Calendar.{seconds_in_all, date_of, bytes_of};
ghost use Rattle.model.specs.Tables.{activation_date, waiting_in, row_shown, pending_status_table, response_table};
ghost use Rattle.tables.specs.Responses.{response_if};

use crate::response::Response;
use calendar::from_second;
use fields::bytes::{put_bytes, put8};
use fields::order::Little;
use fields::words::put16;
use head::head::{Activation, Head};
use pending::row::Row;
use pending::table::PendingTable;

// The date-time of a second of the calendar: `Readout` keeps that of its own, so that no type for such a second is wanted.
pub(crate) fn date_bytes(second: u32) -> [u8; 6]
    requires { second < seconds_in_all }
    ensures { result ≡ bytes_of (date_of second) }
{
    from_second(second).unwrap().into()
}

fn activation_date(activation: Activation) -> [u8; 6]
    requires { activation.second < seconds_in_all }
    ensures { result ≡ activation_date activation }
{
    if activation.happened {
        date_bytes(activation.second)
    } else {
        [0; 6]
    }
}

fn count_waiting(rows: &[Row; 3]) -> u8
    ensures { result ≡ waiting_in rows.now }
{
    rows.iter().filter(|row| row.is_waiting()).count() as u8
}

// A row's trigger bytes and its table's number, or zeros.
fn row_shown(table: PendingTable, row: Row) -> [u8; 8]
    ensures { result ≡ row_shown table row }
{
    let mut bytes = [0u8; 8];
    if row.is_waiting() {
        put_bytes(&mut bytes, 0, &row.trigger_bytes());
        put16::<Little>(&mut bytes, 6, table.into());
    }
    bytes
}

pub(crate) fn pending_status(head: &Head) -> [u8; 31]
    requires { head.now.activation.second < seconds_in_all }
    ensures { result ≡ pending_status_table head.now }
{
    let mut bytes = [0u8; 31];
    put_bytes(&mut bytes, 0, &activation_date(head.activation));
    put8(&mut bytes, 6, count_waiting(&head.rows));
    for table in PendingTable::ALL {
        let place = table.index();
        put_bytes(
            &mut bytes,
            7 + 8 * place,
            &row_shown(table, head.rows[place]),
        );
    }
    bytes
}

pub(crate) fn response_bytes(response: Option<Response>) -> [u8; 4]
    ensures { result ≡ response_table (response_if response) }
{
    match response {
        None => [0; 4],
        Some(left) => {
            let [low, high] = left.procedure.to_le_bytes();
            [low, high, left.sequence, u8::from(left.result)]
        }
    }
}
