// A part of a table's bytes that was found to lie in the table.
ghost use Rattle.std.specs.Prelude.{◌≡◌, ◌+◌, ◌<◌, ◌≤◌, IfOk};
ghost use Rattle.request.specs.Parts.{whole_part, part_verdict};

use refusals::fault::ServiceFault;

#[derive(Clone, Copy, PartialEq, Eq, Debug)]
pub struct Part {
    pub from: u32,
    pub count: u16,
}

impl Part {
    // All the bytes of a table.
    pub fn whole(length: u16) -> Part
        ensures { result ≡ whole_part length }
    {
        Part {
            from: 0,
            count: length,
        }
    }

    // Some bytes of a table from a place on: at least one, and none past its end.
    pub fn of(from: u32, count: u16, length: u16) -> Result<Part, ServiceFault>
        ensures answer { result ≡ part_verdict from count length }
        ensures inside { IfOk result (λ p. (0 < p.count) × (p.from + p.count ≤ length)) }
    {
        if count == 0 || count > length || from > u32::from(length - count) {
            return Err(ServiceFault::BadPart);
        }
        Ok(Part { from, count })
    }
}
