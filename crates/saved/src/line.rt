// A line of saved text by its fields, which are parts of the text.
ghost use Rattle.std.specs.Prelude.{◌≡◌, Ok, Err, MatchResult};
ghost use Rattle.cuts.specs.Cuts.{split};
ghost use Rattle.cuts.specs.Fields.{comma, left, ReadAs, ReadLine};
ghost use Rattle.cuts.specs.FirstWrong.{Located};
ghost use Rattle.saved.specs.Forms.{wrong_field};
ghost use Rattle.saved.specs.Lines.{pieces, bus_pieces, bus_of, run_of, row_of, OneRead, TwoRead, BusRead};

use cuts::fields::{Fields, malformed, read_letter, read_status};
use decimals::read_decimal;
use faults::{Spot, at};
use saved_rows::row::{BusRow, Row};

// The fields of a bus line. A type of their own: one generic with the row would name two parameters, for numbers and for statuses, wherever a row is named.
#[derive(Clone, Copy, PartialEq, Eq, Debug)]
pub struct BusLine<'a> {
    pub bus: &'a [u8],
    pub hub_bus: &'a [u8],
    pub zone: &'a [u8],
    pub day_ahead_status: &'a [u8],
    pub day_ahead_load: &'a [u8],
    pub real_time_status: &'a [u8],
    pub real_time_load: &'a [u8],
}

#[derive(Clone, Copy, PartialEq, Eq, Debug)]
pub enum Line<'a> {
    Bus(BusLine<'a>),
    Lambda {
        lambda: &'a [u8],
    },
    Constraint {
        constraint: &'a [u8],
        shadow_price: &'a [u8],
    },
    Outage {
        constraint: &'a [u8],
        bus: &'a [u8],
    },
    Run {
        run: &'a [u8],
        seconds: &'a [u8],
        reserve_adder: &'a [u8],
        reliability_adder: &'a [u8],
    },
    End {
        count: &'a [u8],
    },
}

fn read_bus<'a>(mut fields: Fields<'a>) -> Result<Line<'a>, Spot>
    ensures { ReadAs pieces 66 bus_of (left fields.entry) result }
{
    let bus = fields.number(2)?;
    let hub_bus = fields.number(3)?;
    let zone = fields.number(4)?;
    let day_ahead_status = fields.status(5)?;
    let day_ahead_load = fields.number(6)?;
    let real_time_status = fields.status(7)?;
    let real_time_load = fields.number(8)?;
    fields.end(9)?;
    Ok(Line::Bus(BusLine {
        bus,
        hub_bus,
        zone,
        day_ahead_status,
        day_ahead_load,
        real_time_status,
        real_time_load,
    }))
}

// The only field behind a letter, which has to be a number.
fn read_number<'a>(mut fields: Fields<'a>) -> Result<&'a [u8], Spot>
    ensures { OneRead (left fields.entry) result }
{
    let number = fields.number(2)?;
    fields.end(3)?;
    Ok(number)
}

// The two fields behind a letter, which have to be numbers. Beside the reader of one: `array::try_from_fn` for any number of
// them asks that the items fit in memory, says of an error no turn that it came from, and the array is taken apart again.
fn read_pair<'a>(mut fields: Fields<'a>) -> Result<(&'a [u8], &'a [u8]), Spot>
    ensures { TwoRead (left fields.entry) result }
{
    let first = fields.number(2)?;
    let second = fields.number(3)?;
    fields.end(4)?;
    Ok((first, second))
}

fn read_run<'a>(mut fields: Fields<'a>) -> Result<Line<'a>, Spot>
    ensures { ReadAs pieces 82 run_of (left fields.entry) result }
{
    let run = fields.number(2)?;
    let seconds = fields.number(3)?;
    let reserve_adder = fields.number(4)?;
    let reliability_adder = fields.number(5)?;
    fields.end(6)?;
    Ok(Line::Run {
        run,
        seconds,
        reserve_adder,
        reliability_adder,
    })
}

impl<'a> BusLine<'a> {
    // The numbers of the fields.
    fn row(&self) -> Result<BusRow, Spot>
        ensures { BusRead (bus_of (bus_pieces self.now)) result }
    {
        Ok(BusRow {
            bus: at(2, read_decimal(self.bus))?,
            hub_bus: at(3, read_decimal(self.hub_bus))?,
            zone: at(4, read_decimal(self.zone))?,
            day_ahead_live: at(5, read_status(self.day_ahead_status))?,
            day_ahead_load: at(6, read_decimal(self.day_ahead_load))?,
            real_time_live: at(7, read_status(self.real_time_status))?,
            real_time_load: at(8, read_decimal(self.real_time_load))?,
        })
    }
}

impl<'a> Line<'a> {
    // The line that a part of the text writes, or its first wrong, missing or surplus field.
    #[tactic(auto, using(crate::proofs::Forms::read_located))]
    pub fn read(line: &'a [u8]) -> Result<Line<'a>, Spot>
        ensures value { ReadLine pieces row_of (split comma line.now) result }
        ensures place { Located (wrong_field (split comma line.now)) result }
    {
        let (first, fields) = Fields::of(line);
        match read_letter(first).ok_or(malformed(1))? {
            'B' => read_bus(fields),
            'L' => {
                let lambda = read_number(fields)?;
                Ok(Line::Lambda { lambda })
            }
            'C' => {
                let (constraint, shadow_price) = read_pair(fields)?;
                Ok(Line::Constraint {
                    constraint,
                    shadow_price,
                })
            }
            'O' => {
                let (constraint, bus) = read_pair(fields)?;
                Ok(Line::Outage { constraint, bus })
            }
            'R' => read_run(fields),
            'Z' => {
                let count = read_number(fields)?;
                Ok(Line::End { count })
            }
            _ => Err(malformed(1)),
        }
    }

    // The numbers of its fields.
    pub fn row(&self) -> Result<Row, Spot>
        ensures { result ≡ row_of (pieces self.now) }
    {
        match *self {
            Line::Bus(bus) => Ok(Row::Bus(bus.row()?)),
            Line::Lambda { lambda } => Ok(Row::Lambda {
                lambda: at(2, read_decimal(lambda))?,
            }),
            Line::Constraint {
                constraint,
                shadow_price,
            } => Ok(Row::Constraint {
                constraint: at(2, read_decimal(constraint))?,
                shadow_price: at(3, read_decimal(shadow_price))?,
            }),
            Line::Outage { constraint, bus } => Ok(Row::Outage {
                constraint: at(2, read_decimal(constraint))?,
                bus: at(3, read_decimal(bus))?,
            }),
            Line::Run {
                run,
                seconds,
                reserve_adder,
                reliability_adder,
            } => Ok(Row::Run {
                run: at(2, read_decimal(run))?,
                seconds: at(3, read_decimal(seconds))?,
                reserve_adder: at(4, read_decimal(reserve_adder))?,
                reliability_adder: at(5, read_decimal(reliability_adder))?,
            }),
            Line::End { count } => Ok(Row::End {
                count: at(2, read_decimal(count))?,
            }),
        }
    }
}
