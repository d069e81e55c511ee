// The calls that lines name: a word, and numbers with a blank before each.
use common::Directions;
use energy::curve::{Curve, Point};
use ledger::Closing;
use std::str;
use std::str::Split;
use terms::{Quantities, Terms};

// The service whose curve a line sets.
#[derive(Clone, Copy)]
pub enum Service {
    Containment,
    Moderation,
    Regulation,
}

// A number that is no service's.
#[derive(Clone, Copy)]
pub struct NoService;

impl TryFrom<i64> for Service {
    type Error = NoService;

    fn try_from(number: i64) -> Result<Service, NoService> {
        match number {
            1 => Ok(Service::Containment),
            2 => Ok(Service::Moderation),
            3 => Ok(Service::Regulation),
            _ => Err(NoService),
        }
    }
}

#[derive(Clone, Copy)]
pub enum Call {
    // curve S D1 H1 ..
    Curve(Service, Curve),
    // open LDC LDM LDR HDC HDM HDR EXPORT IMPORT SIZE FIRST
    Open { terms: Terms, size: u32, first: u32 },
    // read V N
    Read { reading: u16, times: usize },
    // check P
    Check(i64),
    Propose,
    // close P D T W
    Close(Closing),
    // put K V
    Put { key: usize, value: i64 },
    // energy and table LDC LDM LDR HDC HDM HDR
    Energy(Directions<Quantities>),
    Table(Directions<Quantities>),
    // respond MW D
    Respond { mw: u32, deviation: u16 },
    Block,
    // part N
    Part(u32),
    Clear,
}

// A number of the type that is wanted: decimal digits, after a - where it is below 0.
fn number<T: TryFrom<i64, Error: Drop>>(part: &str) -> Option<T> {
    // `parse` takes a + as well.
    if part.starts_with('+') {
        return None;
    }
    T::try_from(part.parse::<i64>().ok()?).ok()
}

// The next part of a line, a number.
fn next<T: TryFrom<i64, Error: Drop>>(parts: &mut Split<'_, char>) -> Option<T> {
    number(parts.next()?)
}

fn quantities(parts: &mut Split<'_, char>) -> Option<Quantities> {
    Some(Quantities {
        dc: next(parts)?,
        dm: next(parts)?,
        dr: next(parts)?,
    })
}

fn both_quantities(parts: &mut Split<'_, char>) -> Option<Directions<Quantities>> {
    Some(Directions {
        low: quantities(parts)?,
        high: quantities(parts)?,
    })
}

fn terms(parts: &mut Split<'_, char>) -> Option<Terms> {
    Some(Terms {
        low: quantities(parts)?,
        high: quantities(parts)?,
        export_limit: next(parts)?,
        import_limit: next(parts)?,
    })
}

// The points that the line has, and after them points of 0.
fn curve(parts: &mut Split<'_, char>) -> Option<Curve> {
    let mut points = [Point::default(); 5];
    let mut count = 0;
    for (i, point) in points.iter_mut().enumerate() {
        let Some(deviation) = parts.next() else {
            break;
        };
        *point = Point {
            deviation: number(deviation)?,
            share: next(parts)?,
        };
        count = i as u8 + 1;
    }
    Some(Curve { count, points })
}

fn closing(parts: &mut Split<'_, char>) -> Option<Closing> {
    Some(Closing {
        purchase: next(parts)?,
        delivered: next(parts)?,
        taken: next(parts)?,
        trader: next(parts)?,
    })
}

impl Call {
    // The call that a line names, without its line feed: a word, and the numbers that the word takes.
    pub fn parse(line: &[u8]) -> Option<Call> {
        let mut parts = str::from_utf8(line).ok()?.split(' ');
        let call = match parts.next()? {
            "curve" => Call::Curve(next(&mut parts)?, curve(&mut parts)?),
            "open" => Call::Open {
                terms: terms(&mut parts)?,
                size: next(&mut parts)?,
                first: next(&mut parts)?,
            },
            "read" => Call::Read {
                reading: next(&mut parts)?,
                times: next(&mut parts)?,
            },
            "check" => Call::Check(next(&mut parts)?),
            "propose" => Call::Propose,
            "close" => Call::Close(closing(&mut parts)?),
            "put" => Call::Put {
                key: next(&mut parts)?,
                value: next(&mut parts)?,
            },
            "energy" => Call::Energy(both_quantities(&mut parts)?),
            "table" => Call::Table(both_quantities(&mut parts)?),
            "respond" => Call::Respond {
                mw: next(&mut parts)?,
                deviation: next(&mut parts)?,
            },
            "block" => Call::Block,
            "part" => Call::Part(next(&mut parts)?),
            "clear" => Call::Clear,
            _ => return None,
        };
        if parts.next().is_some() {
            return None;
        }
        Some(call)
    }
}
