// What the lines so far have made, and each call on it, which prints its answer.
use crate::call::{Call, Service};
use crate::readings::Readings;
use crate::record;
use common::Directions;
use energy::block::{check_block, part};
use energy::containment::response_by_table;
use energy::curve::{Curve, Curves};
use energy::period::{BySteps, ByTable, Way, period_energy};
use ledger::Closing;
use ledger_record::{Record, blank_record};
use std::io;
use terms::{Quantities, Terms};

// Why no line is read after this one.
#[derive(Drop)]
pub enum Stop {
    // It is no call, or one that puts no number of the record, or that reads more than there is room for.
    Malformed,
    Io(io::Error),
}

impl From<io::Error> for Stop {
    fn from(error: io::Error) -> Stop {
        Stop::Io(error)
    }
}

fn respond(rt: &impl Print, mw: u32, deviation: u16) -> io::Result<()> {
    println!(rt; "respond {}", response_by_table(mw, deviation))
}

#[derive(Drop)]
pub struct State {
    curves: Curves,
    record: Record,
    readings: Readings,
}

impl State {
    // The blank record of a refused opening, with its curves.
    pub fn new() -> State {
        let record = blank_record();
        State {
            curves: record.curves,
            record,
            readings: Readings::new(),
        }
    }

    // Carries out the call that a line names.
    pub fn carry_out(&mut self, rt: &impl Print, line: &[u8]) -> Result<(), Stop> {
        match Call::parse(line).ok_or(Stop::Malformed)? {
            Call::Curve(service, curve) => self.set_curve(service, curve),
            Call::Open { terms, size, first } => self.open(rt, terms, size, first)?,
            Call::Read { reading, times } => {
                self.readings.extend(reading, times).ok_or(Stop::Malformed)?
            }
            Call::Check(purchase) => self.check(rt, purchase)?,
            Call::Propose => self.propose(rt)?,
            Call::Close(closing) => self.close(rt, closing)?,
            Call::Put { key, value } => {
                record::put(&mut self.record, key, value).ok_or(Stop::Malformed)?
            }
            Call::Energy(quantities) => self.bounds::<BySteps>(rt, "energy", quantities)?,
            Call::Table(quantities) => self.bounds::<ByTable>(rt, "table", quantities)?,
            Call::Respond { mw, deviation } => respond(rt, mw, deviation)?,
            Call::Block => self.block(rt)?,
            Call::Part(period) => self.part(rt, period)?,
            Call::Clear => self.readings.clear(),
        }
        Ok(())
    }

    fn set_curve(&mut self, service: Service, curve: Curve) {
        match service {
            Service::Containment => self.curves.dc = curve,
            Service::Moderation => self.curves.dm = curve,
            Service::Regulation => self.curves.dr = curve,
        }
    }

    fn open(&mut self, rt: &impl Print, terms: Terms, size: u32, first: u32) -> io::Result<()> {
        let opened = ledger_record::open_record(terms, self.curves, size, first);
        println!(rt; "open {}", common::number(opened))?;
        self.record = opened.unwrap_or(blank_record());
        record::print(rt, &self.record)
    }

    fn check(&self, rt: &impl Print, purchase: i64) -> io::Result<()> {
        let checked = ledger::check_purchase(&self.record, purchase);
        println!(rt; "check {}", common::number(checked))?;
        record::print(rt, &self.record)
    }

    fn propose(&self, rt: &impl Print) -> io::Result<()> {
        let proposed = ledger::propose_purchase(&self.record);
        println!(rt;
            "propose {} {}",
            common::number(proposed),
            proposed.unwrap_or(0)
        )?;
        record::print(rt, &self.record)
    }

    fn close(&mut self, rt: &impl Print, closing: Closing) -> io::Result<()> {
        let closed = ledger::close_period(&mut self.record, closing, self.readings.as_slice());
        self.readings.clear();
        println!(rt; "close {}", common::number(closed))?;
        record::print(rt, &self.record)
    }

    // The bounds of a period with the readings, worked out in one way or the other.
    fn bounds<W: Way>(
        &mut self,
        rt: &impl Print,
        word: &str,
        quantities: Directions<Quantities>,
    ) -> io::Result<()> {
        let answer = period_energy::<W>(quantities, self.curves, self.readings.as_slice());
        self.readings.clear();
        let bounds = answer.unwrap_or(Directions { low: 0, high: 0 });
        println!(rt;
            "{word} {} {} {}",
            common::number(answer),
            bounds.low,
            bounds.high
        )
    }

    fn block(&self, rt: &impl Print) -> io::Result<()> {
        match check_block(self.readings.as_slice()) {
            Ok(()) => println!(rt; "block 0 0 0"),
            Err(bad) => println!(rt; "block 6 {} {}", bad.period, bad.place),
        }
    }

    // How many readings the part of a period has, its first and its last.
    fn part(&self, rt: &impl Print, period: u32) -> io::Result<()> {
        let part = part(self.readings.as_slice(), period);
        let first = part.first().unwrap_or(&0);
        let last = part.last().unwrap_or(&0);
        println!(rt; "part {} {first} {last}", part.len())
    }
}
