// The report: text in, table out.
#![tactic(auto)]

ghost use Rattle.std.specs.Iterator.{at_most};
ghost use Rattle.std.specs.Prelude.{◌-◌, ◌≡◌, ◌++◌, ◌+◌, ◌^◌, ◌<◌, ◌≤◌, length, drop, replicate};
ghost use Rattle.report.specs.Input.{terms_of, energies_of, MovedOn, parsed};
ghost use Rattle.report.specs.Output as Output;
ghost use Rattle.report.specs.Report as Report;

use common::Refusal;
use monitor::{MonitorRefusal, Row};
use terms::Quantities;

#[derive(Clone, Copy, Debug, PartialEq, Eq)]
pub enum ReportRefusal {
    // The text is malformed.
    Malformed,
    // The direction is above 1,000 MW, or its quantity is 0.
    Quantity,
    // A bound is above 500 times the quantity.
    Bound,
    // A reported energy is above 10,000,000.
    Reported,
    // The output has fewer than 488 bytes.
    Short,
}

impl Refusal for ReportRefusal {
    ghost refusal = { Report.refusal_number };

    fn number(self) -> u32 {
        match self {
            ReportRefusal::Malformed => 13,
            ReportRefusal::Quantity => 1,
            ReportRefusal::Bound => 7,
            ReportRefusal::Reported => 11,
            ReportRefusal::Short => 14,
        }
    }
}

impl From<MonitorRefusal> for ReportRefusal {
    ghost from_gives = { λ of_monitor refusal. refusal ≡ Report.monitor_refusal of_monitor };

    fn from(of_monitor: MonitorRefusal) -> ReportRefusal {
        match of_monitor {
            MonitorRefusal::Quantity => ReportRefusal::Quantity,
            MonitorRefusal::Bound => ReportRefusal::Bound,
            MonitorRefusal::Reported => ReportRefusal::Reported,
        }
    }
}

// What a well-formed text says.
#[derive(Clone, Copy)]
struct Input {
    quantities: Quantities,
    bounds: [u32; 8],
    reported: [u32; 8],
}

// What one of lines 2 to 9 says.
#[derive(Clone, Copy)]
struct Energies {
    bound: u32,
    reported: u32,
}

// The quantities of line 1, with its line feed; nothing where it is malformed.
#[tactic(auto, unfolding(crate::specs::Input::terms_of))]
fn read_terms(line: &[u8]) -> Option<Quantities>
    requires { length line.now ≡ 37 }
    ensures { result ≡ terms_of line.now }
{
    let direction = columns::number_at(line, 0).number()?;
    let dc = columns::number_at(line, 9).number()?;
    let dm = columns::number_at(line, 18).number()?;
    let dr = columns::number_at(line, 27).number()?;
    if (line[36] == b'\n') & ((direction == 1) | (direction == 2)) {
        return Some(Quantities { dc, dm, dr });
    }
    None
}

// One of lines 2 to 9, with its line feed; nothing where it is malformed.
#[tactic(auto, unfolding(crate::specs::Input::energies_of))]
fn read_energies(line: &[u8]) -> Option<Energies>
    requires { length line.now ≡ 19 }
    ensures { result ≡ energies_of line.now }
{
    let bound = columns::number_at(line, 0).number()?;
    let reported = columns::number_at(line, 9).number()?;
    if line[18] == b'\n' {
        return Some(Energies { bound, reported });
    }
    None
}

// An iterator over the lines of a text, from line `line` on: line 1 has 37 bytes, each line after it 19.
#[derive(Clone, Copy)]
struct Reader<'a> {
    text: &'a [u8],
    line: usize,
}

impl<'a> Reader<'a> {
    // Before line 1.
    fn of(text: &'a [u8]) -> Reader<'a>
        ensures { (result.text ≡ text.entry) × (result.line ≡ 1) }
    {
        Reader { text, line: 1 }
    }
}

impl<'a> Iterator for Reader<'a> {
    type Item = &'a [u8];

    ghost next_gives = { MovedOn };

    ghost remaining = { λ s. at_most (length s.text.now - s.line) };

    // The next line; nothing where the text ends before the line does.
    fn next(&mut self) -> Option<&'a [u8]> {
        let text = self.text;
        let n = self.line;
        if n == 0 || text.len() < 37 {
            return None;
        }
        if n == 1 {
            self.line = n + 1;
            return Some(&text[..37]);
        }
        let before = n - 2;
        if (text.len() - 37) / 19 <= before {
            return None;
        }
        let at = 37 + 19 * before;
        self.line = n + 1;
        Some(&text[at..at + 19])
    }
}

// What a text says; nothing where it is malformed.
fn parse(text: &[u8]) -> Option<Input>
    ensures { result ≡ parsed text.now }
{
    if text.len() != 189 {
        return None;
    }
    let mut reader = Reader::of(text);
    let quantities = read_terms(reader.next()?)?;
    let mut bounds = [0u32; 8];
    let mut reported = [0u32; 8];
    for i in 0..8 {
        let energies = read_energies(reader.next()?)?;
        bounds[i] = energies.bound;
        reported[i] = energies.reported;
    }
    Some(Input {
        quantities,
        bounds,
        reported,
    })
}

// A line of the table, with its line feed.
fn put_row(line: &mut [u8], r: Row)
    requires { length line.old ≡ 61 }
    ensures { line.new ≡ Output.line_of r }
{
    columns::put_number(line, 0, 2, r.period as u64);
    columns::put_number(line, 2, 9, r.bound as u64);
    columns::put_signed(line, 11, 9, r.start);
    columns::put_signed(line, 20, 9, r.end);
    columns::put_number(line, 29, 9, r.sched);
    columns::put_number(line, 38, 9, r.back);
    columns::put_number(line, 47, 9, r.left);
    columns::put_number(line, 56, 2, u64::from(r.flag));
    columns::put_number(line, 58, 2, u64::from(r.verdict));
    line[60] = b'\n';
}

// The table at the start of the output; the rest of the output stays.
fn put_rows(output: &mut [u8], rows: [Row; 8])
    requires { 488 ≤ length output.old }
    ensures { output.new ≡ Output.table rows ++ drop 488 output.old }
{
    for (i, r) in rows.iter().enumerate() {
        let at = 61 * i;
        put_row(&mut output[at..at + 61], *r);
    }
}

// The table of any rows.
pub fn table_of(rows: [Row; 8]) -> [u8; 488]
    ensures { result ≡ Output.table rows }
{
    let mut output = [0u8; 488];
    put_rows(&mut output, rows);
    output
}

// Reads the input, monitors it and writes the table at the start of the output: refusals 13, 1, 7, 11, 14.
pub fn report(input: &[u8], output: &mut [u8]) -> Result<(), ReportRefusal>
    ensures answer { Report.answer_of result output.new ≡ Report.reporting input.now output.old }
    ensures output { output.new ≡ Report.output_after input.now output.old }
{
    let p = parse(input).ok_or(ReportRefusal::Malformed)?;
    let rows = monitor::monitor(p.quantities, p.bounds, p.reported)?;
    if output.len() < 488 {
        return Err(ReportRefusal::Short);
    }
    put_rows(output, rows);
    Ok(())
}
