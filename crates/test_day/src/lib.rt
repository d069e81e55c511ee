// A test day: readings that anyone can repeat from a seed, and a period of them as text.
#![tactic(auto)]

ghost use Rattle.std.specs.Prelude.{◌≡◌, ◌+◌, ◌≤◌, length};
ghost use Rattle.std.specs.List.{flat_map};
ghost use Rattle.common.specs.Lists.{placed};
ghost use Rattle.columns.specs.Line.{number_line};
ghost use Rattle.test_day.specs.Day.{next_seed, reading, filling, filled, refusal_number, answer_of};
ghost use Rattle.test_day.specs.Page.{line_of, page_refusal_number, page_answer_of, page_readings, printed};

use common::Refusal;

#[derive(Clone, Copy, Debug, PartialEq, Eq)]
pub enum SeedRefusal {
    // The seed is above 2,147,483,647.
    TooLarge,
}

// Why a text has no readings.
#[derive(Clone, Copy, Debug, PartialEq, Eq)]
enum PageRefusal {
    // It is no line with a seed.
    Malformed,
    Seed(SeedRefusal),
}

fn next_seed(old: u32) -> u32
    ensures { result ≡ next_seed old }
{
    ((1_103_515_245 * old as u64 + 12_345) % 2_147_483_648) as u32
}

fn reading_of(new: u32) -> u16
    ensures { result ≡ reading new }
{
    (49_500 + (new / 65_536) % 1_001) as u16
}

// Fills the buffer with readings, a step for each, and gives the last seed. A seed too large leaves the buffer as it is.
#[tactic(auto, unfolding(crate::specs::Day::filling, crate::specs::Day::filled))]
pub fn fill(seed: u32, buffer: &mut [u16]) -> Result<u32, SeedRefusal>
    ensures answer { answer_of result ≡ filling seed (length buffer.old) }
    ensures buffer { buffer.new ≡ filled seed buffer.old }
{
    if 2_147_483_647 < seed {
        return Err(SeedRefusal::TooLarge);
    }
    let mut last = seed;
    for place in buffer.iter_mut() {
        let new = next_seed(last);
        *place = reading_of(new);
        last = new;
    }
    Ok(last)
}

impl Refusal for SeedRefusal {
    ghost refusal = { refusal_number };

    fn number(self) -> u32 {
        match self {
            SeedRefusal::TooLarge => 21,
        }
    }
}

impl Refusal for PageRefusal {
    ghost refusal = { page_refusal_number };

    fn number(self) -> u32 {
        match self {
            PageRefusal::Malformed => 13,
            PageRefusal::Seed(refusal) => refusal.number(),
        }
    }
}

// One to ten digits and a line feed. Nine digits are below 10^9, so that the tenth fits.
fn read_line(text: &[u8]) -> Option<u64>
    ensures { result ≡ line_of text.now }
{
    if (text.len() < 2) | (11 < text.len()) {
        return None;
    }
    let end = text.len() - 1;
    if text[end] != b'\n' {
        return None;
    }
    // A zero in front stands alone.
    if (1 < end) & (text[0] == b'0') {
        return None;
    }
    let mut seed: u64 = 0;
    for b in &text[..end] {
        if !b.is_ascii_digit() {
            return None;
        }
        seed = 10 * seed + (*b - b'0') as u64;
    }
    Some(seed)
}

// The readings of a period for the seed in the text.
fn period(text: &[u8]) -> Result<[u16; 3600], PageRefusal>
    ensures { page_answer_of result ≡ page_readings text.now }
{
    let Some(seed) = read_line(text) else {
        return Err(PageRefusal::Malformed);
    };
    let mut readings = [0u16; 3600];
    // What a u32 cannot hold is too large as well.
    let handed = seed.min(4_294_967_295) as u32;
    match fill(handed, &mut readings) {
        Ok(_) => Ok(readings),
        Err(refusal) => Err(PageRefusal::Seed(refusal)),
    }
}

// A number in nine columns and a line feed.
fn put_line(page: &mut [u8], at: usize, n: u64)
    requires { at + 10 ≤ length page.old }
    ensures { page.new ≡ placed at (number_line n) page.old }
{
    page[at..at + 10].copy_from_slice(&columns::number_line(n));
}

// The line of a refusal at the start of the page.
fn put_refusal(page: &mut [u8], n: u32)
    ensures { page.new ≡ placed 0 (number_line n) page.old }
{
    if page.len() < 10 {
        return;
    }
    put_line(page, 0, n as u64);
}

// A line for each reading at the start of the page.
fn put_lines(page: &mut [u8], readings: &[u16])
    ensures { page.new ≡ placed 0 (flat_map number_line readings.now) page.old }
{
    if page.len() / 10 < readings.len() {
        return;
    }
    for (i, reading) in readings.iter().enumerate() {
        put_line(page, 10 * i, *reading as u64);
    }
}

// Prints a period of readings for the seed in the text, or 13 or 21, at the start of the page, and gives how many bytes that takes,
// at most 36,000. The bytes past them stay, and so does a page that has not all of these.
pub fn print_period(text: &[u8], page: &mut [u8]) -> usize
    ensures count { result ≡ length (printed text.now) }
    ensures page { page.new ≡ placed 0 (printed text.now) page.old }
{
    match period(text) {
        Ok(readings) => {
            put_lines(page, &readings);
            36_000
        }
        Err(refusal) => {
            put_refusal(page, refusal.number());
            10
        }
    }
}
