// Headroom and footroom, response capability and contracted quantity of a unit, in kW.
#![tactic(auto)]

ghost use Rattle.std.specs.Prelude.{◌≡◌, true, false, [], ◌∷◌, ◌+◌, ◌^◌, ◌≤◌, ◌<◌, ◌-ℤ◌, MatchResult};
ghost use Rattle.std.specs.Int.Signed.{le_z};
ghost use Rattle.common.specs.Fraction.{rounded_down};
ghost use Rattle.common.specs.Lists.{every};
ghost use Rattle.signed.specs.Sign.{above};
ghost use Rattle.capability.specs.Capability.{in_range, limits_rule, whole_range, headroom, footroom, direction_number, direction_rule, room_of};
ghost use Rattle.capability.specs.Capability.{point_in_range, rises, points_rule, Segment, line, capability_of};
ghost use Rattle.capability.specs.Capability.{data_number, answer_of, room_answer, capability_answer};
ghost use Rattle.capability.specs.Quantity.{capability_or_limit, availability_number, availability_rule, energies_rule, energy_of, no_quantity};
ghost use Rattle.capability.specs.Quantity.{quantity_number, answer_of_quantity, quantity_answer};
ghost use Rattle.capability.specs.declared.QuantityRefusal.TheVariants.{Data};

use common::{LinePoint, Refusal};

// Maximum and stable import limits, stable and maximum export limits, operating level.
#[derive(Clone, Copy)]
pub struct Limits {
    pub mil: i64,
    pub sil: i64,
    pub sel: i64,
    pub mel: i64,
    pub ol: i64,
}

#[derive(Clone, Copy)]
pub struct Point {
    pub room: u32,
    pub capability: u32,
}

// A unit's remaining deliverable energy for offers and for bids, in kWh.
#[derive(Clone, Copy)]
pub struct Energies {
    pub offer: u32,
    pub bid: u32,
}

// ---- refusals

// Refusal 12: another direction or availability, or data that break their rule.
#[derive(Clone, Copy, Debug, PartialEq, Eq)]
pub struct DataRefusal;

#[derive(Clone, Copy, Debug, PartialEq, Eq)]
pub enum QuantityRefusal {
    // Another direction or availability, or data that break their rule.
    Data,
    // An energy above its limit.
    Energy,
}

impl Refusal for DataRefusal {
    ghost refusal = { data_number };

    fn number(self) -> u32 {
        12
    }
}

impl Refusal for QuantityRefusal {
    ghost refusal = { quantity_number };

    fn number(self) -> u32 {
        match self {
            QuantityRefusal::Data => 12,
            QuantityRefusal::Energy => 18,
        }
    }
}

impl From<DataRefusal> for QuantityRefusal {
    ghost from_gives = { λ _ refusal. refusal ≡ Data };

    fn from(_refusal: DataRefusal) -> QuantityRefusal {
        QuantityRefusal::Data
    }
}

// ---- the numbers for a direction and for whether a unit is available

#[derive(Clone, Copy)]
enum Direction {
    Low,
    High,
}

impl TryFrom<u32> for Direction {
    type Error = DataRefusal;

    ghost try_from_gives = { λ n answer. MatchResult answer (λ direction. direction_number direction ≡ n) (λ _. direction_rule n ≡ false) };

    fn try_from(n: u32) -> Result<Direction, DataRefusal> {
        match n {
            1 => Ok(Direction::Low),
            2 => Ok(Direction::High),
            _ => Err(DataRefusal),
        }
    }
}

#[derive(Clone, Copy, PartialEq, Eq)]
enum Availability {
    Unavailable,
    Available,
}

impl TryFrom<u32> for Availability {
    type Error = DataRefusal;

    ghost try_from_gives = { λ n answer. MatchResult answer (λ available. availability_number available ≡ n) (λ _. availability_rule n ≡ false) };

    fn try_from(n: u32) -> Result<Availability, DataRefusal> {
        match n {
            0 => Ok(Availability::Unavailable),
            1 => Ok(Availability::Available),
            _ => Err(DataRefusal),
        }
    }
}

// ---- rooms

fn in_range(z: i64) -> bool
    ensures { result ≡ in_range z }
{
    (-2_000_000 <= z) & (z <= 2_000_000)
}

impl Limits {
    fn each_in_range(self) -> bool
        ensures { result ≡ every in_range (self.mil ∷ self.sil ∷ self.sel ∷ self.mel ∷ self.ol ∷ []) }
    {
        in_range(self.mil)
            & (in_range(self.sil) & (in_range(self.sel) & (in_range(self.mel) & in_range(self.ol))))
    }

    fn hold(self) -> bool
        ensures { result ≡ limits_rule self }
    {
        self.each_in_range()
            & (self.mil <= self.sil)
            & (self.sil <= 0)
            & (0 <= self.sel)
            & (self.sel <= self.mel)
            & ((self.mil <= self.ol) & (self.ol <= self.mel))
    }

    // SEL = SIL = 0
    fn whole_range(self) -> bool
        ensures { result ≡ whole_range self }
    {
        (self.sel == 0) & (self.sil == 0)
    }

    // OL ≥ SEL
    fn at_or_above_sel(self) -> bool
        ensures { result ≡ le_z self.sel self.ol }
    {
        self.sel <= self.ol
    }

    // OL ≤ SIL
    fn at_or_below_sil(self) -> bool
        ensures { result ≡ le_z self.ol self.sil }
    {
        self.ol <= self.sil
    }

    #[tactic(auto, unfolding(crate::specs::Capability::headroom))]
    fn headroom(self) -> u64
        ensures { result ≡ above (headroom self) }
    {
        if self.whole_range() | self.at_or_above_sel() {
            return signed::excess(self.mel, self.ol);
        }
        if self.at_or_below_sil() {
            return signed::excess(self.sil, self.ol);
        }
        0
    }

    // Headroom's mirror image, and yet not the headroom of the limits with their signs changed: the least i64 has no opposite.
    #[tactic(auto, unfolding(crate::specs::Capability::footroom))]
    fn footroom(self) -> u64
        ensures { result ≡ above (footroom self) }
    {
        if self.whole_range() | self.at_or_below_sil() {
            return signed::excess(self.ol, self.mil);
        }
        if self.at_or_above_sel() {
            return signed::excess(self.ol, self.sel);
        }
        0
    }

    #[tactic(auto, unfolding(crate::specs::Capability::room_of))]
    fn room(self, direction: Direction) -> u64
        ensures { result ≡ room_of (direction_number direction) self }
    {
        match direction {
            Direction::Low => self.headroom(),
            Direction::High => self.footroom(),
        }
    }
}

// ---- capability

impl LinePoint for Point {
    ghost in_range = { point_in_range };

    ghost rises = { rises };

    fn is_in_range(self) -> bool {
        (self.room <= 4_000_000) & (self.capability <= 4_000_000)
    }

    fn rises_to(self, next: Point) -> bool {
        (self.room < next.room) & (self.capability <= next.capability)
    }
}

// Two to five points on a line, the first at room 0.
#[tactic(auto, unfolding(crate::specs::Capability::points_rule))]
fn points_hold(points: &[Point]) -> bool
    ensures { result ≡ points_rule points.now }
{
    if !((2 <= points.len()) & (points.len() <= 5)) {
        return false;
    }
    (points[0].room == 0) & common::is_line(points[0], &points[1..])
}

// The line through two points, rounded down.
fn on_line(p: Point, q: Point, room: u32) -> u64
    requires { Segment p q × (p.room ≤ room) }
    ensures { result ≡ rounded_down (line p q room) }
{
    let width = (q.room - p.room) as u64;
    let rise = (q.capability - p.capability) as u64;
    let past = (room - p.room) as u64;
    (p.capability as u64 * width + rise * past) / width
}

// The line of the first segment that ends at the room or past it, else of the last two points.
fn capability_of(points: &[Point], room: u32) -> u64
    requires { points_rule points.now ≡ true }
    ensures { result ≡ capability_of points.now room }
{
    let mut p = points[0];
    let mut q = points[1];
    let others = &points[2..];
    for next in others {
        if room <= q.room {
            return on_line(p, q, room);
        }
        p = q;
        q = *next;
    }
    on_line(p, q, room)
}

// The room of a direction: 1 low, headroom; 2 high, footroom.
#[tactic(auto, unfolding(crate::specs::Capability::room_answer))]
pub fn room(direction: u32, limits: Limits) -> Result<u64, DataRefusal>
    ensures { answer_of result ≡ room_answer direction limits }
{
    let direction = Direction::try_from(direction)?;
    if !limits.hold() {
        return Err(DataRefusal);
    }
    Ok(limits.room(direction))
}

// The response capability at a room of 0 to 4,000,000.
#[tactic(auto, unfolding(crate::specs::Capability::capability_answer))]
pub fn capability(points: &[Point], room: u32) -> Result<u64, DataRefusal>
    ensures { answer_of result ≡ capability_answer points.now room }
{
    let good = points_hold(points) & (room <= 4_000_000);
    if !good {
        return Err(DataRefusal);
    }
    Ok(capability_of(points, room))
}

// ---- the contracted quantity

impl Energies {
    fn hold(self) -> bool
        ensures { result ≡ energies_rule self }
    {
        (self.offer <= 10_000_000) & (self.bid <= 10_000_000)
    }

    fn in_direction(self, direction: Direction) -> u32
        ensures { result ≡ energy_of (direction_number direction) self }
    {
        match direction {
            Direction::Low => self.offer,
            Direction::High => self.bid,
        }
    }
}

// Not available, or without energy in that direction.
fn no_quantity(direction: Direction, available: Availability, energies: Energies) -> bool
    ensures { result ≡ no_quantity (direction_number direction) (availability_number available) energies }
{
    (available == Availability::Unavailable) | (energies.in_direction(direction) == 0)
}

#[tactic(auto, unfolding(crate::specs::Quantity::capability_or_limit))]
fn capability_or_limit(direction: Direction, limits: Limits, points: &[Point], limit: u32) -> u64
    requires limits { limits_rule limits ≡ true }
    requires points { points_rule points.now ≡ true }
    ensures { result ≡ capability_or_limit (direction_number direction) limits points.now limit }
{
    let room = limits.room(direction) as u32;
    capability_of(points, room).min(limit as u64)
}

// The smaller of capability and submitted limit for a unit that is available and has energy in that direction, else 0.
#[tactic(auto, unfolding(crate::specs::Quantity::quantity_answer, crate::specs::Quantity::quantity_of, crate::specs::Quantity::data_rule))]
pub fn quantity(
    direction: u32,
    available: u32,
    energies: Energies,
    limits: Limits,
    points: &[Point],
    limit: u32,
) -> Result<u64, QuantityRefusal>
    ensures { answer_of_quantity result ≡ quantity_answer direction available energies limits points.now limit }
{
    let direction = Direction::try_from(direction)?;
    let available = Availability::try_from(available)?;
    let good = limits.hold() & points_hold(points) & (limit <= 4_000_000);
    if !good {
        return Err(QuantityRefusal::Data);
    }
    if !energies.hold() {
        return Err(QuantityRefusal::Energy);
    }
    if no_quantity(direction, available, energies) {
        return Ok(0);
    }
    Ok(capability_or_limit(direction, limits, points, limit))
}
