// Reading a block: its check, its layout, and what it holds.
ghost use Rattle.std.specs.Prelude.{◌≡◌, ◌+◌, true, false, map, take, drop, Ok, Err, MatchOption, MatchResult, slice_index};
ghost use Rattle.std.specs.List.{range_with_len};
ghost use Rattle.stored.specs.Read.{bars_from, check_right, header_layout, header_level, line_layout, number_at, read_header, read_line, record_from, scheme_from, zeros};

use super::block::check;
use super::place::Place;
use busbar::question::Question;
use busbar::ranged::Level;
use busbar::record::{FaultKind, Record, Scheme};
use busbar::section::{Section, SubBars};
use std::array;

// What the block of a position holds.
#[derive(Clone, Copy, Debug, PartialEq, Eq)]
pub struct Stored {
    pub place: Place,
    pub bar: Record,
}

// The level that block 0 holds: its check, its layout with the count of the blocks after it, and its job have to be right.
#[tactic(auto, unfolding(crate::specs::Read::read_header))]
pub fn read_header(part: &[u8], count: usize, job: u16) -> Result<Level, Question>
    ensures { MatchResult result (λ l. read_header part.now count job ≡ Ok l.value) (λ q. read_header part.now count job ≡ Err q) }
{
    Question::BlockCheck.ask(checked(part))?;
    Question::BlockLayout.ask(header_laid_out(part, count))?;
    header_level(part, job)
}

// The position and the record that a later block holds: its check and its layout have to be right, and its position above the last.
// `last` is 0 before the first position: a type without it would ask more of callers.
#[tactic(auto, unfolding(crate::specs::Read::read_line))]
pub fn read_line(part: &[u8], last: u32) -> Result<Stored, Question>
    ensures { MatchResult result (λ s. read_line part.now last ≡ Ok (record { number = s.place.value; bar = s.bar })) (λ q. read_line part.now last ≡ Err q) }
{
    Question::BlockCheck.ask(checked(part))?;
    let (place, scheme) = line_head(part, last).ok_or(Question::BlockLayout)?;
    let bar = record(part, scheme);
    Ok(Stored { place, bar })
}

fn checked(part: &[u8]) -> bool
    ensures { result ≡ check_right part.now }
{
    check(part) == u16::from_be_bytes(word(part, 510))
}

fn header_laid_out(part: &[u8], count: usize) -> bool
    ensures { result ≡ header_layout part.now count }
{
    byte(part, 0) == 1
        && byte(part, 1) == 1
        && byte(part, 8) as usize == count
        && zero_from(part, 9)
}

// The level, where the job is the right one and the level one that a sheet may have.
fn header_level(part: &[u8], job: u16) -> Result<Level, Question>
    ensures { MatchResult result (λ l. header_level part.now job ≡ Ok l.value) (λ q. header_level part.now job ≡ Err q) }
{
    Question::SameJob.ask(u16::from_be_bytes(word(part, 2)) == job)?;
    Level::new(number(part, 4)).ok_or(Question::Level)
}

// The position and the scheme, where the layout of the block is right.
fn line_head(part: &[u8], last: u32) -> Option<(Place, Scheme)>
    ensures { MatchOption result (line_layout part.now last ≡ false) (λ h. (h.0.value ≡ slice_index part.now 1) × (h.1 ≡ scheme_from (slice_index part.now 2)) × (line_layout part.now last ≡ true)) }
{
    let place = Place::new(byte(part, 1) as u32)?;
    let scheme = Scheme::try_from(byte(part, 2) as u32).ok()?;
    let laid_out = byte(part, 0) == 2
        && last < place.value
        && byte(part, 3) <= 7
        && zero_from(part, 53);
    laid_out.then_some((place, scheme))
}

fn record(part: &[u8], scheme: Scheme) -> Record
    requires { scheme ≡ scheme_from (slice_index part.now 2) }
    ensures { result ≡ record_from part.now }
{
    let flags = byte(part, 3);
    Record {
        kind: FaultKind::from(flags % 2 == 1),
        scheme,
        reclosing: flags / 2 % 2 == 1,
        span: number(part, 4),
        centre_distance: number(part, 8),
        distance_factor: number(part, 12),
        yield_stress: number(part, 16),
        rated_density: number(part, 20),
        support_strength: number(part, 24),
        section: Section {
            modulus: number(part, 28),
            area: number(part, 32),
            plastic_factor: number(part, 36),
            round: flags / 4 % 2 == 1,
            sub_bars: sub_bars(part),
        },
    }
}

// None where n, w, e and d are all 0. Leftovers beside n = 0 stay, and get a no from the record's questions.
fn sub_bars(part: &[u8]) -> Option<SubBars>
    ensures { result ≡ bars_from part.now }
{
    let bars = SubBars {
        count: byte(part, 52) as u32,
        modulus: number(part, 40),
        distance: number(part, 44),
        spacing: number(part, 48),
    };
    (bars != SubBars::default()).then_some(bars)
}

// A number of 32 bits from a place on, most significant byte first.
fn number(part: &[u8], place: usize) -> u32
    ensures { result ≡ number_at part.now place }
{
    u32::from_be_bytes(word(part, place))
}

// The bytes of a number from a place on, as many as its type has.
fn word<const N: usize>(part: &[u8], place: usize) -> [u8; N]
    ensures { result ≡ map (λ k. slice_index part.now (place + k)) (range_with_len 0 N) }
{
    let rest = &part[place.min(part.len())..];
    match rest.first_chunk::<N>() {
        // a whole block's numbers all lie inside it: they are read at once
        Some(bytes) => *bytes,
        None => array::from_fn(|k| byte(rest, k)),
    }
}

// The byte at a place. By the definition 0 past the end, so that parts of any length can be read.
fn byte(part: &[u8], place: usize) -> u8
    ensures { result ≡ slice_index part.now place }
{
    part.get(place).copied().unwrap_or(0)
}

// Whether the bytes from a place up to the check are all 0. A block is cut to its 510 bytes first: `take` and `skip` would count at each.
fn zero_from(part: &[u8], place: usize) -> bool
    ensures { result ≡ zeros (drop place (take 510 part.now)) }
{
    if part.len() < 510 {
        zero_to_the_end(part, place)
    } else {
        zero_to_the_end(&part[..510], place)
    }
}

fn zero_to_the_end(bytes: &[u8], place: usize) -> bool
    ensures { result ≡ zeros (drop place bytes.now) }
{
    all_zero(&bytes[place.min(bytes.len())..])
}

// Every byte is joined in and none ends the loop, so that many can be looked at in one step.
fn all_zero(bytes: &[u8]) -> bool
    ensures { result ≡ zeros bytes.now }
{
    let mut joined = 0u8;
    for byte in bytes {
        joined |= *byte;
    }
    joined == 0
}
