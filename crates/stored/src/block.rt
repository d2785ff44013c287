// Blocks of the stored form: 510 bytes, and the check of these.
ghost use Rattle.std.specs.Prelude.{◌≡◌, ℕ, ◌%◌, length, take, if◌then◌else◌, nat_eq};
ghost use Rattle.stored.specs.Block.{bars_of, block_of, body_of, byte_of_32, check_of, fields_of, flags_of, header_byte, lead_byte, position_byte, sealed};

use busbar::checked::CheckedRecord;
use busbar::record::Record;
use busbar::section::SubBars;
use std::array;

pub const BLOCK: usize = 512;

// What a block holds at each place before its check.
pub trait Block {
    ghost bytes: { Self → ℕ → ℕ };

    fn byte(&self, i: usize) -> u8
        ensures { result ≡ bytes self.now i };
}

// Block 0.
#[derive(Clone, Copy, Debug, PartialEq, Eq)]
pub struct Header {
    pub job: u16,
    pub level: u32,
    pub count: u8,
}

impl Block for Header {
    ghost bytes = { λ h. header_byte h.job h.level h.count };

    fn byte(&self, i: usize) -> u8 {
        match i {
            0 | 1 => 1,
            2 | 3 => self.job.to_be_bytes()[i - 2],
            4..=7 => self.level.to_be_bytes()[i - 4],
            8 => self.count,
            _ => 0,
        }
    }
}

// The block of a standing position.
#[derive(Clone, Copy, Debug, PartialEq, Eq)]
pub struct Line {
    pub number: u8,
    pub bar: CheckedRecord,
}

impl Block for Line {
    ghost bytes = { λ l. position_byte l.number l.bar.bar };

    fn byte(&self, i: usize) -> u8 {
        let bar = self.bar.bar;
        match i {
            0..=3 => lead_byte(self.number, &bar, i),
            4..=51 => byte_within(fields(&bar)[(i - 4) / 4], i - 4),
            52 => bars(&bar).count as u8,
            _ => 0,
        }
    }
}

// Kind, position, scheme and flags.
fn lead_byte(number: u8, bar: &Record, i: usize) -> u8
    ensures { result ≡ lead_byte number bar.now i }
{
    match i {
        0 => 2,
        1 => number,
        2 => bar.scheme as u8,
        _ => flags(bar),
    }
}

// The twelve fields of 32 bits, in their order.
fn fields(bar: &Record) -> [u32; 12]
    ensures { result ≡ fields_of bar.now }
{
    let sub_bars = bars(bar);
    [
        bar.span,
        bar.centre_distance,
        bar.distance_factor,
        bar.yield_stress,
        bar.rated_density,
        bar.support_strength,
        bar.section.modulus,
        bar.section.area,
        bar.section.plastic_factor,
        sub_bars.modulus,
        sub_bars.distance,
        sub_bars.spacing,
    ]
}

// Byte `place % 4` of a number of 32 bits, most significant first.
fn byte_within(number: u32, place: usize) -> u8
    ensures { result ≡ byte_of_32 number (place % 4) }
{
    number.to_be_bytes()[place % 4]
}

// The sub-bars: by a rule of the stored form zeros where there are none.
fn bars(bar: &Record) -> SubBars
    ensures { result ≡ bars_of bar.now.section.sub_bars }
{
    bar.section.sub_bars.unwrap_or_default()
}

fn flags(bar: &Record) -> u8
    ensures { result ≡ flags_of bar.now }
{
    bar.kind as u8 + 2 * (bar.reclosing as u8) + 4 * (bar.section.round as u8)
}

// The check of a block's 510 bytes: the sum of each byte times its place, counted from 1, cut down.
pub fn check(bytes: &[u8]) -> u16
    ensures { result ≡ check_of (take 510 bytes.now) }
{
    let sum: u32 = (1..511u16)
        .zip(bytes)
        .map(|(place, byte)| place as u32 * *byte as u32)
        .sum();
    (sum % 65_521) as u16
}

// Writes a block into its part of the buffer. A part of another length is left as it is.
pub fn write_block<B: Block>(block: &B, part: &mut [u8])
    ensures { part.new ≡ (if nat_eq (length part.old) 512 then block_of (B.Block.bytes block.now) else part.old) }
{
    if part.len() == BLOCK {
        part[..510].copy_from_slice(&body(block));
        seal(part);
    }
}

// The 510 bytes of a block before its check.
fn body<B: Block>(block: &B) -> [u8; 510]
    ensures { result ≡ body_of (B.Block.bytes block.now) }
{
    array::from_fn(|i| block.byte(i))
}

// Writes the check of a block's 510 bytes behind them. A part of another length is left as it is.
pub fn seal(part: &mut [u8])
    ensures { part.new ≡ (if nat_eq (length part.old) 512 then sealed (take 510 part.old) else part.old) }
{
    if part.len() == BLOCK {
        let [high, low] = check(part).to_be_bytes();
        part[510] = high;
        part[511] = low;
    }
}
