// A record of which every question got a yes. The figures take this type, so none of them can be asked of a bad record.
ghost use Rattle.std.specs.Prelude.{◌≡◌, true, Some, None, MatchResult};
ghost use Rattle.busbar.specs.Record.{passes, record_no, section_inside, spacing_fits};

use super::question::Question;
use super::ranged::inside;
use super::record::Record;
use super::section::Section;

#[derive(Clone, Copy, Debug, PartialEq, Eq)]
pub struct CheckedRecord {
    pub bar: Record,
    ghost passed: { passes bar ≡ true },
}

impl CheckedRecord {
    // The record, or the first of its questions that got a no.
    pub fn new(bar: Record) -> Result<CheckedRecord, Question>
        ensures { MatchResult result (λ v. (v.bar ≡ bar) × (record_no bar ≡ None)) (λ q. record_no bar ≡ Some q) }
    {
        ask_all(&bar)?;
        Ok(CheckedRecord { bar })
    }
}

// A record's questions, in their order.
fn ask_all(bar: &Record) -> Result<(), Question>
    ensures { MatchResult result (λ _. record_no bar.now ≡ None) (λ q. record_no bar.now ≡ Some q) }
{
    Question::SectionFigures.ask(figures_inside(&bar.section))?;
    Question::Span.ask(inside(bar.span, 50, 3_000))?;
    Question::CentreDistance.ask(inside(bar.centre_distance, 20, 1_000))?;
    Question::DistanceFactor.ask(
        inside(bar.distance_factor, 100, 1_500)
            && (!bar.section.round || bar.distance_factor == 1_000),
    )?;
    Question::YieldStress.ask(inside(bar.yield_stress, 20, 400))?;
    Question::RatedDensity.ask(inside(bar.rated_density, 50, 200))?;
    Question::SupportStrength.ask(inside(bar.support_strength, 100, 100_000))?;
    Question::PieceSpacing.ask(pieces_fit(bar))
}

// Whether a section's figures lie inside their limits.
fn figures_inside(section: &Section) -> bool
    ensures { result ≡ section_inside section.now }
{
    inside(section.modulus, 10_000, 1_000_000_000)
        && inside(section.area, 30_000, 32_000_000)
        && inside(section.plastic_factor, 10_000, 17_000)
        && section.sub_bars.is_none_or(|bars| {
            inside(bars.count, 2, 3)
                && inside(bars.modulus, 10_000, 1_000_000_000)
                && inside(bars.distance, 13, 80)
                && inside(bars.spacing, 20, 3_000)
        })
}

// Whether the connecting pieces lie no further apart than the supports.
fn pieces_fit(bar: &Record) -> bool
    ensures { result ≡ spacing_fits bar.now }
{
    bar.section
        .sub_bars
        .is_none_or(|bars| bars.spacing <= bar.span)
}
