// A row of verdicts: a record that passes its questions, a told peak and heat, then the figures and the verdict.
use super::row::Row;
use busbar::checked::CheckedRecord;
use busbar::ranged::Peak;
use busbar::record::{FaultKind, Record, Scheme};
use busbar::section::{Section, SubBars};
use busbar::verdict::judge;

#[derive(PartialEq, Eq, Clone, Copy)]
struct Judged {
    current_force: u64,
    span_force: u64,
    sub_force: u64,
    main_stress: u64,
    sub_stress: u64,
    support_load: u64,
    rated_current: u64,
    // of a refused bar the number of the ground, the figure and the limit
    refusal: Option<(u32, u64, u64)>,
}

pub(crate) fn agrees(line: &str) -> Option<bool> {
    let mut row = Row::new(line, '\t');
    let bar = CheckedRecord::new(record(&mut row)?).ok()?;
    let peak = Peak::new(row.number()?)?;
    let heat = row.number()?;
    Some(worked_out(&bar, peak, heat) == expected(&mut row)?)
}

fn record(row: &mut Row) -> Option<Record> {
    Some(Record {
        kind: if row.flag()? {
            FaultKind::TwoLine
        } else {
            FaultKind::ThreePhase
        },
        scheme: Scheme::try_from(row.number::<u32>()?).ok()?,
        reclosing: row.flag()?,
        span: row.number()?,
        centre_distance: row.number()?,
        distance_factor: row.number()?,
        yield_stress: row.number()?,
        rated_density: row.number()?,
        support_strength: row.number()?,
        section: section(row)?,
    })
}

// W A q, round, n w e d. By the form of the table n is 0 where it has no sub-bars, and then w e d are not looked at.
fn section(row: &mut Row) -> Option<Section> {
    let modulus = row.number()?;
    let area = row.number()?;
    let plastic_factor = row.number()?;
    let round = row.flag()?;
    let bars = SubBars {
        count: row.number()?,
        modulus: row.number()?,
        distance: row.number()?,
        spacing: row.number()?,
    };
    Some(Section {
        modulus,
        area,
        plastic_factor,
        round,
        sub_bars: (bars.count != 0).then_some(bars),
    })
}

fn expected(row: &mut Row) -> Option<Judged> {
    Some(Judged {
        current_force: row.number()?,
        span_force: row.number()?,
        sub_force: row.number()?,
        main_stress: row.number()?,
        sub_stress: row.number()?,
        support_load: row.number()?,
        rated_current: row.number()?,
        refusal: refusal(row)?,
    })
}

// Zeros stand for an accepted bar.
fn refusal(row: &mut Row) -> Option<Option<(u32, u64, u64)>> {
    let refusal = (row.number()?, row.number()?, row.number()?);
    Some((refusal != (0, 0, 0)).then_some(refusal))
}

fn worked_out(bar: &CheckedRecord, peak: Peak, heat: u64) -> Judged {
    let figures = bar.figures(peak);
    let verdict = judge(bar, Some((peak.value, heat)));
    Judged {
        current_force: bar.current_force(peak),
        span_force: bar.span_force(peak).units,
        sub_force: bar.sub_force(peak).units,
        main_stress: figures.main_stress,
        sub_stress: figures.sub_stress,
        support_load: figures.support_load,
        rated_current: bar.rated_current(),
        refusal: verdict.err().map(|refusal| (
            refusal.ground.number(),
            refusal.figure,
            refusal.limit,
        )),
    }
}
