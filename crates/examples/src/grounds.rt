// On each ground a bar that just passes, and the same bar one step past the limit.
use super::bars::{bar_60_by_10, verdict_on};
use busbar::question::Question;
use busbar::record::Record;
use busbar::section::Section;
use samples::held::bar_of;
use std::test::Fail;

// 30,000 A and a heat that nobody minds
const PEAK: Option<(u32, u64)> = Some((30_000, 1_000_000_000));

#[test]
fn figures_that_were_told(rt: HostRuntime) -> Result<(), Fail> {
    let bar = bar_60_by_10();
    let none = Err((1, 0, 0));
    assert_eq!(rt; verdict_on(bar, None)?, none);
    for told in [(0, 1), (300_001, 1), (1, 0), (1, 200_000_000_000_001)] {
        assert_eq!(rt; verdict_on(bar, Some(told))?, none);
    }
    assert_eq!(rt; verdict_on(bar, Some((1, 1)))?, Ok(()));
    Ok(())
}

#[test]
fn heat_at_the_limit(rt: HostRuntime) -> Result<(), Fail> {
    let bar = bar_60_by_10();
    let limit = 3_600_000_000_000;
    assert_eq!(rt; verdict_on(bar, Some((1, limit)))?, Ok(()));
    assert_eq!(rt;
        verdict_on(bar, Some((1, limit + 1)))?,
        Err((2, limit + 1, limit))
    );
    Ok(())
}

// Two bars 60 by 10 with connecting pieces 500 apart: 20,681 in the sub-bars, 35,562 in the main bar.
fn stack(yield_stress: u32) -> Result<Record, Question> {
    let section = Section::stack(2, 60, 10, 500)?;
    Ok(Record {
        yield_stress,
        ..bar_of(section)
    })
}

#[test]
fn sub_bars_at_the_limit(rt: HostRuntime) -> Result<(), Fail> {
    assert_eq!(rt; verdict_on(stack(38)?, PEAK)?, Ok(()));
    assert_eq!(rt; verdict_on(stack(21)?, PEAK)?, Err((4, 56_243, 31_500)));
    assert_eq!(rt; verdict_on(stack(20)?, PEAK)?, Err((3, 20_681, 20_000)));
    Ok(())
}

// A bar that bends while its insulator holds.
#[test]
fn stress_at_the_limit(rt: HostRuntime) -> Result<(), Fail> {
    let mut bar = bar_60_by_10();
    bar.yield_stress = 48;
    assert_eq!(rt; verdict_on(bar, PEAK)?, Ok(()));
    bar.yield_stress = 47;
    assert_eq!(rt; verdict_on(bar, PEAK)?, Err((4, 71_123, 70_500)));
    Ok(())
}

// A bar that holds while its insulator lets go.
#[test]
fn support_at_the_limit(rt: HostRuntime) -> Result<(), Fail> {
    let mut bar = bar_60_by_10();
    bar.support_strength = 2_315;
    assert_eq!(rt; verdict_on(bar, PEAK)?, Ok(()));
    bar.support_strength = 2_314;
    assert_eq!(rt; verdict_on(bar, PEAK)?, Err((5, 2_314_888, 2_314_000)));
    Ok(())
}
