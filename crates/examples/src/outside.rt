// Calculations that nobody here made: a thesis on the auxiliary circuits of a thermal power station (École Nationale Polytechnique, Alger, 1974).
// Beside each figure stands the published one, and why they differ.
use super::bars::verdict_on;
use busbar::checked::CheckedRecord;
use busbar::question::Question;
use busbar::ranged::Peak;
use busbar::record::{FaultKind, Record, Scheme};
use busbar::section::Section;
use feeder::grid::Grid;
use feeder::tells::Feeder;
use std::test::Fail;

// What a grid tells at a level: peak and heat.
fn told(kappa: u32, heat_factor: u32, duration: u32, level: u32) -> Result<(u32, u64), Fail> {
    let grid = Grid::new(kappa, heat_factor, duration)?;
    Ok(grid.tell(level).ok_or("a grid tells at this level")?)
}

// Its bar, 30 by 4 on edge: 2 m between simple supports, 500 mm between the phases, copper of 235 N/mm².
fn its_bar() -> Record {
    Record {
        kind: FaultKind::ThreePhase,
        scheme: Scheme::BothSimple,
        reclosing: false,
        span: 2_000,
        centre_distance: 500,
        distance_factor: 1_000,
        yield_stress: 235,
        rated_density: 140,
        support_strength: 3_000,
        section: Section {
            modulus: 600_000,
            area: 120_000,
            plastic_factor: 15_000,
            round: false,
            sub_bars: None,
        },
    }
}

// The force on a span of its bar, in 10 µN, and the main stress, in kPa.
fn force_and_stress(amps: u32) -> Result<(u64, u64), Fail> {
    let bar = CheckedRecord::new(its_bar())?;
    let peak = Peak::new(amps).ok_or("this is a peak")?;
    let force = bar.span_force(peak);
    Ok((force.units, bar.main_stress(force)))
}

// The number of the ground that its bar, or one of another area, is refused on.
fn ground(bar: Record, heat: u64) -> Result<Result<(), u32>, Question> {
    Ok(verdict_on(bar, Some((1, heat)))?.map_err(|(ground, _, _)| ground))
}

// 14.9 kA at kappa 1.8. It has 2.55 × 14,900 = 37,995 A: √2 × 1.8 is 2.5456, which it rounds up.
#[test]
fn peak_of_the_supply(rt: HostRuntime) -> Result<(), Fail> {
    assert_eq!(rt; told(1_800, 1_000, 1_000, 14_900)?.0, 37_930);
    Ok(())
}

// 498.4 N/m over 2 m. Its own formula gives 500.6 N/m, with 0.87 for √3/2; the 264 N/m that it prints is a slip.
#[test]
fn force_on_its_bar(rt: HostRuntime) -> Result<(), Fail> {
    let (force, _) = force_and_stress(37_930)?;
    assert_eq!(rt; force, 99_675_083);
    Ok(())
}

// At 27,606 A the force is the 264 N/m that it goes on with. It takes a moment of f l²/10 where simple supports have f l²/8:
// 8/10 of our stress is 176.0 MPa, its 1,800 kgf/cm².
#[test]
fn stress_from_the_printed_force(rt: HostRuntime) -> Result<(), Fail> {
    let (_, stress) = force_and_stress(27_606)?;
    assert_eq!(rt; stress, 219_997);
    assert_eq!(rt; stress * 8 / 10, 175_997);
    Ok(())
}

// It calls its bar verified. With the force corrected, the stress passes the plastic limit: believable, and false.
#[test]
fn the_bar_that_it_calls_verified(rt: HostRuntime) -> Result<(), Fail> {
    let fault = told(1_800, 1_000, 20, 14_900)?;
    assert_eq!(rt;
        verdict_on(its_bar(), Some(fault))?,
        Err((4, 415_313, 352_500))
    );
    Ok(())
}

// 10.65 kA over 0.26 s, and the least area that bears it at 140 A/mm². Its formula gives 38.79 mm², and it prints 38.5.
#[test]
fn heat_and_least_area(rt: HostRuntime) -> Result<(), Fail> {
    let (_, heat) = told(1_000, 1_000, 260, 10_650)?;
    assert_eq!(rt; heat, 29_489_850_000);
    let mut bar = its_bar();
    bar.section.area = 38_790;
    assert_eq!(rt; ground(bar, heat)?, Ok(()));
    bar.section.area = 38_789;
    assert_eq!(rt; ground(bar, heat)?, Err(2));
    Ok(())
}

// 11.7 kA with m + n = 1.077 over 0.2 s.
#[test]
fn heat_of_a_cable(rt: HostRuntime) -> Result<(), Fail> {
    assert_eq!(rt; told(1_000, 1_077, 200, 11_700)?.1, 29_486_106_000);
    Ok(())
}

// How long 120 mm² bear 13.5 kA at 140 A/mm²: 1,548 ms. Its formula gives 1.5486 s, and it prints 1.57.
#[test]
fn time_that_its_bar_bears(rt: HostRuntime) -> Result<(), Fail> {
    for (duration, answer) in [(1_548, Ok(())), (1_549, Err(2))] {
        let (_, heat) = told(1_000, 1_000, duration, 13_500)?;
        assert_eq!(rt; ground(its_bar(), heat)?, answer);
    }
    Ok(())
}
