// Long lists of calls against the tables: every answer in its order, the slips that are out, and the sheets at the end.
use super::boards::{curve, motors, run, run_under_grids};
use super::{grid_lists, pile_lists};
use feeder::fuse::Fuse;
use samples::supply::{TWO_POINTS, grid};
use std::test::Fail;

#[test]
fn under_grids(rt: HostRuntime) -> Result<(), Fail> {
    run_under_grids(rt.alloc(), grid_lists::LISTS)
}

#[test]
fn under_a_fuse_and_motors(rt: HostRuntime) -> Result<(), Fail> {
    let grid = grid()?;
    let second = motors(grid)?;
    let first = Fuse::new(grid, curve(rt.alloc(), &TWO_POINTS)?);
    let _ = run(rt.alloc(), first, second, pile_lists::LISTS)?;
    Ok(())
}
