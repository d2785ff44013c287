// Every cell of the table of effective distances (EN 60865-1:2012, Table 1), every dash, what lies beside the table, and the standard's own equation.
use busbar::question::Question;
use busbar::section::Section;

// The stacks of one count and one thickness.
struct Row {
    count: u32,
    thickness: u32,
    // by height, none for a dash
    cells: [(u32, Option<Cell>); 8],
}

// The cell of the table, in mm; then what the standard's equation for the effective distance gives for it (equation 8, with k₁₂ and k₁₃ by Clause A.2), in µm, worked out elsewhere.
#[derive(Clone, Copy)]
struct Cell(u32, u32);

const ROWS: [Row; 4] = [
    Row {
        count: 2,
        thickness: 5,
        cells: [
            (40, Some(Cell(20, 20_478))),
            (50, Some(Cell(24, 23_772))),
            (60, Some(Cell(27, 27_071))),
            (80, Some(Cell(33, 33_666))),
            (100, Some(Cell(40, 40_242))),
            (120, None),
            (160, None),
            (200, None),
        ],
    },
    Row {
        count: 2,
        thickness: 10,
        cells: [
            (40, Some(Cell(28, 28_038))),
            (50, Some(Cell(31, 31_194))),
            (60, Some(Cell(34, 34_417))),
            (80, Some(Cell(41, 40_956))),
            (100, Some(Cell(47, 47_543))),
            (120, Some(Cell(54, 54_143))),
            (160, Some(Cell(67, 67_331))),
            (200, Some(Cell(80, 80_485))),
        ],
    },
    Row {
        count: 3,
        thickness: 5,
        cells: [
            (40, None),
            (50, Some(Cell(13, 13_531))),
            (60, Some(Cell(15, 15_190))),
            (80, Some(Cell(18, 18_510))),
            (100, Some(Cell(22, 21_824))),
            (120, None),
            (160, None),
            (200, None),
        ],
    },
    Row {
        count: 3,
        thickness: 10,
        cells: [
            (40, Some(Cell(17, 17_319))),
            (50, Some(Cell(19, 18_887))),
            (60, Some(Cell(20, 20_492))),
            (80, Some(Cell(23, 23_759))),
            (100, Some(Cell(27, 27_063))),
            (120, Some(Cell(30, 30_379))),
            (160, Some(Cell(37, 37_019))),
            (200, Some(Cell(43, 43_648))),
        ],
    },
];

// The distance in a stack's sub-bars, or the number of the question that got a no.
fn distance(count: u32, height: u32, thickness: u32) -> Result<Option<u32>, u32> {
    let stack = Section::stack(count, height, thickness, 500).map_err(Question::number)?;
    Ok(stack.sub_bars.map(|bars| bars.distance))
}

#[test]
fn cells_and_dashes(rt: HostRuntime) {
    for row in &ROWS {
        for (height, cell) in row.cells {
            let answer = match cell {
                Some(Cell(table, _)) => Ok(Some(table)),
                None => Err(44),
            };
            assert_eq!(rt; distance(row.count, height, row.thickness), answer);
        }
    }
}

// Each cell lies within 4 % of the equation: the table rounds to whole millimetres.
#[test]
fn cells_by_the_equation(rt: HostRuntime) {
    for row in &ROWS {
        for (_, cell) in row.cells {
            if let Some(Cell(table, equation)) = cell {
                let exact = equation as u64;
                assert!(rt; 100 * (1_000 * table as u64).abs_diff(exact) <= 4 * exact);
            }
        }
    }
}

#[test]
fn beside_the_table(rt: HostRuntime) {
    for (count, height, thickness) in [
        (1, 60, 10),
        (4, 60, 10),
        (2, 60, 6),
        (2, 60, 9),
        (2, 61, 10),
        (2, 39, 10),
        (0, 0, 0),
        (2, 201, 10),
    ] {
        assert_eq!(rt; distance(count, height, thickness), Err(44));
    }
}
