// The effective distance between the bars of a stack: a part of Table 1 of EN 60865-1:2012.
ghost use Rattle.std.specs.Prelude.{◌≡◌, ◌<◌, ◌≤◌, MatchOption, OnSome};
ghost use Rattle.busbar.specs.Distance.{column_of, stack_distance};

// Rows by count and thickness, columns by height: 40, 50, 60, 80, 100, 120, 160, 200. None stands for a dash.
// Rows and columns as in the standard's table and in the definition.
const TWO_OF_5: [Option<u32>; 8] = [
    Some(20),
    Some(24),
    Some(27),
    Some(33),
    Some(40),
    None,
    None,
    None,
];

const TWO_OF_10: [Option<u32>; 8] = [
    Some(28),
    Some(31),
    Some(34),
    Some(41),
    Some(47),
    Some(54),
    Some(67),
    Some(80),
];

const THREE_OF_5: [Option<u32>; 8] = [
    None,
    Some(13),
    Some(15),
    Some(18),
    Some(22),
    None,
    None,
    None,
];

const THREE_OF_10: [Option<u32>; 8] = [
    Some(17),
    Some(19),
    Some(20),
    Some(23),
    Some(27),
    Some(30),
    Some(37),
    Some(43),
];

// The column of a height, where the table has one.
fn column(height: u32) -> Option<usize>
    ensures { MatchOption result (column_of height ≡ 8) (λ at. (at < 8) × (column_of height ≡ at)) }
{
    Some(match height {
        40 => 0,
        50 => 1,
        60 => 2,
        80 => 3,
        100 => 4,
        120 => 5,
        160 => 6,
        200 => 7,
        _ => return None,
    })
}

// e, where the table has such a stack and no dash.
pub fn effective_distance(count: u32, thickness: u32, height: u32) -> Option<u32>
    ensures value { MatchOption result (stack_distance count thickness height ≡ 0) (λ e. (0 < e) × (stack_distance count thickness height ≡ e)) }
    ensures sizes { OnSome result ((count ≤ 3) × (thickness ≤ 10) × (height ≤ 200)) }
{
    let row = match (count, thickness) {
        (2, 5) => TWO_OF_5,
        (2, 10) => TWO_OF_10,
        (3, 5) => THREE_OF_5,
        (3, 10) => THREE_OF_10,
        _ => return None,
    };
    row[column(height)?]
}
