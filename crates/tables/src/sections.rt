// A row of sections: kind and sizes, the answer, then W A q, round, n w e of what was made.
use super::row::Row;
use busbar::section::Section;

// What was made, as a row writes it: zeros where nothing was, and for the sub-bars of a section that has none.
#[derive(Clone, Copy, Default, PartialEq, Eq)]
struct Made {
    modulus: u32,
    area: u32,
    plastic_factor: u32,
    round: u32,
    count: u32,
    one_modulus: u32,
    distance: u32,
    // as it was asked for: no figure of the row
    spacing: u32,
}

pub(crate) fn agrees(line: &str) -> Option<bool> {
    let mut row = Row::new(line, '\t');
    let kind = row.word()?;
    let x = row.number()?;
    let y = row.number()?;
    let z = row.number()?;
    let d = row.number()?;
    // a word of the table, read here and nowhere else
    let made = match kind {
        "bar" => Section::bar(x, y),
        "rod" => Section::rod(x),
        "tube" => Section::tube(x, y),
        "stack" => Section::stack(x, y, z, d),
        _ => return None,
    };
    let made = made.map(Made::from).map_err(|question| question.number());
    Some(made == expected(&mut row, d)?)
}

impl From<Section> for Made {
    fn from(section: Section) -> Made {
        let bars = section.sub_bars.unwrap_or_default();
        Made {
            modulus: section.modulus,
            area: section.area,
            plastic_factor: section.plastic_factor,
            round: u32::from(section.round),
            count: bars.count,
            one_modulus: bars.modulus,
            distance: bars.distance,
            spacing: bars.spacing,
        }
    }
}

// What a row says was made, or the number of the question that got a no.
fn expected(row: &mut Row, spacing: u32) -> Option<Result<Made, u32>> {
    let answer = row.number()?;
    let mut made = Made {
        modulus: row.number()?,
        area: row.number()?,
        plastic_factor: row.number()?,
        round: row.number()?,
        count: row.number()?,
        one_modulus: row.number()?,
        distance: row.number()?,
        spacing: 0,
    };
    if made.count != 0 {
        made.spacing = spacing;
    }
    match answer {
        0 => Some(Ok(made)),
        // beside a no all figures are 0
        _ => (made == Made::default()).then_some(Err(answer)),
    }
}
