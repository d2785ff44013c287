// Sections: what a bar's shape tells about its bending, its area and its sub-bars.
ghost use Rattle.std.specs.Prelude.{◌≡◌, ◌<◌, ◌≤◌};
ghost use Rattle.busbar.specs.Section.{bar_area, bar_modulus, bar_section, rod_section, tube_figures, tube_section, stack_section};

use super::distance::effective_distance;
use super::question::Question;
use super::ranged::inside;

// The equal bars of a stack.
#[derive(Clone, Copy, Debug, Default, PartialEq, Eq)]
pub struct SubBars {
    // n
    pub count: u32,
    // w, the modulus of one of them, thousandths of mm³ (W_s)
    pub modulus: u32,
    // e, the effective distance between two of them, mm (a_s, EN 60865-1:2012, 5.3)
    pub distance: u32,
    // d, the spacing of the connecting pieces, mm (l_s)
    pub spacing: u32,
}

// A section's figures. The main force acts along a bar's thickness.
#[derive(Clone, Copy, Debug, Default, PartialEq, Eq)]
pub struct Section {
    // W, thousandths of mm³ (W_m)
    pub modulus: u32,
    // A, thousandths of mm² (A)
    pub area: u32,
    // q, ten-thousandths (q)
    pub plastic_factor: u32,
    pub round: bool,
    pub sub_bars: Option<SubBars>,
}

impl Section {
    // A flat bar: height b, thickness t.
    pub fn bar(height: u32, thickness: u32) -> Result<Section, Question>
        ensures { result ≡ bar_section height thickness }
    {
        Question::SectionSize.ask(inside(height, 10, 200) && inside(thickness, 3, 20))?;
        let flat = Flat { height, thickness };
        Ok(Section {
            modulus: flat.modulus(),
            area: flat.area(),
            plastic_factor: 15_000,
            round: false,
            sub_bars: None,
        })
    }

    // A solid rod of the diameter D.
    #[tactic(auto, using(crate::proofs::Sizes::rod_most))]
    pub fn rod(diameter: u32) -> Result<Section, Question>
        ensures { result ≡ rod_section diameter }
    {
        Question::SectionSize.ask(inside(diameter, 8, 200))?;
        let d = diameter as u64;
        Ok(Section {
            modulus: (314_159 * d * d * d / 3_200) as u32,
            area: (314_159 * d * d / 400) as u32,
            plastic_factor: 17_000,
            round: true,
            sub_bars: None,
        })
    }

    // A tube of the diameter D with the wall t.
    pub fn tube(diameter: u32, wall: u32) -> Result<Section, Question>
        ensures { result ≡ tube_section diameter wall }
    {
        Question::SectionSize.ask(
            inside(diameter, 16, 200) && inside(wall, 2, (diameter - 2) / 2),
        )?;
        Ok(tube_with_inner(diameter as u64, (diameter - 2 * wall) as u64))
    }

    // A stack of `count` equal bars, one thickness apart, tied by connecting pieces at the spacing d.
    // The spacing is left to the record's questions.
    pub fn stack(count: u32, height: u32, thickness: u32, spacing: u32) -> Result<Section, Question>
        ensures { result ≡ stack_section count height thickness spacing }
    {
        let distance = effective_distance(count, thickness, height).ok_or(Question::StackSize)?;
        let flat = Flat { height, thickness };
        Ok(Section {
            modulus: count * flat.modulus(),
            area: count * flat.area(),
            plastic_factor: 15_000,
            round: false,
            sub_bars: Some(SubBars {
                count,
                modulus: flat.modulus(),
                distance,
                spacing,
            }),
        })
    }
}

// A flat bar of sizes that the figures can be worked out of.
#[derive(Clone, Copy)]
struct Flat {
    height: u32,
    thickness: u32,
    ghost high: { height ≤ 200 },
    ghost thick: { thickness ≤ 20 },
}

impl Flat {
    // About the axis that the main force bends it.
    fn modulus(&self) -> u32
        ensures { result ≡ bar_modulus self.now.height self.now.thickness }
    {
        1_000 * self.height * self.thickness * self.thickness / 6
    }

    fn area(&self) -> u32
        ensures { result ≡ bar_area self.now.height self.now.thickness }
    {
        1_000 * self.height * self.thickness
    }
}

// The figures of a tube by its outer and inner diameter.
fn tube_with_inner(outer: u64, inner: u64) -> Section
    requires hollow { inner < outer }
    requires size { outer ≤ 200 }
    ensures { result ≡ tube_figures outer inner }
{
    let cubes = outer * outer * outer - inner * inner * inner;
    let fourths = outer * outer * outer * outer - inner * inner * inner * inner;
    Section {
        modulus: (314_159 * fourths / (3_200 * outer)) as u32,
        area: (314_159 * (outer * outer - inner * inner) / 400) as u32,
        plastic_factor: (17_000 * outer * cubes / fourths) as u32,
        round: true,
        sub_bars: None,
    }
}
