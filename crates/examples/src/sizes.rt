// The sizes of bars, rods and tubes: the ends of every range, and one past each.
use super::bars::numbered;
use busbar::section::Section;

#[test]
fn bars(rt: HostRuntime) {
    for (height, thickness) in [(10, 3), (200, 20), (10, 20), (200, 3)] {
        assert_eq!(rt; numbered(Section::bar(height, thickness)), Ok(()));
    }
    for (height, thickness) in [(9, 3), (201, 20), (10, 2), (10, 21), (u32::MAX, u32::MAX)] {
        assert_eq!(rt; numbered(Section::bar(height, thickness)), Err(43));
    }
}

#[test]
fn rods(rt: HostRuntime) {
    for (diameter, answer) in [
        (8, Ok(())),
        (200, Ok(())),
        (7, Err(43)),
        (201, Err(43)),
        (u32::MAX, Err(43)),
    ] {
        assert_eq!(rt; numbered(Section::rod(diameter)), answer);
    }
}

// The bore of a tube is at least 2.
#[test]
fn tubes(rt: HostRuntime) {
    for (diameter, wall) in [(16, 2), (16, 7), (17, 7), (200, 2), (200, 99)] {
        assert_eq!(rt; numbered(Section::tube(diameter, wall)), Ok(()));
    }
    for (diameter, wall) in [
        (15, 2),
        (201, 2),
        (16, 1),
        (16, 8),
        (17, 8),
        (200, 100),
        (0, 0),
        (u32::MAX, u32::MAX),
    ] {
        assert_eq!(rt; numbered(Section::tube(diameter, wall)), Err(43));
    }
}
