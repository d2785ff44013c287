// The bar that the examples start from, and how answers are compared.
use busbar::checked::CheckedRecord;
use busbar::question::Question;
use busbar::record::Record;
use busbar::verdict::judge;
use samples::held::{BAR_60_BY_10, bar_of};

// A bar 60 by 10, three-phase, in three spans and more, without reclosing.
pub(crate) fn bar_60_by_10() -> Record {
    bar_of(BAR_60_BY_10)
}

// An answer with its question by its number.
pub(crate) fn numbered<T: Drop>(answer: Result<T, Question>) -> Result<(), u32> {
    answer.map(|_| ()).map_err(Question::number)
}

// A record's questions, by the number of the first that got a no.
pub(crate) fn asked(record: Record) -> Result<(), u32> {
    numbered(CheckedRecord::new(record))
}

// The ground by its number, then figure and limit.
pub(crate) type Refused = (u32, u64, u64);

// The verdict on a bar whose questions all got a yes.
pub(crate) fn verdict_on(
    record: Record,
    told: Option<(u32, u64)>,
) -> Result<Result<(), Refused>, Question> {
    let bar = CheckedRecord::new(record)?;
    Ok(judge(&bar, told).map_err(|no| (no.ground.number(), no.figure, no.limit)))
}
