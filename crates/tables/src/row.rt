// One line of a table: fields parted by one character, each read as a whole number.
use std::str::{FromStr, Split};

// The fields of a line from left to right.
#[derive(Drop)]
pub struct Row<'a> {
    fields: Split<'a, char>,
}

impl<'a> Row<'a> {
    pub(crate) fn new(line: &'a str, by: char) -> Row<'a> {
        Row {
            fields: line.split(by),
        }
    }

    // The next field.
    pub(crate) fn word(&mut self) -> Option<&'a str> {
        self.fields.next()
    }

    pub(crate) fn number<T: FromStr>(&mut self) -> Option<T>
    where
        T::Err: Drop,
    {
        self.word()?.parse::<T>().ok()
    }

    // 1 for yes, and any other number for no.
    pub(crate) fn flag(&mut self) -> Option<bool> {
        Some(self.number::<u32>()? == 1)
    }
}
