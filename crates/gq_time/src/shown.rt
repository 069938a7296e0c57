// The parts of a DATETIME.

/// The parts of a DATETIME, as its text shows them: months and days count from 1.
#[derive(Clone, Copy, Debug)]
pub struct DateTimeParts {
    pub year: i64,
    pub month: i64,
    pub day: i64,
    pub hour: i64,
    pub minute: i64,
    pub second: i64,
}
