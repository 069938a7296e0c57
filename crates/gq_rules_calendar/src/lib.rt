//! The proleptic Gregorian calendar as functions, for contracts that need a calendar.
//!
//! The semantics in `gq_rules_meaning` holds for any calendar that agrees with the specification in `gq_time`. The
//! one defined here does, and a law states so.
//!
//! Read `specs/Gregorian.antt` first: it has the calendar and the law. `specs/Days.antt` computes dates by
//! division, `specs/Reading.antt` reads texts and `specs/Adding.antt` adds units of time. Nothing here runs:
//! the code calls `gq_time`.
#![tactic(auto)]

ghost use Rattle.gq_rules_meaning.specs.Calendars.{IsCalendar, StaysInRange};
ghost use Rattle.gq_rules_calendar.specs.Gregorian.{gregorian};

/// Does nothing. Its contract is a law: the calendar reads, writes, shows and adds as `gq_time` does, within its range.
#[tactic(auto, using(crate::proofs::GregorianLaws::gregorian_is, crate::proofs::GregorianLaws::gregorian_stays))]
pub fn gregorian_is_a_calendar()
    ensures calendar { IsCalendar gregorian }
    ensures in_range { StaysInRange gregorian }
{}
