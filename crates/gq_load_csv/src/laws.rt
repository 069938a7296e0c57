// The law of the function that reads texts as DATETIME.
ghost use Rattle.gq_load_csv.specs.Fields.{TellsTimes};
ghost use Rattle.gq_load_csv.specs.Readings.{reading};

/// A text reads as exactly the seconds that `gq_time` specifies; if it specifies none, the text doesn't read.
pub fn one_reading()
    ensures { TellsTimes reading }
{}
