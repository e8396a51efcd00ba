//! Laws of the definitions, each a clause of a function that does nothing.
ghost use Rattle.named_readings.specs.NamingLaws.{ReadsOnce, ReadsBackMeans};

/// A text reads as at most one formula over at most one list of names, whatever its length.
pub fn readings_are_unique()
    ensures { ReadsOnce }
{}

/// A text that was printed, read again whatever its length, holds with a tree for each name exactly where the printed
/// formula does.
pub fn readings_mean_by_name()
    ensures { ReadsBackMeans }
{}
