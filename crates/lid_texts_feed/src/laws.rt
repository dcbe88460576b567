//! Laws of second readings.

ghost use Rattle.lid_texts_feed.specs.Rereadings.{RereadsTheSame, FetchesAsNeeded};

/// A file whose bytes are told and whose rows were counted is not refused when its rows are fed, and
/// those that are fed are its first rows, up to the last of them. This does nothing; its contract is
/// the law.
pub fn told_rows_are_read_again()
    ensures { RereadsTheSame }
{}

/// Where each fetch of a feed was made while fewer rows had ended than it has given, the feed has made
/// exactly those fetches of its file that begin before so many rows have ended, where the shelf tells
/// the file and gives as many bytes as there is room for. This does nothing; its contract is the law.
pub fn rows_are_fetched_as_needed()
    ensures { FetchesAsNeeded }
{}
