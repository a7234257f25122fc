//! Laws of names in a picture.
ghost use Rattle.af_report.specs.Quoted.{StaysAsItIs, StaysQuoted};

/// Whatever bytes a name has, no byte that is written of it is a quote, a backslash, an ampersand,
/// a space, a control character or above 126: so it cannot leave its quotes.
pub fn names_stay_quoted()
    ensures { StaysQuoted }
{}

/// A name that a socket can have is written as it is.
pub fn names_stay_as_they_are()
    ensures { StaysAsItIs }
{}
