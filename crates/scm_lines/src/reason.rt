//! Why a line cannot be read, in words for its author.

use std::error::Error;
use std::fmt;

/// The reason why a line cannot be read.
#[derive(Clone, Copy, Debug)]
pub enum Reason {
    /// The line has too many bytes.
    LineTooLong,
    /// A byte is no printable ASCII character, space or tab.
    NotPrintable,
    /// No line begins with this word.
    UnknownKeyword,
    /// No event of a process has this name.
    UnknownVerb,
    /// The line ends before all its words are there.
    WordMissing,
    /// The line has more words than its form.
    WordTooMany,
    /// A number has only decimal digits.
    NotANumber,
    /// A number other than 0 begins with 0.
    LeadingZero,
    /// A number does not fit 32 bits.
    NumberTooLarge,
    /// A type of sockets is one of three words.
    UnknownType,
    /// The script is of version 1 or 2, where a type of sockets is one of two words.
    UnknownOldType,
    /// The ends to close are one of three words.
    UnknownHow,
    /// Only one word may follow the numbers of `spawn`.
    NotPriv,
    /// A character that has no meaning in BYTES.
    NotInBytes,
    /// A `%` without two hexadecimal digits behind it.
    NotHexadecimal,
    /// The word has too many bytes.
    BytesTooLong,
    /// A count of copies is 0 or too large.
    CountOutOfRange,
    /// The items up to this one have too many descriptors.
    TooManyDescriptors,
    /// The script is of version 1, which has no such event.
    NeedsVersion2,
    /// The script is of version 1 or 2, which have no such event.
    NeedsVersion3,
    /// No version has this name.
    UnknownVersion,
    /// Only silent lines may precede a version.
    VersionTooLate,
}

impl Reason {
    /// Returns the reason in words, for the author of the line.
    fn words(self) -> &'static str {
        match self {
            Reason::LineTooLong => "a line has at most 262144 bytes",
            Reason::NotPrintable => "this byte is not printable ASCII",
            Reason::UnknownKeyword => "no line begins with this word",
            Reason::UnknownVerb => "no event of a process has this name",
            Reason::WordMissing => "a word is missing",
            Reason::WordTooMany => "a word too many",
            Reason::NotANumber => "a number has only the digits 0 to 9",
            Reason::LeadingZero => "a number has no leading zero",
            Reason::NumberTooLarge => "a number is at most 4294967295",
            Reason::UnknownType => "a type is dgram, seqpacket or stream",
            Reason::UnknownOldType => "a type is seqpacket or stream",
            Reason::UnknownHow => "HOW is read, write or both",
            Reason::NotPriv => "only priv can stand here",
            Reason::NotInBytes => {
                "BYTES have letters, digits, _ - . and % with two hexadecimal digits"
            }
            Reason::NotHexadecimal => "% needs two hexadecimal digits",
            Reason::BytesTooLong => "BYTES are at most 65537 bytes",
            Reason::CountOutOfRange => "a count is from 1 to 1024",
            Reason::TooManyDescriptors => "the items of a line are at most 1024 descriptors",
            Reason::NeedsVersion2 => "this event needs the first line `version 2`",
            Reason::NeedsVersion3 => "this event needs the first line `version 3`",
            Reason::UnknownVersion => "the versions to name are 2 and 3",
            Reason::VersionTooLate => "only comments and empty lines can stand before a version",
        }
    }
}

impl fmt::Display for Reason {
    fn fmt<W: fmt::Write>(&self, f: &mut fmt::Formatter<W>) -> fmt::Result {
        f.write_str(self.words())
    }
}

impl Error for Reason {}

/// Why a line cannot be read, and where.
#[derive(Clone, Copy, Debug)]
pub struct Unreadable {
    /// The column of the first byte that does not fit, counted from 1. A missing word has the
    /// column behind the line's last byte.
    pub column: usize,
    /// The reason there.
    pub reason: Reason,
}

impl fmt::Display for Unreadable {
    fn fmt<W: fmt::Write>(&self, f: &mut fmt::Formatter<W>) -> fmt::Result {
        write!(f, "column {}: {}", self.column, self.reason)
    }
}

impl Error for Unreadable {}
