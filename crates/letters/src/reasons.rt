// Why a call refuses, and at which place (SPEC 1.2, 11.1): "A refusal is a number and a place (0 unless said)".
ghost use Rattle.std.specs.Prelude.{◌≡◌};
ghost use Rattle.letters.specs.Reasons.{number_of};

use super::refusal_numbers::{
    DECLARATION_WRONG, GRAMMAR_VIOLATED, HEADER_MALFORMED, LETTER_MALFORMED, NESTING_TOO_DEEP,
    NO_ROOM_FOR_TESTS, OUTPUT_TOO_SMALL, POINTS_TOO_MANY, PRINT_TOO_LONG, TABLE_TOO_SMALL,
    TEXT_TOO_LONG, TOKEN_MALFORMED, TRACE_ODD_LENGTH, TRACE_TOO_LONG, TRACE_TOO_SHORT, USE_WRONG,
};

/// Why a call refuses: the questions that a trace, a macro or an answer can fail, in the order of their numbers.
#[derive(Clone, Copy, Debug, PartialEq, Eq)]
pub enum Reason {
    /// A trace of less than two bytes.
    TraceTooShort,
    /// A trace of an odd length.
    TraceOddLength,
    /// A header that is not well formed.
    HeaderMalformed,
    /// A letter that is not well formed.
    LetterMalformed,
    /// More letters than the whole-trace engine takes.
    TraceTooLong,
    /// An answer that does not fit the output.
    OutputTooSmall,
    /// A text of more bytes than a macro may have.
    TextTooLong,
    /// No token, or a name that is too long.
    TokenMalformed,
    /// A text that does not fit the grammar.
    GrammarViolated,
    /// A declaration of too many, or of a name that is declared.
    DeclarationWrong,
    /// A use of a name that is not declared, or not of that sort.
    UseWrong,
    /// Braces that are too deep.
    NestingTooDeep,
    /// More points than a macro may have.
    PointsTooMany,
    /// A table that does not suffice.
    TableTooSmall,
    /// A print that passes the lent buffer or the length of a text.
    PrintTooLong,
    /// Two registers for the tests of conditions are not left.
    NoRoomForTests,
}

impl From<Reason> for u8 {
    ghost from_gives = { λ r n. n ≡ number_of r };

    fn from(reason: Reason) -> u8 {
        match reason {
            Reason::TraceTooShort => TRACE_TOO_SHORT,
            Reason::TraceOddLength => TRACE_ODD_LENGTH,
            Reason::HeaderMalformed => HEADER_MALFORMED,
            Reason::LetterMalformed => LETTER_MALFORMED,
            Reason::TraceTooLong => TRACE_TOO_LONG,
            Reason::OutputTooSmall => OUTPUT_TOO_SMALL,
            Reason::TextTooLong => TEXT_TOO_LONG,
            Reason::TokenMalformed => TOKEN_MALFORMED,
            Reason::GrammarViolated => GRAMMAR_VIOLATED,
            Reason::DeclarationWrong => DECLARATION_WRONG,
            Reason::UseWrong => USE_WRONG,
            Reason::NestingTooDeep => NESTING_TOO_DEEP,
            Reason::PointsTooMany => POINTS_TOO_MANY,
            Reason::TableTooSmall => TABLE_TOO_SMALL,
            Reason::PrintTooLong => PRINT_TOO_LONG,
            Reason::NoRoomForTests => NO_ROOM_FOR_TESTS,
        }
    }
}

/// A refusal: why, and at which place (0 unless said).
#[derive(Clone, Copy, Debug, PartialEq, Eq)]
pub struct Refused {
    /// Why the call refuses.
    pub reason: Reason,
    /// The place: a letter's number, a place in a text, or 0.
    pub place: u64,
}

impl Reason {
    /// The refusal for this reason at a place.
    pub fn at(self, place: u64) -> Refused
        ensures { result ≡ record { reason = self; place = place } }
    {
        Refused {
            reason: self,
            place,
        }
    }
}
