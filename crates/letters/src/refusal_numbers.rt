// The numbers of the refusals (SPEC 11.2 to 11.4; document 01, and 15 and 16 document 02). They stay beside `Reason`: C is answered by number, and a stored
// state holds one.

/// Of a trace. "At least two bytes? 1."
pub const TRACE_TOO_SHORT: u8 = 1;

/// "Even length? 2."
pub const TRACE_ODD_LENGTH: u8 = 2;

/// "Header as above? 3."
pub const HEADER_MALFORMED: u8 = 3;

/// "A letter that is not well formed ends the reading with 4 and its number, from 1."
pub const LETTER_MALFORMED: u8 = 4;

/// "For the whole-trace engine, at most 1,024 letters? 5."
pub const TRACE_TOO_LONG: u8 = 5;

/// "Does a due model fit the output? 6." Of a macro: "Answer fits the output? 6."
pub const OUTPUT_TOO_SMALL: u8 = 6;

/// Of a macro. "At most 4,096 bytes? 7."
pub const TEXT_TOO_LONG: u8 = 7;

/// "a token, and no name over eight bytes? 8."
pub const TOKEN_MALFORMED: u8 = 8;

/// "Fits the grammar? 9 (at the text's length if it ends early)."
pub const GRAMMAR_VIOLATED: u8 = 9;

/// "Within eight registers and four functions, each name declared once? 10."
pub const DECLARATION_WRONG: u8 = 10;

/// "A use declared, of the right sort? 11."
pub const USE_WRONG: u8 = 11;

/// "Braces at most 16 deep? 12."
pub const NESTING_TOO_DEEP: u8 = 12;

/// "Then: at most 256 points? 13."
pub const POINTS_TOO_MANY: u8 = 13;

/// "Table suffices? 14."
pub const TABLE_TOO_SMALL: u8 = 14;

/// Of the house layout: "15, given last, when the print passes the lent buffer or 4,096 bytes".
pub const PRINT_TOO_LONG: u8 = 15;

/// "16, at the word `tests`, when more than six registers were declared".
pub const NO_ROOM_FOR_TESTS: u8 = 16;
