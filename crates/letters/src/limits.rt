// The limits of the first edition (SPEC 1.3, 2.1; document 01): specs/Editions.antt.

/// "Registers: 1 to 8."
pub const MOST_REGISTERS: usize = 8;

/// "Functions: 0 to 4, each of one or two arguments."
pub const MOST_FUNCTIONS: usize = 4;

/// The bytes of a unit: "Header, 16 bits", "Letter, 16 bits".
pub const UNIT_BYTES: usize = 2;

/// "The whole-trace engine takes at most 1,024 letters; the monitor has no limit."
pub const MOST_LETTERS: usize = 1024;
