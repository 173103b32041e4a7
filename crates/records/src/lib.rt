// Pairs of the verdict's search as bytes (SPEC 10.2, 10.6): a point still to be performed and a window, and back.
#![tactic(auto)]

ghost use Rattle.std.specs.Prelude.{◌≡◌, ◌+◌, ◌*◌, ◌/◌, ◌%◌, ◌≤◌, ◌++◌, [], ◌∷◌, ◌<◌, map, length, get_or, take, drop};
ghost use Rattle.base.specs.Bytes.{little_endian};
ghost use Rattle.base.specs.Masks.{bit};
ghost use Rattle.semantics.specs.PackedTables.{units};
ghost use Rattle.window.specs.Layout.{registers, lines, results};
ghost use Rattle.records.specs.Codes.{code_of, computed_of};
ghost use Rattle.records.specs.Words.{fingerprint_word_bytes, half_bytes};
ghost use Rattle.records.specs.Formats.{number_bytes, number_in, ever_mask};
ghost use Rattle.records.specs.Records.{first_format, record_bytes, content_bytes, code_range, mask_bytes, flag, empty_line};
ghost use Rattle.records.specs.Records.{code_bytes, fingerprint_of};
ghost use Rattle.records.specs.Records.{encoded, record_of, parent_in, branch_in, point_in, same_pair, is_set, meanings_of, results_meant, codes_at, ever_in};
ghost use Rattle.records.specs.Records.{window_in};

use window::{LINES, Mask, REGISTERS, RESULTS, Window, counted_classes};

/// How many bytes a record has.
pub const RECORD_BYTES: usize = 192;

// The bytes of a pair's number, of a fingerprint and of a point; and of a branch and a flag: specs/Formats.antt.
const NUMBER_BYTES: usize = 2;

const FLAG_BYTES: usize = 1;

// Of how many bytes the words are that are read at once, and their halves.
const WORD_BYTES: usize = 8;

const HALF_BYTES: usize = 4;

// How many codes there can be, in four bits, and how many bytes those of a line of results and those of all results have: two codes to a byte.
const CODE_RANGE: u8 = 16;

const CODES: usize = CODE_RANGE as usize;

const LINE_BYTES: usize = REGISTERS / 2;

const CODE_BYTES: usize = LINE_BYTES * LINES;

// Where the parts stand in a pair, behind its fingerprint.
const POINT: usize = NUMBER_BYTES;

const CLASS: usize = POINT + NUMBER_BYTES;

const UNEQUAL: usize = CLASS + REGISTERS;

const MARK: usize = UNEQUAL + REGISTERS;

const INFEASIBLE: usize = MARK + REGISTERS;

const CODE: usize = INFEASIBLE + FLAG_BYTES;

/// How many bytes of a record stand for the pair: a fingerprint, the point and the window.
pub const ENCODED_BYTES: usize = CODE + CODE_BYTES;

// How many whole words a pair has, and what stands behind its fingerprint.
const WORDS: usize = ENCODED_BYTES / WORD_BYTES;

// And in a record: the parent first.
const BRANCH: usize = NUMBER_BYTES;

const PAIR: usize = BRANCH + FLAG_BYTES;

const POINT_PLACE: usize = PAIR + POINT;

const CLASS_PLACE: usize = PAIR + CLASS;

const UNEQUAL_PLACE: usize = PAIR + UNEQUAL;

const MARK_PLACE: usize = PAIR + MARK;

const INFEASIBLE_PLACE: usize = PAIR + INFEASIBLE;

const CODE_PLACE: usize = PAIR + CODE;

// How many numbers the bytes of a number have.
const NUMBERS: usize = 1 << 16;

// How many bits of a word come to the other end of it as it is turned; how many numbers half a word has; and an odd number that spreads a half.
const TURN: u32 = 7;

const HALVES: u64 = 1 << 32;

const SPREADING: u64 = 2654435761;

// ---- words

// Two functions, since the library has no common trait of the two widths.
// Four bytes from a place on as one number, the least significant first: one load.
fn half_in(bytes: &[u8], at: usize) -> u32
    requires { at + half_bytes ≤ length bytes.now }
    ensures { result ≡ little_endian (take half_bytes (drop at bytes.now)) }
{
    u32::from_le_bytes([bytes[at], bytes[at + 1], bytes[at + 2], bytes[at + 3]])
}

// Eight bytes from a place on. One test of a word passes over many entries.
fn word_in(bytes: &[u8], at: usize) -> u64
    requires { at + fingerprint_word_bytes ≤ length bytes.now }
    ensures { result ≡ little_endian (take fingerprint_word_bytes (drop at bytes.now)) }
{
    let mut word = [0u8; WORD_BYTES];
    word.copy_from_slice(&bytes[at..at + WORD_BYTES]);
    u64::from_le_bytes(word)
}

// The bytes of a pair's number, of a point or of a fingerprint, the most significant first; what is beyond them is cut off.
fn number_bytes(number: usize) -> [u8; NUMBER_BYTES]
    ensures { result ≡ units number_bytes (number ∷ []) }
{
    ((number % NUMBERS) as u16).to_be_bytes()
}

// The number in the bytes from a place on.
fn number_in(part: &[u8], at: usize) -> usize
    requires { at + number_bytes ≤ length part.now }
    ensures { result ≡ number_in number_bytes (drop at part.now) }
{
    usize::from(u16::from_be_bytes([part[at], part[at + 1]]))
}

// ---- writing

// The buffer and the place stay two parameters: the table is lent (C interface), and each part has a place of its own.
/// Lays `part` over the bytes from `at` on. For writers that have checked their room.
pub fn lay(bytes: &mut [u8], at: usize, part: &[u8])
    requires { at + length part.now ≤ length bytes.old }
    ensures bytes_after { bytes.new ≡ take at bytes.old ++ part.now ++ drop (at + length part.now) bytes.old }
    ensures long { length bytes.new ≡ length bytes.old }
{
    bytes[at..at + part.len()].copy_from_slice(part);
}

// The code of an entry of the table of results, at bit b of its line of `ever`.
fn code(mask: Mask, ever: Mask, b: usize) -> u8
    requires { b < registers }
    ensures value { result ≡ code_of registers mask (bit ever b) }
    ensures small { result ≤ 2 + registers }
{
    if mask == 0 {
        (ever >> b) % 2
    } else {
        2 + mask.trailing_zeros() as u8
    }
}

// The codes of two entries in one byte, at bits b and b + 1 of their line of `ever`.
fn code_byte(first: Mask, second: Mask, ever: Mask, b: usize) -> u8
    requires { b + 1 < registers }
    ensures { result ≡ code_range * code_of registers first (bit ever b) + code_of registers second (bit ever (b + 1)) }
{
    CODE_RANGE * code(first, ever, b) + code(second, ever, b + 1)
}

// Whether a line of eight results holds nothing, and nothing of it was ever computed.
fn is_blank(res: &[u8], at: usize, line: u8) -> bool
    requires { at + registers ≤ length res.now }
    ensures { result ≡ empty_line (take registers (drop at res.now)) line }
{
    line == 0 && word_in(res, at) == 0
}

// The codes of all entries. Most lines are blank.
fn codes(res: &[Mask; RESULTS], ever: &[Mask; LINES]) -> [u8; CODE_BYTES]
    ensures { result ≡ code_bytes res.now ever.now }
{
    let mut codes = [0u8; CODE_BYTES];
    for j in 0..LINES {
        let line = ever[j];
        if is_blank(res, REGISTERS * j, line) {
            continue;
        }
        for k in 0..LINE_BYTES {
            let at = REGISTERS * j + 2 * k;
            codes[LINE_BYTES * j + k] = code_byte(res[at], res[at + 1], line, 2 * k);
        }
    }
    codes
}

/// A bool as a byte.
pub fn flagged(b: bool) -> u8
    ensures { result ≡ flag b }
{
    u8::from(b)
}

/// Marks as bytes.
pub fn flags(marks: [bool; REGISTERS]) -> [u8; REGISTERS]
    ensures { result ≡ map flag marks }
{
    marks.map(flagged)
}

// Masks of registers as bytes: each has one.
fn mask_bytes(masks: &[Mask; REGISTERS]) -> [u8; REGISTERS]
    ensures { result ≡ units mask_bytes masks.now }
{
    let mut bytes = [0u8; REGISTERS];
    bytes.copy_from_slice(masks);
    bytes
}

fn fingerprint(content: &[u8]) -> usize
    requires { content_bytes ≤ length content.now }
    ensures { result ≡ fingerprint_of content.now }
{
    let mut mixed: u64 = 0;
    for i in 0..WORDS {
        mixed = mixed.rotate_left(TURN) ^ word_in(content, WORD_BYTES * i);
    }
    let folded = (mixed / HALVES % HALVES + mixed % HALVES) % HALVES;
    (folded * SPREADING / HALVES) as usize % NUMBERS
}

/// The bytes of a pair: a fingerprint, the point and the window.
pub fn encode(point: usize, w: Window) -> [u8; ENCODED_BYTES]
    ensures { result ≡ encoded point w }
{
    let mut pair = [0u8; ENCODED_BYTES];
    lay(&mut pair, POINT, &number_bytes(point));
    lay(&mut pair, CLASS, &mask_bytes(&w.class));
    lay(&mut pair, UNEQUAL, &mask_bytes(&w.unequal));
    lay(&mut pair, MARK, &flags(w.mark));
    pair[INFEASIBLE] = flagged(w.infeasible);
    lay(&mut pair, CODE, &codes(&w.result, &w.ever));
    let fingerprint = fingerprint(&pair[POINT..]);
    lay(&mut pair, 0, &number_bytes(fingerprint));
    pair
}

// ---- reading: from a part of the table that begins with a record

/// The number of the pair from which it was reached.
pub fn parent_in(part: &[u8]) -> usize
    requires { record_bytes ≤ length part.now }
    ensures { result ≡ parent_in part.now }
{
    number_in(part, 0)
}

/// The branch taken there.
pub fn branch_in(part: &[u8]) -> usize
    requires { record_bytes ≤ length part.now }
    ensures { result ≡ branch_in part.now }
{
    usize::from(part[BRANCH])
}

/// The point.
pub fn point_in(part: &[u8]) -> usize
    requires { record_bytes ≤ length part.now }
    ensures { result ≡ point_in part.now }
{
    number_in(part, POINT_PLACE)
}

/// Whether the pair is this one. Pairs that differ mostly do so in the first bytes, which have the fingerprint.
pub fn same_pair(part: &[u8], pair: &[u8; ENCODED_BYTES]) -> bool
    requires { record_bytes ≤ length part.now }
    ensures { result ≡ same_pair pair.now part.now }
{
    part[PAIR..].starts_with(pair)
}

// `states` has such three lines too: a public function for them would need a contract and an edit of its own, no plainer.
fn eight(part: &[u8], at: usize) -> [u8; REGISTERS]
    requires { at + registers ≤ length part.now }
    ensures { result ≡ take registers (drop at part.now) }
{
    let mut bytes = [0u8; REGISTERS];
    bytes.copy_from_slice(&part[at..at + REGISTERS]);
    bytes
}

/// The marks that these bytes stand for.
pub fn marks(flags: [u8; REGISTERS]) -> [bool; REGISTERS]
    ensures { result ≡ map is_set flags }
{
    flags.map(|flag| flag == 1)
}

// What each code says of the result.
fn meanings(class: &[u8; REGISTERS]) -> [u8; CODES]
    ensures { result ≡ meanings_of class.now }
{
    let mut meanings = [0u8; CODES];
    meanings[2..2 + REGISTERS].copy_from_slice(class);
    meanings
}

// The results, by what each code says. Most lines have the code 0 only, and stay as they are.
fn results(part: &[u8], meanings: &[u8; CODES]) -> [Mask; RESULTS]
    requires { (record_bytes ≤ length part.now) × (get_or meanings.now 0 0 ≡ 0) }
    ensures { result ≡ results_meant meanings.now (codes_at part.now) }
{
    let mut results = [0u8; RESULTS];
    for j in 0..LINES {
        let at = CODE_PLACE + LINE_BYTES * j;
        if half_in(part, at) == 0 {
            continue;
        }
        for k in 0..LINE_BYTES {
            let both = usize::from(part[at + k]);
            let to = REGISTERS * j + 2 * k;
            results[to] = meanings[both / CODES];
            results[to + 1] = meanings[both % CODES];
        }
    }
    results
}

// Of two codes in one byte, which say that the application was computed: the first one's bit first.
fn computed(both: u8) -> u8
    ensures value { result ≡ computed_of (both / code_range % code_range) + 2 * computed_of (both % code_range) }
    ensures small { result ≤ 3 }
{
    u8::from(both / CODE_RANGE != 0) + 2 * u8::from(both % CODE_RANGE != 0)
}

// Line j of the table of what was computed. It is not inlined: in the loop over the lines, most of which are passed over, the compiler would work out
// several lines at once, blank or not.
#[inline(never)]
fn ever_line(part: &[u8], j: usize) -> Mask
    requires { (record_bytes ≤ length part.now) × (j < lines) }
    ensures { result ≡ ever_mask first_format (codes_at part.now) j }
{
    let at = CODE_PLACE + LINE_BYTES * j;
    computed(part[at])
        + 4 * computed(part[at + 1])
        + 16 * computed(part[at + 2])
        + 64 * computed(part[at + 3])
}

// The whole table. Most lines have the code 0 only, and stay as they are.
fn ever_lines(part: &[u8]) -> [Mask; LINES]
    requires { record_bytes ≤ length part.now }
    ensures { result ≡ ever_in (codes_at part.now) }
{
    let mut ever = [0u8; LINES];
    for j in 0..LINES {
        if half_in(part, CODE_PLACE + LINE_BYTES * j) == 0 {
            continue;
        }
        ever[j] = ever_line(part, j);
    }
    ever
}

/// The window.
pub fn window_in(part: &[u8]) -> Window
    requires { record_bytes ≤ length part.now }
    ensures { result ≡ window_in part.now }
{
    let class = eight(part, CLASS_PLACE);
    let unequal = eight(part, UNEQUAL_PLACE);
    let mark = marks(eight(part, MARK_PLACE));
    let meanings = meanings(&class);
    let result = results(part, &meanings);
    let ever = ever_lines(part);
    let infeasible = part[INFEASIBLE_PLACE] == 1;
    let classes = counted_classes(&class);
    Window {
        class,
        unequal,
        result,
        ever,
        mark,
        infeasible,
        classes,
    }
}

// ---- a whole record

fn whole(pair: &[u8; ENCODED_BYTES], parent: usize, branch: usize) -> [u8; RECORD_BYTES]
    ensures { result ≡ record_of pair.now parent branch }
{
    let mut bytes = [0u8; RECORD_BYTES];
    lay(&mut bytes, 0, &number_bytes(parent));
    bytes[BRANCH] = (branch % 256) as u8;
    lay(&mut bytes, PAIR, pair);
    bytes
}

/// Writes a record over the front of a part of the table, and leaves the rest.
pub fn write(part: &mut [u8], pair: &[u8; ENCODED_BYTES], parent: usize, branch: usize)
    requires { record_bytes ≤ length part.old }
    ensures { part.new ≡ record_of pair.now parent branch ++ drop record_bytes part.old }
{
    lay(part, 0, &whole(pair, parent, branch));
}
