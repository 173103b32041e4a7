// Text appended to a lent buffer: bytes, names, numerals, and lines with fields.
#![tactic(auto)]

ghost use Rattle.std.specs.Prelude.{◌≡◌, [], ◌∷◌, ◌+◌};
ghost use Rattle.text.specs.Appending.{Appended, PlaceInRange};
ghost use Rattle.text.specs.Numerals.{numeral};
ghost use Rattle.text.specs.Names.{name_text};
ghost use Rattle.text.specs.Templates.{part, filled_in};

use tokens::BYTE_VALUES;

/// The fields of a template. They are held in an array of so many numbers: memory is fixed.
pub const FIELDS: usize = 4;

/// A lent buffer, and the place where the next byte goes. Past the buffer's end nothing is stored; the place moves all the same, so that one writer
/// serves to count and to write.
#[derive(Drop)]
pub struct Writer<'a> {
    /// The buffer.
    pub out: &'a mut [u8],
    /// The place.
    pub at: usize,
}

impl<'a> Writer<'a> {
    /// A writer at the front of a buffer.
    pub fn new(out: &'a mut [u8]) -> Writer<'a>
        ensures same_buffer { result.out.ghost_name ≡ out.entry.ghost_name }
        ensures bytes { result.out.now ≡ out.old }
        ensures place { result.at ≡ 0 }
    {
        Writer { out, at: 0 }
    }

    /// Appends a byte.
    pub fn put_byte(&mut self, byte: u8)
        requires { PlaceInRange self.old.at (byte ∷ []) }
        ensures same_buffer { self.new.out.ghost_name ≡ self.old.out.ghost_name }
        ensures appended { Appended self.old.out.now self.old.at (byte ∷ []) self.new.out.now self.new.at }
    {
        if self.at < self.out.len() {
            self.out[self.at] = byte;
        }
        self.at += 1;
    }

    /// Appends a name, or another token, that is held as the number of its bytes.
    pub fn put_name(&mut self, name: u64)
        requires { PlaceInRange self.old.at (name_text name) }
        ensures same_buffer { self.new.out.ghost_name ≡ self.old.out.ghost_name }
        ensures appended { Appended self.old.out.now self.old.at (name_text name) self.new.out.now self.new.at }
    {
        let mut rest = name;
        // no `for`: how many bytes are left is in the number
        while rest != 0 {
            self.put_byte((rest % BYTE_VALUES) as u8);
            rest /= BYTE_VALUES;
        }
    }

    // Appends the numeral of a number.
    fn put_number(&mut self, number: u64)
        requires { PlaceInRange self.old.at (numeral number) }
        ensures same_buffer { self.new.out.ghost_name ≡ self.old.out.ghost_name }
        ensures appended { Appended self.old.out.now self.old.at (numeral number) self.new.out.now self.new.at }
    {
        if 10 <= number {
            self.put_number(number / 10);
        }
        self.put_byte(b'0' + (number % 10) as u8);
    }
    // Appends what a byte of a template stands for.
    fn put_part(&mut self, byte: u8, fields: [u64; FIELDS])
        requires { PlaceInRange self.old.at (part byte fields) }
        ensures same_buffer { self.new.out.ghost_name ≡ self.old.out.ghost_name }
        ensures appended { Appended self.old.out.now self.old.at (part byte fields) self.new.out.now self.new.at }
    {
        match byte {
            b'0'..=b'3' => self.put_name(fields[(byte - b'0') as usize]),
            b'4'..=b'7' => self.put_number(fields[(byte - b'4') as usize]),
            _ => self.put_byte(byte),
        }
    }

    /// Appends a template with its fields: in it `0` to `3` stand for the names of the fields and `4` to `7` for their numerals.
    pub fn put_line(&mut self, template: &[u8], fields: [u64; FIELDS])
        requires { PlaceInRange self.old.at (filled_in template.now fields) }
        ensures same_buffer { self.new.out.ghost_name ≡ self.old.out.ghost_name }
        ensures appended { Appended self.old.out.now self.old.at (filled_in template.now fields) self.new.out.now self.new.at }
    {
        for byte in template {
            self.put_part(*byte, fields);
        }
    }
}
