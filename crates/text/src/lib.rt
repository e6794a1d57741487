// Decimal numbers as text, and back: what the lines of a listing are made of.
#![tactic(auto)]

ghost use Rattle.std.specs.Prelude.{◌≡◌, ◌&&◌, [], ◌∷◌, ◌++◌, ◌≤◌, leb, take};
ghost use Rattle.text.specs.Writing.{digit_at, decimal};
ghost use Rattle.text.specs.Lent.{Continues};
ghost use Rattle.text.specs.Reading.{most, is_digit, digits, ended_by, read_number};
ghost use Rattle.text.specs.Seen.{seen};

// The bytes that separate numbers and end a line.
pub const SPACE: u8 = b' ';

pub const NEWLINE: u8 = b'\n';

// The largest number that a line may hold.
const MOST: u32 = 65535;

// ---- writing

// Lent room, and how much of it is written; what has no room is left out. Memory is fixed, so it is no `Vec`.
#[derive(Drop)]
pub struct Page<'a> {
    pub room: &'a mut [u8],
    pub end: usize,
}

impl Page<'_> {
    // The text that is written.
    pub fn written(&self) -> &[u8]
        ensures { result.now ≡ take self.now.end self.now.room.now }
    {
        let end = self.end.min(self.room.len());
        &self.room[..end]
    }

    // One byte.
    pub fn put(&mut self, byte: u8)
        ensures { Continues self.old self.new (byte ∷ []) }
    {
        if self.end < self.room.len() {
            self.room[self.end] = byte;
            self.end += 1;
        }
    }

    // The digit of a number at a place, where the number reaches it.
    fn put_digit(&mut self, number: u16, place: u16)
        requires { 1 ≤ place }
        ensures { Continues self.old self.new (digit_at number place) }
    {
        if number >= place {
            self.put(b'0' + (number / place % 10) as u8);
        }
    }

    // A number and the byte behind it. Digit by digit, since what `write!` puts is promised only on `Ok`, and this cannot fail.
    pub fn put_number(&mut self, number: u16, end: u8)
        ensures { Continues self.old self.new (decimal number ++ (end ∷ [])) }
    {
        self.put_digit(number, 10000);
        self.put_digit(number, 1000);
        self.put_digit(number, 100);
        self.put_digit(number, 10);
        self.put(b'0' + (number % 10) as u8);
        self.put(end);
    }
}

// ---- reading

// Whether a byte is read as one digit more behind a value.
fn reads_on(value: u32, byte: u8) -> bool
    ensures { result ≡ (is_digit byte && leb value most) }
{
    byte.is_ascii_digit() && value <= MOST
}

// The value of the digits that a text starts with, as far as it can still be a number of a line, and what stands behind them.
fn read_digits(input: &[u8]) -> (u32, &[u8])
    ensures { record { value = result.0; rest = result.1.now } ≡ digits 0 input.now }
{
    let mut value: u32 = 0;
    let mut rest = input;
    while let Some((byte, behind)) = rest.split_first() {
        if !reads_on(value, *byte) {
            return (value, rest);
        }
        value = value * 10 + (*byte - b'0') as u32;
        rest = behind;
    }
    (value, rest)
}

// What stands behind the byte that has to end a number.
fn read_end(input: &[u8], number: u16, end: u8) -> Option<(u16, &[u8])>
    ensures { seen result ≡ ended_by end number input.now }
{
    let (byte, behind) = input.split_first()?;
    if *byte == end {
        Some((number, behind))
    } else {
        None
    }
}

// A number up to 65535 without leading zeros and the byte that has to end it; what stands behind it. Digit by digit, since `parse` takes leading zeros and a sign.
pub fn read_number(input: &[u8], end: u8) -> Option<(u16, &[u8])>
    ensures { seen result ≡ read_number end input.now }
{
    let (first, behind) = input.split_first()?;
    if !first.is_ascii_digit() {
        return None;
    }
    if *first == b'0' {
        return read_end(behind, 0, end);
    }
    let (value, rest) = read_digits(input);
    read_end(rest, u16::try_from(value).ok()?, end)
}
