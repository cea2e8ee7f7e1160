// Bytes, names and numbers in a lent buffer, of which the lines of the bench program and of the traffic page are made.
ghost use Rattle.std.specs.Prelude.{◌+◌, ◌≤◌, ◌≡◌, [], ◌∷◌, length, take};
ghost use Rattle.text.specs.Text.{decimal, field};
ghost use Rattle.text.specs.Columns.{right_aligned};
ghost use Rattle.text.specs.Inner.{Put, column_byte};

pub const BLANK: u8 = b' ';

pub const NEWLINE: u8 = b'\n';

// A lent buffer, and the index that the next byte goes to.
#[derive(Drop)]
pub struct Writer<'a> {
    out: &'a mut [u8],
    pub(crate) at: usize,
}

impl<'a> Writer<'a> {
    ghost use Rattle.text.specs.Writer.{Room, Wrote};

    // A writer at the front of a buffer.
    pub fn new(out: &'a mut [u8]) -> Writer<'a>
        ensures same { result.out.ghost_name ≡ out.entry.ghost_name }
        ensures bytes { result.out.now ≡ out.old }
        ensures front { result.at ≡ 0 }
    {
        Writer { out, at: 0 }
    }

    // The bytes in front of the buffer, up to the index.
    pub fn written(&self) -> &[u8]
        requires { self.now.at ≤ length self.now.out.now }
        ensures { result.now ≡ take self.now.at self.now.out.now }
    {
        &self.out[..self.at]
    }

    // One byte.
    pub fn byte(&mut self, b: u8)
        requires { Room self.old 1 }
        ensures { Wrote self.old (b ∷ []) self.new }
    {
        self.out[self.at] = b;
        self.at += 1;
    }

    // The bytes of a text.
    fn text(&mut self, text: &[u8])
        requires { Room self.old (length text.now) }
        ensures { Wrote self.old text.now self.new }
    {
        let end = self.at + text.len();
        self.out[self.at..end].copy_from_slice(text);
        self.at = end;
    }

    // The digits of x in so many columns, right-aligned.
    pub fn right(&mut self, width: usize, x: u32)
        requires short { length (decimal x) ≤ width }
        requires room { Room self.old width }
        ensures { Wrote self.old (right_aligned width (decimal x)) self.new }
    {
        self.at = put_right(self.out, self.at, width, x);
    }

    // The digits of x.
    pub fn number(&mut self, x: u32)
        requires { Room self.old (length (decimal x)) }
        ensures { Wrote self.old (decimal x) self.new }
    {
        let width = digit_count(x);
        self.right(width, x);
    }

    // A name and its number, and the byte that ends them.
    pub fn field(&mut self, name: &[u8], x: u32, end: u8)
        requires { Room self.old (length name.now + 12) }
        ensures { Wrote self.old (field name.now x end) self.new }
    {
        self.text(name);
        self.byte(BLANK);
        self.number(x);
        self.byte(end);
    }
}

// How many digits x has.
fn digit_count(x: u32) -> usize
    ensures { result ≡ length (decimal x) }
{
    let mut k = 1;
    let mut rest = x;
    while 10 <= rest {
        rest /= 10;
        k += 1;
    }
    k
}

// A column before the last: the last digit of `rest`, or a blank where nothing is left.
fn column(rest: u32) -> u8
    ensures { result ≡ column_byte rest }
{
    if rest == 0 {
        BLANK
    } else {
        b'0' + (rest % 10) as u8
    }
}

// The digits of x in so many columns, right-aligned, from index `at` of a buffer on: the columns before the last one, from the right, and
// the last one. Gives the index behind it.
pub fn put_right(out: &mut [u8], at: usize, width: usize, x: u32) -> usize
    requires { (length (decimal x) ≤ width) × (at + width ≤ length out.old) }
    ensures { Put out.old at (right_aligned width (decimal x)) out.new result }
{
    let last = width - 1;
    let mut rest = x / 10;
    for i in (0..last).rev() {
        out[at + i] = column(rest);
        rest /= 10;
    }
    out[at + last] = b'0' + (x % 10) as u8;
    at + width
}
