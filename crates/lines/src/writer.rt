// Lines written into the front of a lent buffer.
ghost use Rattle.std.specs.Prelude.{◌≡◌, ◌∷◌, [], ◌+◌, ◌≤◌, length};
ghost use Rattle.lines.specs.Numbers.{spelled, last_three};
ghost use Rattle.lines.specs.Lines.{filled};
ghost use Rattle.lines.specs.Putting.{Puts, HasRoom, Writes};

// Bytes up to `at` have been written. Past them the buffer is as it was lent.
#[derive(Drop)]
pub struct Writer<'a> {
    pub out: &'a mut [u8],
    pub at: usize,
}

impl<'a> Writer<'a> {
    // Nothing has been written.
    pub fn new(out: &'a mut [u8]) -> Writer<'a>
        ensures same_buffer { result.out.ghost_name ≡ out.entry.ghost_name }
        ensures unwritten { result.out.now ≡ out.old }
        ensures start { result.at ≡ 0 }
    {
        Writer { out, at: 0 }
    }

    // One byte.
    fn byte(&mut self, c: u8)
        requires { HasRoom (c ∷ []) self.old }
        ensures { Writes (c ∷ []) self.old self.new }
    {
        self.out[self.at] = c;
        self.at += 1;
    }

    // The last three digits of a number, as far as it has them, each of which `as` makes a byte (std has no `From` for it). (Inlined, so that `at` stays in a
    // register.)
    #[inline(always)]
    fn last_three(&mut self, value: u32)
        requires { HasRoom (last_three value) self.old }
        ensures { Writes (last_three value) self.old self.new }
    {
        if value > 99 {
            self.byte(b'0' + (value / 100 % 10) as u8);
        }
        if value > 9 {
            self.byte(b'0' + (value / 10 % 10) as u8);
        }
        self.byte(b'0' + (value % 10) as u8);
    }

    // The digits of a number.
    pub fn number(&mut self, value: u32)
        requires { HasRoom (spelled value) self.old }
        ensures { Writes (spelled value) self.old self.new }
    {
        self.at = put_number(value, self.out, self.at);
    }

    // The line of a form with the given numbers, 0 where none is given. Each capital letter of the form stands for a number, any other byte for itself.
    pub fn line(&mut self, form: &[u8], numbers: &[u32])
        requires { HasRoom (filled form.now numbers.now) self.old }
        ensures { Writes (filled form.now numbers.now) self.old self.new }
    {
        let mut rest = numbers.iter();
        for c in form {
            if c.is_ascii_uppercase() {
                self.number(rest.next().copied().unwrap_or(0));
            } else {
                self.byte(*c);
            }
        }
    }
}

// The digits of a number, of which a u32 has at most ten, from a place on: those of a thousandth of it, and the last three behind them. Answers where they
// end. (By place, and not by a Writer that is lent: so the place stays in a register, and is not loaded and stored at each byte.)
fn put_number(value: u32, out: &mut [u8], at: usize) -> usize
    requires { at + length (spelled value) ≤ length out.old }
    ensures { Puts (spelled value) out.old at out.new result }
{
    if value > 999 {
        let front = put_number(value / 1000, out, at);
        let mut writer = Writer { out, at: front };
        writer.last_three(value);
        return writer.at;
    }
    let mut writer = Writer { out, at };
    writer.last_three(value);
    writer.at
}
