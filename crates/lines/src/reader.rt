// Lines read from the front of some bytes.
ghost use Rattle.std.specs.Prelude.{◌≡◌, ◌≤◌, ◌==◌, length};
ghost use Rattle.lines.specs.Lines.{places};
ghost use Rattle.lines.specs.Answers.{NumberFound, LineFound};

// The bytes that are left to be read. What is not there is not passed over: the bytes stay as they are.
#[derive(Clone, Copy)]
pub struct Reader<'a> {
    pub left: &'a [u8],
}

impl<'a> Reader<'a> {
    // Whether all bytes have been read.
    pub fn is_done(&self) -> bool
        ensures { result ≡ (length self.now.left.now == 0) }
    {
        self.left.is_empty()
    }

    // The number in front: 1 to `digits` digits, with no leading zero unless it is 0. (`count` is asked in the loop and behind it. Tried: `position`, and then
    // a loop over the digits; it takes 1.13 times as long, and reading may not become slower.)
    pub fn number(&mut self, digits: usize) -> Option<u32>
        requires { digits ≤ 9 }
        ensures { NumberFound digits self.old.left.now result self.new.left.now }
    {
        let left = self.left;
        let mut value = 0;
        let mut count = 0;
        for c in left {
            if !c.is_ascii_digit() {
                break;
            }
            if count == digits {
                return None;
            }
            value = 10 * value + u32::from(*c - b'0');
            count += 1;
        }
        if count == 0 {
            return None;
        }
        if left[0] == b'0' && count > 1 {
            return None;
        }
        self.left = &left[count..];
        Some(value)
    }

    // The line of a form in front, LF included: its numbers, and 0 where the form has fewer. Each capital letter of the form stands for a number, any other
    // byte for itself. (`k` counts the letters. Tried: `next` of `numbers.iter_mut()`, after which a proof knows none of the numbers.)
    pub fn line<const N: usize>(&mut self, form: &[u8], digits: usize) -> Option<[u32; N]>
        requires digits_bound { digits ≤ 9 }
        requires form_fits { places form.now ≤ N }
        ensures { LineFound N digits form.now self.old.left.now result self.new.left.now }
    {
        let mut reader = *self;
        let mut numbers = [0; N];
        let mut k = 0;
        for c in form {
            if c.is_ascii_uppercase() {
                numbers[k] = reader.number(digits)?;
                k += 1;
            } else {
                let [first, rest @ ..] = reader.left else {
                    return None;
                };
                if first != c {
                    return None;
                }
                reader.left = rest;
            }
        }
        *self = reader;
        Some(numbers)
    }
}
