//! A line while it grows: texts and numbers, one behind the other.
ghost use Rattle.std.specs.Prelude.{◌≡◌, ◌+◌, ◌≤◌, [], ◌++◌, length};

use arrayvec::ArrayString;
use itoa::{Buffer, Integer};

/// No line has more bytes.
const LONGEST_LINE: usize = 90;

/// It has no `write!`: the contract of `fmt` says nothing of where it fails, so the check left open that `Entry::room`,
/// which cannot fail, gets the whole text.
#[derive(Clone, Copy)]
pub struct Line {
    pub text: ArrayString<LONGEST_LINE>,
}

impl Line {
    pub fn new() -> Line
        ensures { result.text.bytes ≡ [] }
    {
        Line {
            text: ArrayString::new(),
        }
    }

    /// Adds the text.
    pub fn text(&mut self, text: &str)
        requires { length self.old.text.bytes + length text.now ≤ 90 }
        ensures text { self.new.text.bytes ≡ self.old.text.bytes ++ text.now }
        ensures width { length self.new.text.bytes ≡ length self.old.text.bytes + length text.now }
    {
        self.text.push_str(text);
    }

    /// Adds the decimal digits of the number.
    pub fn number<I: Integer>(&mut self, n: I)
        requires { length self.old.text.bytes + I.MAX_STR_LEN ≤ 90 }
        ensures text { self.new.text.bytes ≡ self.old.text.bytes ++ I.text n }
        ensures width { length self.new.text.bytes ≤ length self.old.text.bytes + I.MAX_STR_LEN }
    {
        self.text(Buffer::new().format(n));
    }
}
