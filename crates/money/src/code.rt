//! Account codes.
ghost use Rattle.std.specs.Prelude.{◌≡◌, Some};
ghost use Rattle.money.specs.Codes.{is_code_byte, formed, bytes_of, shown_code, code_of};

use std::fmt;

/// The code of a margin account: eight single bytes, each a capital letter or a digit.
/// Only `Code::read` makes one. Codes are compared byte by byte.
#[derive(Clone, Copy, PartialEq, Eq, PartialOrd, Ord)]
pub struct Code(u8, u8, u8, u8, u8, u8, u8, u8);

fn is_code_byte(b: u8) -> bool
    ensures { result ≡ is_code_byte b }
{
    b.is_ascii_uppercase() || b.is_ascii_digit()
}

impl Code {
    /// The code that the text is, if it is eight characters A to Z or 0 to 9.
    #[tactic(auto, unfolding(crate::specs::Codes::code_of))]
    pub fn read(text: &[u8]) -> Option<Code>
        ensures { result ≡ code_of text.now }
    {
        let &[a, b, c, d, e, f, g, h] = text else {
            return None;
        };
        let code = Code(a, b, c, d, e, f, g, h);
        code.is_formed().then_some(code)
    }

    fn is_formed(self) -> bool
        ensures { result ≡ formed (bytes_of self) }
    {
        is_code_byte(self.0)
            && is_code_byte(self.1)
            && is_code_byte(self.2)
            && is_code_byte(self.3)
            && is_code_byte(self.4)
            && is_code_byte(self.5)
            && is_code_byte(self.6)
            && is_code_byte(self.7)
    }
}

impl fmt::Display for Code {
    ghost output = { λ c. Some (shown_code c) };

    fn fmt<W: fmt::Write>(&self, f: &mut fmt::Formatter<W>) -> fmt::Result {
        let a = char::from(self.0);
        let b = char::from(self.1);
        let c = char::from(self.2);
        let d = char::from(self.3);
        let e = char::from(self.4);
        let g = char::from(self.5);
        let h = char::from(self.6);
        let i = char::from(self.7);
        write!(f, "{a}{b}{c}{d}{e}{g}{h}{i}")
    }
}
