//! Numbers of a sheet.
ghost use Rattle.std.specs.Prelude.{◌≡◌, ◌^◌, ◌<◌, ◌≤◌, length, pos, IfSome, Some};
ghost use Rattle.money.specs.Options.{before};
ghost use Rattle.text.specs.Numbers.{counted, natural, below_zero, number_of};

/// The most digits of a number.
const DIGITS: usize = 12;

// The number that up to 12 digits write.
#[tactic(auto, using(crate::proofs::DigitLaws::no_digit, crate::proofs::DigitLaws::all_digits, std::proofs::lemmas::List::take_all, std::proofs::lemmas::Int::Digits::digits_value_more, std::proofs::lemmas::Int::Digits::digits_more, std::proofs::lemmas::Str::digit_value_digit))]
fn counted_digits(text: &[u8]) -> Option<u64>
    requires { length text.now ≤ 12 }
    ensures value { result ≡ counted text.now }
    ensures bound { IfSome result (λ n. n < 10 ^ 12) }
{
    let mut n: u64 = 0;
    for b in text {
        if !b.is_ascii_digit() {
            return None;
        }
        n = n * 10 + u64::from(*b - b'0');
    }
    Some(n)
}

fn natural_number(text: &[u8]) -> Option<u64>
    ensures value { result ≡ natural text.now }
    ensures bound { IfSome result (λ n. n < 10 ^ 12) }
{
    match text {
        [] | [b'0', _, ..] => None,
        _ if text.len() <= DIGITS => counted_digits(text),
        _ => None,
    }
}

fn below_zero(digits: &[u8]) -> Option<i64>
    ensures { result ≡ before (natural digits.now) below_zero }
{
    let n = natural_number(digits)?;
    (n != 0).then_some(-(n as i64))
}

fn from_zero(digits: &[u8]) -> Option<i64>
    ensures { result ≡ before (natural digits.now) (λ n. Some (pos n)) }
{
    natural_number(digits).map(|n| n as i64)
}

/// The number that a field writes: up to 12 digits, no leading zero, and a minus only before a number above 0.
#[tactic(auto, using(std::proofs::lemmas::List::take_rest))]
pub fn number(text: &[u8]) -> Option<i64>
    ensures { result ≡ number_of text.now }
{
    match text {
        [b'-', digits @ ..] => below_zero(digits),
        _ => from_zero(text),
    }
}
