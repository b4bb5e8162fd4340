//! The form of a line: its letter, a tab before each field, and the line feed.
ghost use Rattle.std.specs.Prelude.{◌≡◌};
ghost use Rattle.lines.specs.Entries.{held_text_number, held_text_text_number, held_text_text_number_number, held_number_text, held_number_number_text, heard, entry_of, Exactly};
ghost use Rattle.lines.specs.Faults.{told};
ghost use Rattle.lines.specs.Lines.{last, text_number, text_text_number, number_number, text_text_number_number, number_text, number_number_text, opening_of, fielded, body_of, parsed, form_fault};
ghost use Rattle.money.specs.Refusals.{refusal_of};
ghost use Rattle.std.specs.Option.{option_map};

use crate::fault::SheetFault;
use request::order::{Opening, Order};
use text::bytes::cut;
use text::number::number;

/// The most bytes of a line before its line feed.
const LONGEST: usize = 128;

fn text_number(fields: &[u8]) -> Option<(&[u8], i64)>
    ensures { held_text_number result ≡ text_number fields.now }
{
    let (text, figure) = cut(fields, b'\t')?;
    Some((text, number(figure)?))
}

fn text_text_number(fields: &[u8]) -> Option<(&[u8], &[u8], i64)>
    ensures { held_text_text_number result ≡ text_text_number fields.now }
{
    let (first, rest) = cut(fields, b'\t')?;
    let (second, figure) = text_number(rest)?;
    Some((first, second, figure))
}

fn number_number(fields: &[u8]) -> Option<(i64, i64)>
    ensures { result ≡ number_number fields.now }
{
    let (first, second) = cut(fields, b'\t')?;
    Some((number(first)?, number(second)?))
}

fn texts_numbers(fields: &[u8]) -> Option<(&[u8], &[u8], i64, i64)>
    ensures { held_text_text_number_number result ≡ text_text_number_number fields.now }
{
    let (first, rest) = cut(fields, b'\t')?;
    let (second, figures) = cut(rest, b'\t')?;
    let (third, fourth) = number_number(figures)?;
    Some((first, second, third, fourth))
}

// A text that ends the line.
fn last(text: &[u8]) -> Option<&[u8]>
    ensures { option_map (λ x. x.now) result ≡ last text.now }
{
    cut(text, b'\t').is_none().then_some(text)
}

fn number_text(fields: &[u8]) -> Option<(i64, &[u8])>
    ensures { held_number_text result ≡ number_text fields.now }
{
    let (figure, text) = cut(fields, b'\t')?;
    Some((number(figure)?, last(text)?))
}

fn number_number_text(fields: &[u8]) -> Option<(i64, i64, &[u8])>
    ensures { held_number_number_text result ≡ number_number_text fields.now }
{
    let (figure, rest) = cut(fields, b'\t')?;
    let first = number(figure)?;
    let (second, text) = number_text(rest)?;
    Some((first, second, text))
}

fn opening(fields: &[u8]) -> Option<Order<'_>>
    ensures { heard result ≡ opening_of fields.now }
{
    let (code, rest) = cut(fields, b'\t')?;
    let (figure, rest) = cut(rest, b'\t')?;
    let number = number(figure)?;
    let (base, rest) = cut(rest, b'\t')?;
    let (level, setting, priority) = number_number_text(rest)?;
    Some(Order::Opening(Opening {
        code,
        number,
        base,
        level,
        setting,
        priority,
    }))
}

fn field_line(letter: u8, fields: &[u8]) -> Option<Order<'_>>
    ensures { heard result ≡ fielded letter fields.now }
{
    match letter {
        b'R' => text_number(fields).map(|(currency, rate)| Order::Rate { currency, rate }),
        b'H' => text_number(fields).map(|(currency, flag)| Order::Holiday { currency, flag }),
        b'A' => opening(fields),
        b'L' => texts_numbers(fields).map(|(code, currency, limit, excess)| Order::Limits {
            code,
            currency,
            limit,
            excess,
        }),
        b'M' => texts_numbers(fields).map(|(code, currency, requirement, non_cash)| Order::Margin {
            code,
            currency,
            requirement,
            non_cash,
        }),
        b'D' => text_text_number(fields).map(|(code, currency, amount)| Order::Deposit {
            code,
            currency,
            amount,
        }),
        b'S' => text_text_number(fields).map(|(code, currency, amount)| Order::Settlement {
            code,
            currency,
            amount,
        }),
        b'B' => text_text_number(fields).map(|(code, currency, amount)| Order::Callback {
            code,
            currency,
            amount,
        }),
        _ => None,
    }
}

fn body_of(line: &[u8]) -> Option<&[u8]>
    ensures { option_map (λ x. x.now) result ≡ body_of line.now }
{
    let (body, rest) = cut(line, b'\n')?;
    (rest.is_empty() && body.len() <= LONGEST).then_some(body)
}

#[tactic(auto, unfolding(crate::specs::Lines::parsed))]
fn parse(line: &[u8]) -> Option<Order<'_>>
    ensures { heard result ≡ parsed line.now }
{
    match body_of(line)? {
        [letter, b'\t', fields @ ..] => field_line(*letter, fields),
        _ => None,
    }
}

/// The order that a line with its line feed writes, or the fault of its form.
#[tactic(auto, using(crate::proofs::Forms::exactly))]
pub fn form(line: &[u8]) -> Result<Order<'_>, SheetFault>
    ensures answer { refusal_of told result ≡ form_fault (parsed line.now) }
    ensures reading { entry_of result ≡ parsed line.now }
    ensures exact { Exactly line.now result }
{
    parse(line).ok_or(SheetFault::Form)
}
