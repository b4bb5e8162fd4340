//! The lines of a sheet.
ghost use Rattle.std.specs.Prelude.{◌≡◌};
ghost use Rattle.std.specs.Iterator.{YieldsFirstRef, at_most};
ghost use Rattle.text.specs.Cuts.{held};
ghost use Rattle.text.specs.Rows.{First, rows, left, bytes_left};

use crate::bytes::place;

/// The first line with its line feed, and what follows it. Where no line feed is left, all is one line.
#[tactic(auto, using(crate::proofs::RowLaws::first_row))]
pub fn first_line(sheet: &[u8]) -> Option<(&[u8], &[u8])>
    ensures { First sheet.now (held result) }
{
    if sheet.is_empty() {
        return None;
    }
    let end = place(sheet, b'\n').map_or(sheet.len(), |at| at + 1);
    Some(sheet.split_at(end))
}

/// The lines that are left of a sheet, each with its line feed. Where no line feed is left, all is one line.
#[derive(Drop)]
pub struct Lines<'a> {
    rest: &'a [u8],
}

impl<'a> Lines<'a> {
    /// All lines of a sheet.
    pub fn of(sheet: &'a [u8]) -> Lines<'a>
        ensures { left result ≡ rows sheet.now }
    {
        Lines { rest: sheet }
    }
}

impl<'a> Iterator for Lines<'a> {
    type Item = &'a [u8];

    ghost next_gives = { YieldsFirstRef left };

    ghost remaining = { λ s. at_most (bytes_left s) };

    fn next(&mut self) -> Option<&'a [u8]> {
        let (line, rest) = first_line(self.rest)?;
        self.rest = rest;
        Some(line)
    }
}
