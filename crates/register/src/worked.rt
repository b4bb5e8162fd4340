//! Two rows of keys: optimization numbers, and account codes, which compare byte by byte.
ghost use Rattle.std.specs.Prelude.{T};
ghost use Rattle.register.specs.Rows.{ascending, IsPlace, InsertionPoint};
ghost use Rattle.std.specs.Ordering.{nat_cmp};
ghost use Rattle.std.specs.Cmp.Lexicographic.{slice_cmp};

use crate::{find, insertion_point};

/// The place of an optimization number.
pub fn number_place(numbers: &[u32], number: u32) -> Option<usize>
    ensures { T (ascending nat_cmp numbers.now) → IsPlace numbers.now number result }
{
    find(numbers, &number)
}

/// The place of an account code.
pub fn code_place(codes: &[[u8; 8]], code: &[u8; 8]) -> Option<usize>
    ensures { T (ascending (slice_cmp nat_cmp) codes.now) → IsPlace codes.now code.now result }
{
    find(codes, code)
}

/// The place where a new account code belongs.
pub fn code_insertion_point(codes: &[[u8; 8]], code: &[u8; 8]) -> usize
    ensures { T (ascending (slice_cmp nat_cmp) codes.now) → InsertionPoint (slice_cmp nat_cmp) codes.now code.now result }
{
    insertion_point(codes, code)
}
