//! Whether a currency is open.
ghost use Rattle.std.specs.Prelude.{◌≡◌};
ghost use Rattle.std.specs.Option.{ok_or};
ghost use Rattle.money.specs.Statuses.{flag_of, status_of};
ghost use Rattle.money.specs.declared.unknown.Unknown.{Unknown};

use crate::unknown::Unknown;

/// Whether payments are made in a currency today: it is shut on its holidays.
/// Each status with its holiday flag.
#[derive(Clone, Copy, PartialEq, Eq)]
pub enum Status {
    Open = 0,
    Shut = 1,
}

/// The status that a holiday flag gives, if it is 0 or 1.
impl TryFrom<i64> for Status {
    type Error = Unknown;

    ghost try_from_gives = { λ flag r. r ≡ ok_or (status_of flag) (record { 0 = flag }) };

    fn try_from(flag: i64) -> Result<Status, Unknown> {
        match flag {
            0 => Ok(Status::Open),
            1 => Ok(Status::Shut),
            _ => Err(Unknown(flag)),
        }
    }
}

/// The holiday flag of a status.
impl From<Status> for i64 {
    ghost from_gives = { λ status r. r ≡ flag_of status };

    fn from(status: Status) -> i64 {
        status as i64
    }
}
