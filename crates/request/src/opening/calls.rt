//! How the terms of an opening are read.
ghost use Rattle.std.specs.Prelude.{◌≡◌};
ghost use Rattle.money.specs.Refusals.{refusal_of};
ghost use Rattle.request.specs.Causes.{first_told};
ghost use Rattle.request.specs.Faults.{told};
ghost use Rattle.request.specs.Openings.{terms_faults, terms_of, terms_in, number_answer};

use super::Terms;
use crate::fault::BookFault;
use crate::subject::Subject;
use account::priority::Priority;
use account::terms::{DebitSetting, Level};
use money::cause::BookCause;
use money::range::OPTIMIZATION;

impl Terms {
    /// The terms of an opening that names the subject, whose currency is the base; or the first fault among them.
    pub fn read(
        subject: Subject,
        number: i64,
        level: i64,
        setting: i64,
        priority: &[u8],
    ) -> Result<Terms, BookFault>
        ensures answer { refusal_of told result ≡ first_told (terms_faults subject.code number subject.currency level setting priority.now) }
        ensures value { terms_in result ≡ terms_of number subject.currency level setting priority.now }
    {
        let base = subject.known_currency()?;
        let number = read_number(subject, number)?;
        let no_term = subject.fault(BookCause::LevelOrSetting);
        let level = Level::try_from(level).map_err(|_| no_term)?;
        let setting = DebitSetting::try_from(setting).map_err(|_| no_term)?;
        let priority = Priority::read(priority).ok_or(subject.fault(BookCause::PriorityForm))?;
        Ok(Terms {
            number,
            base,
            level,
            setting,
            priority,
        })
    }
}

fn read_number(subject: Subject, number: i64) -> Result<u32, BookFault>
    ensures { result ≡ number_answer subject number }
{
    if !OPTIMIZATION.holds(number) {
        return Err(subject.fault(BookCause::OptimizationNumber));
    }
    Ok(number as u32)
}
