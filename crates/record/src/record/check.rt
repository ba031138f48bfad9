// Making a record from a row.
ghost use Rattle.std.specs.Prelude.{◌≡◌, ◌≤◌, true, false, MatchResult};
ghost use Rattle.record.specs.Rows.{lawful_row};

use crate::entries::{all_blank, all_lawful, climbing};
use crate::record::Record;
use crate::row::Row;
use reading::{LAST_MONTH, Unlawful};

// The row as a record, unless it breaks a rule.
impl TryFrom<Row> for Record {
    ghost use Rattle.record.specs.Checked.{Checked};

    type Error = Unlawful;

    ghost try_from_gives = { Checked };

    fn try_from(row: Row) -> Result<Record, Unlawful>
        ensures cases { MatchResult result (λ x. x.row ≡ row) (λ _. lawful_row row ≡ false) }
    {
        let Some((readings, unused)) = row.entries.split_at_checked(row.count) else {
            return Err(Unlawful);
        };
        if row.state.is_used()
            && all_blank(unused)
            && row.at.month <= LAST_MONTH
            && !readings.is_empty()
            && all_lawful(readings)
            && climbing(readings)
        {
            Ok(Record { row })
        } else {
            Err(Unlawful)
        }
    }
}
