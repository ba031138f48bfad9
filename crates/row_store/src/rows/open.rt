// Taking rows into use.
ghost use Rattle.std.specs.Prelude.{◌≡◌, ◌≤◌, not, ◌&&◌, length, replicate, nat_le};
ghost use Rattle.std.specs.Result.{result_err};
ghost use Rattle.reading.specs.First.{when};
ghost use Rattle.reading.specs.declared.fault.Fault.TheVariants.{Unusable};
ghost use Rattle.record.specs.Rows.{vacant};

use crate::rows::Rows;
use reading::Fault;
use record::{Row, VACANT};
use store::MOST;

impl<'a> Rows<'a> {
    // A refusal, unless there are 1 to 1,024 rows.
    pub fn check(rows: &[Row]) -> Result<(), Fault>
        ensures { result_err result ≡ when (not (nat_le 1 (length rows.now) && nat_le (length rows.now) 1024)) Unusable }
    {
        if rows.is_empty() || rows.len() > MOST {
            return Err(Fault::Unusable);
        }
        Ok(())
    }

    // Empties the rows, and takes them into use. It cannot fail: it asks for what `check` answers.
    #[tactic(auto, using(store::proofs::Tables::vacant_lawful))]
    pub fn open(rows: &'a mut [Row]) -> Rows<'a>
        requires { (1 ≤ length rows.old) × (length rows.old ≤ 1024) }
        ensures { result.rows.now ≡ replicate (length rows.old) vacant }
    {
        rows.fill(VACANT);
        Rows { rows }
    }
}
