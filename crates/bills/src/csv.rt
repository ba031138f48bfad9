// Amounts as a line of comma-separated values.
use reading::LINES;
use std::fmt;

// In cents.
#[derive(Clone, Copy)]
pub struct Csv(pub [u64; LINES]);

impl fmt::Display for Csv {
    fn fmt<W: fmt::Write>(&self, f: &mut fmt::Formatter<W>) -> fmt::Result {
        for (line, amount) in self.0.iter().enumerate() {
            if line > 0 {
                f.write_str(",")?;
            }
            write!(f, "{amount}")?;
        }
        Ok(())
    }
}
