// Lines as they end, and their answers.
use crate::bill::Bill;
use crate::card;
use crate::csv::Csv;
use crate::fields::Asked;
use crate::line::Line;
use crate::problem::Problem;
use crate::statement::Statement;
use crate::utility::Utility;
use cooperative::Cooperative;
use oregon::Oregon;
use std::io;

// What a reading is answered by. Chosen by an argument at run time, so that a closure would be chosen by a
// match of two too.
#[derive(Clone, Copy, Debug, PartialEq, Eq)]
pub enum Form {
    Statement,
    Csv,
}

#[derive(Drop)]
pub struct Desk {
    form: Form,
    line: Line,
    // How many lines have ended.
    ended: u64,
    // Oregon's book, once its card is accepted.
    oregon: Option<Oregon>,
}

impl Desk {
    pub fn new(form: Form) -> Desk {
        Desk {
            form,
            line: Line::new(),
            ended: 0,
            oregon: None,
        }
    }

    // Answers each line that ends among the bytes.
    pub fn receive(&mut self, rt: &HostRuntime, bytes: &[u8]) -> io::Result<()> {
        for byte in bytes {
            if *byte == b'\n' {
                self.end_line(rt)?;
            } else {
                self.line.push(*byte);
            }
        }
        Ok(())
    }

    // A last line without a line feed is a line too.
    pub fn finish(mut self, rt: &HostRuntime) -> io::Result<()> {
        if self.line.is_empty() {
            return Ok(());
        }
        self.line.release();
        self.end_line(rt)
    }

    fn end_line(&mut self, rt: &HostRuntime) -> io::Result<()> {
        self.ended = self.ended.saturating_add(1);
        let number = self.ended;
        match self.answer() {
            Ok(None) => {}
            Ok(Some(statement)) => match self.form {
                Form::Statement => println!(rt; "{statement}")?,
                Form::Csv => rt.println(Csv(statement.bill.items.map(|item| item.amount)))?,
            },
            Err(problem) => println!(rt; "# line {number}: {problem}")?,
        }
        self.line.clear();
        Ok(())
    }

    // Takes the line as a card, or as a reading once there is a card.
    fn answer(&mut self) -> Result<Option<Statement>, Problem> {
        match self.oregon {
            None => {
                let card = card::read(self.line.characters())?;
                self.oregon = Some(Oregon { card });
                Ok(None)
            }
            Some(oregon) => {
                let asked = Asked::read(&self.line)?;
                // The books are of two types, so that a `dyn` of one would be chosen by this match too.
                let bill = match asked.utility {
                    Utility::Oregon => Bill::of(&oregon, &asked.reading)?,
                    Utility::Cooperative => Bill::of(&Cooperative, &asked.reading)?,
                };
                Ok(Some(Statement {
                    number: self.ended,
                    utility: asked.utility,
                    entry: asked.reading.entry(),
                    bill,
                }))
            }
        }
    }
}
