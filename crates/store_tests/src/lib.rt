// Tests of records and of where they are kept: in rows, and in the slots of an image.
#![tactic(auto)]

#[cfg(test)]
mod both;
#[cfg(test)]
mod compare;
#[cfg(test)]
mod edits;
#[cfg(test)]
mod flaws;
#[cfg(test)]
mod images;
#[cfg(test)]
mod known;
#[cfg(test)]
mod note;
#[cfg(test)]
mod opened;
#[cfg(test)]
mod records;
#[cfg(test)]
mod refusal;
#[cfg(test)]
mod rows;
#[cfg(test)]
mod samples;
#[cfg(test)]
mod scenarios;
#[cfg(test)]
mod slot_bytes;
#[cfg(test)]
mod table;
