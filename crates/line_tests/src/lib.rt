// Tests of lines: what is refused and accepted, and what is answered, byte by byte.
#![tactic(auto)]

#[cfg(test)]
mod accepted_requests;
#[cfg(test)]
mod amounts;
#[cfg(test)]
mod buffer;
#[cfg(test)]
mod cards;
#[cfg(test)]
mod note;
#[cfg(test)]
mod refusal;
#[cfg(test)]
mod refused_requests;
#[cfg(test)]
mod table;
