//! Uses of the library, as a caller writes them: a file each, whose test shows what comes of it. They are read with the tests alone, so that
//! `rt ci` proves each once.
#![tactic(auto)]

#[cfg(test)]
mod calculator;
#[cfg(test)]
mod calculator_calls;
#[cfg(test)]
mod chord;
#[cfg(test)]
mod decoder;
#[cfg(test)]
mod lock;
#[cfg(test)]
mod messages;
#[cfg(test)]
mod mixer;
#[cfg(test)]
mod offsets;
#[cfg(test)]
mod pools;
#[cfg(test)]
mod remote;
#[cfg(test)]
mod tickets;
#[cfg(test)]
mod voices;
#[cfg(test)]
mod workers;
