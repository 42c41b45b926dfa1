//! Examples run: verdicts, rule files good and refused, the automata made from them, words.
#![tactic(auto)]

#[cfg(test)]
mod answers;
#[cfg(test)]
mod drafts;
#[cfg(test)]
mod parts;
#[cfg(test)]
mod refusals;
#[cfg(test)]
mod trailers;
#[cfg(test)]
mod verdicts;
#[cfg(test)]
mod words;
