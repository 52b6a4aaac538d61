//! Calls of the whole program whose files and sinks fail in their midst.
#![tactic(auto)]

#[cfg(test)]
mod broken_files;
#[cfg(test)]
mod broken_sinks;
#[cfg(test)]
mod calls;
#[cfg(test)]
mod texts;
