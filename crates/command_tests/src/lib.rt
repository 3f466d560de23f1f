//! Tests of the commands' parts, by public calls alone: the streams outside (`ends.rt`), the words of the command line
//! (`forms.rt`), the texts of journals and of faults (`texts.rt`, `lines.rt`), generated programs (`made.rt`), and the audit.
#![tactic(auto)]

#[cfg(test)]
mod audits;
#[cfg(test)]
mod ends;
#[cfg(test)]
mod forms;
#[cfg(test)]
mod lines;
#[cfg(test)]
mod longest;
#[cfg(test)]
mod made;
#[cfg(test)]
mod reported;
#[cfg(test)]
mod texts;
