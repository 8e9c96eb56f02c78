//! Whole schedules, each played with several turn numbers, on an engine whose asks take several turns.
#![tactic(auto)]

#[cfg(test)]
mod arrivals;
#[cfg(test)]
mod journals;
#[cfg(test)]
mod lines;
#[cfg(test)]
mod listeners;
#[cfg(test)]
mod shown;
#[cfg(test)]
mod stepper;
#[cfg(test)]
mod telling;
