//! The engine on devices: what it begins on, what each call answers, and what its devices stand for when it is closed, after faults too.
#![tactic(auto)]

#[cfg(test)]
mod begins;
#[cfg(test)]
mod bytes;
#[cfg(test)]
mod calls;
#[cfg(test)]
mod engine;
#[cfg(test)]
mod said;
#[cfg(test)]
mod site;
#[cfg(test)]
mod stops;
