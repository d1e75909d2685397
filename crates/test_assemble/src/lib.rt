//! What small devices stand for, whose bytes are written by hand: each cause of foreign devices, pools that are gone or lack a device,
//! and the next serial.
#![tactic(auto)]

#[cfg(test)]
mod broken;
#[cfg(test)]
mod said;
#[cfg(test)]
mod several;
#[cfg(test)]
mod site;
#[cfg(test)]
mod table;
