//! Tests of the script's public calls: scripts read or refused, and reports byte for byte.
#![tactic(auto)]

#[cfg(test)]
mod bus_script_tests;
#[cfg(test)]
mod check;
#[cfg(test)]
mod disk_script_tests;
#[cfg(test)]
mod net_script_tests;
#[cfg(test)]
mod pair_script_tests;
#[cfg(test)]
mod rescind_script_tests;
#[cfg(test)]
mod script_load_tests;
