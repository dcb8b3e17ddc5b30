// What stations meet at a target, told as it happens.
#![tactic(auto)]

#[cfg(test)]
mod bench;
#[cfg(test)]
mod exchanges;
#[cfg(test)]
mod holds;
#[cfg(test)]
mod places;
