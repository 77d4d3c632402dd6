// Tests, as tables: CRCs, damaged tags, the limits of each kind, the limits of what is written, image files.
#![tactic(auto)]

#[cfg(test)]
mod crcs;
#[cfg(test)]
mod files;
#[cfg(test)]
mod kinds;
#[cfg(test)]
mod tags;
#[cfg(test)]
mod writers;
