// Tests of devices and layers, as tables: their edges, the order in which writes land, pairs, piles, torn sectors.
#![tactic(auto)]

#[cfg(test)]
mod edges;
#[cfg(test)]
mod layers;
#[cfg(test)]
mod made;
#[cfg(test)]
mod queues;
#[cfg(test)]
mod torn;
