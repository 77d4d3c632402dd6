// Bytes: little-endian fields at an offset, tables of rows, the CRC of a run, the sum of a tag.
#![tactic(auto)]

pub mod crc;
pub mod fields;
pub mod rows;
pub mod tag;
