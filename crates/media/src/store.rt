// Sectors that lie one behind the other in bytes of the caller.
ghost use Rattle.std.specs.Prelude.{◌≡◌, ℕ, ◌*◌, ◌<◌, List};
ghost use Rattle.std.specs.Option.{SomeIff, option_copied};
ghost use Rattle.media.specs.Landed.{count_of, getting, putting};

use descriptor::kinds::{SECTOR_BYTES, Sector};
use octets::fields::put_bytes;
use std::marker::Model;

// Sectors in the caller's bytes; what follows the last whole sector is kept and never touched. Contracts see the bytes.
#[derive(Drop)]
pub struct Store {
    bytes: Vec<u8>,
}

impl Model for Store {
    ghost Value = { List ℕ };

    ghost view = { λ s. s.bytes.items };
}

impl Store {
    // A store over bytes of the caller.
    pub fn over(bytes: Vec<u8>) -> Store
        ensures { result ≡ bytes.items }
    {
        Store { bytes }
    }

    // The bytes, handed back.
    pub fn into_bytes(self) -> Vec<u8>
        ensures { result.items ≡ self }
    {
        let Store { bytes } = self;
        bytes
    }

    // How many sectors there are.
    pub fn count(&self) -> u32
        ensures { result ≡ count_of self.now }
    {
        u32::try_from(self.bytes.len() / SECTOR_BYTES).unwrap_or(u32::MAX)
    }

    // Where a sector begins, if there is one.
    fn start_of(&self, sector: u32) -> Option<usize>
        ensures { SomeIff result (sector < count_of self.now) (2048 * sector) }
    {
        (sector < self.count()).then_some(SECTOR_BYTES * sector as usize)
    }

    // A sector's bytes, if there is one.
    pub fn get(&self, sector: u32) -> Option<&Sector>
        ensures { option_copied result ≡ getting self.now sector }
    {
        let from = self.start_of(sector)?;
        self.bytes[from..from + SECTOR_BYTES].try_into().ok()
    }

    // Puts a sector's bytes, if there is one.
    pub fn put(&mut self, sector: u32, bytes: &Sector) -> Option<()>
        ensures { (result, self.new) ≡ putting sector bytes.now self.old }
    {
        let at = self.start_of(sector)?;
        put_bytes(&mut self.bytes, at, bytes);
        Some(())
    }
}
