// Why a sector is no descriptor in its place.
ghost use Rattle.std.specs.Prelude.{◌≡◌};
ghost use Rattle.descriptor.specs.Refusals.{number_of};

// The check that failed first, with the refusal's number.
#[derive(Clone, Copy, PartialEq, Eq, Debug)]
pub enum Refusal {
    Tag = 10,
    Location = 11,
    Crc = 12,
    Kind = 13,
}

impl Refusal {
    // The refusal's number. Each type of refusal reads it in a line of its own: a trait would be as many impls of that line, for
    // callers that know the type.
    pub fn number(self) -> u8
        ensures { result ≡ number_of self }
    {
        self as u8
    }
}
