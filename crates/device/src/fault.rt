// Why a device refuses, and where.
ghost use Rattle.std.specs.Prelude.{◌≡◌};
ghost use Rattle.device.specs.Faults.{number_of, arising, passed_on, handed_up};

// Why a read or a write is refused, with the refusal's number: there is no such sector, what it holds cannot be read, it takes
// no writes.
#[derive(Clone, Copy, PartialEq, Eq, Debug)]
pub enum Reason {
    OffDevice = 1,
    Unreadable = 2,
    TakesNoWrites = 3,
}

// What sort of device refused: one of ours, or one that drives a card.
#[derive(Clone, Copy, PartialEq, Eq, Debug)]
pub enum Layer {
    Driver,
    Image,
    Queue,
    Gather,
    Guard,
}

// Where a refusal arose: the layer, how many layers lie above it, and the sector by that layer's own number.
#[derive(Clone, Copy, PartialEq, Eq, Debug)]
pub struct Origin {
    pub layer: Layer,
    pub depth: u8,
    pub sector: u32,
}

// A refusal of a device.
#[derive(Clone, Copy, PartialEq, Eq, Debug)]
pub struct DeviceFault {
    pub reason: Reason,
    pub origin: Origin,
}

impl DeviceFault {
    // A refusal that arises in a layer itself: no layer lies above it.
    pub fn arising(reason: Reason, layer: Layer, sector: u32) -> DeviceFault
        ensures { result ≡ arising reason layer sector }
    {
        let origin = Origin {
            layer,
            depth: 0,
            sector,
        };
        DeviceFault { reason, origin }
    }

    // The refusal's number, in a line of its own as for each type of refusal.
    pub fn number(self) -> u8
        ensures { result ≡ number_of self }
    {
        self.reason as u8
    }

    // The fault as the layer above passes it on: whole, with one more layer above its origin.
    pub fn passed_on(self) -> DeviceFault
        ensures { result ≡ passed_on self }
    {
        let origin = Origin {
            depth: self.origin.depth.saturating_add(1),
            ..self.origin
        };
        DeviceFault { origin, ..self }
    }
}

// The answer of the device below as a layer hands it up: a fault is passed on.
pub fn hand_up(answer: Result<(), DeviceFault>) -> Result<(), DeviceFault>
    ensures { result ≡ handed_up answer }
{
    answer.map_err(|fault| fault.passed_on())
}
