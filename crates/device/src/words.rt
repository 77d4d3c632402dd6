// Refusals of devices in words, with their numbers and where they arose.
use crate::fault::{DeviceFault, Layer, Reason};
use std::error::Error;
use std::fmt;

impl fmt::Display for Layer {
    fn fmt<W: fmt::Write>(&self, f: &mut fmt::Formatter<W>) -> fmt::Result {
        f.write_str(match self {
            Layer::Driver => "driver",
            Layer::Image => "image",
            Layer::Queue => "queue",
            Layer::Gather => "gather layer",
            Layer::Guard => "guard layer",
        })
    }
}

impl fmt::Display for Reason {
    fn fmt<W: fmt::Write>(&self, f: &mut fmt::Formatter<W>) -> fmt::Result {
        f.write_str(match self {
            Reason::OffDevice => "there is no such sector",
            Reason::Unreadable => "the sector cannot be read",
            Reason::TakesNoWrites => "the sector takes no writes",
        })
    }
}

impl fmt::Display for DeviceFault {
    fn fmt<W: fmt::Write>(&self, f: &mut fmt::Formatter<W>) -> fmt::Result {
        let DeviceFault { reason, origin } = *self;
        write!(
            f,
            "refused {}: {reason} ({}, sector {}",
            self.number(),
            origin.layer,
            origin.sector
        )?;
        match origin.depth {
            0 => write!(f, ")"),
            1 => write!(f, ", 1 layer down)"),
            depth => write!(f, ", {depth} layers down)"),
        }
    }
}

impl Error for DeviceFault {}
