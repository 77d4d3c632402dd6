// The demonstration of a pile: a gather layer over a guard layer over a queue.
ghost use Rattle.std.specs.Prelude.{◌≡◌, ◌+◌, ◌%◌, ◌^◌, IfOk};

use crate::fault::Fault;
use descriptor::kinds::SECTOR_BYTES;
use device::interface::Device;
use gather::gather::Gather;
use guard::guard::Guard;
use pairs::pair::Pair;
use queue::pending::Pending;
use queue::queue::Queue;
use std::alloc::Global;
use std::io;
use telling::script::{Call, tell_calls};

// The pile.
pub type Pile = Gather<Guard<Queue>>;

// The sectors of the queue, and its slots.
const SECTORS: usize = 16;

const SLOTS: usize = 2;

// A queue of zeros, of which nothing waits.
fn queue_of_zeros(heap: Global) -> Result<Queue, Fault> {
    let bytes = vec![in heap; 0u8; SECTORS * SECTOR_BYTES]?;
    let slot = Pending {
        sector: 0,
        bytes: [0u8; SECTOR_BYTES],
    };
    let slots = vec![in heap; slot; SLOTS]?;
    Ok(Queue::over(bytes, slots))
}

// The pile: its guard layer takes no writes in sectors 0 to 3, and its gather layer has sectors 2 to 5 and 10 to 12.
fn build(heap: Global) -> Result<Pile, Fault> {
    let mut guard = Guard::over(queue_of_zeros(heap)?);
    guard.add(Pair {
        offset: 0,
        length: 4,
    })?;
    let mut gather = Gather::over(guard);
    gather.add(Pair {
        offset: 2,
        length: 4,
    })?;
    gather.add(Pair {
        offset: 10,
        length: 3,
    })?;
    Ok(gather)
}

// Offers a pair that the gather layer refuses, and tells why.
fn tell_pair(rt: &HostRuntime, pile: &mut Pile, pair: Pair) -> io::Result<()> {
    let Pair { offset, length } = pair;
    match pile.add(pair) {
        Ok(()) => println!(rt; "pair of {length} sectors from {offset}: accepted"),
        Err(fault) => println!(rt; "pair of {length} sectors from {offset}: {fault}"),
    }
}

// Tells which sectors of the queue have a write that waits.
fn tell_waiting(rt: &HostRuntime, pile: &Pile) -> io::Result<()> {
    let queue = pile.below().below();
    print!(rt; "waiting in the queue: {}", queue.waiting())?;
    for sector in (0..queue.count()).filter(|sector| queue.waits(*sector)) {
        print!(rt; ", sector {sector}")?;
    }
    println!(rt; "")
}

// Pairs that are refused.
fn show_pairs(rt: &HostRuntime, pile: &mut Pile) -> io::Result<()> {
    let before_the_end = Pair {
        offset: 12,
        length: 2,
    };
    tell_pair(rt, pile, before_the_end)?;
    let past_the_queue = Pair {
        offset: 13,
        length: 4,
    };
    tell_pair(rt, pile, past_the_queue)?;
    let no_sector = Pair {
        offset: 13,
        length: 0,
    };
    tell_pair(rt, pile, no_sector)
}

// Two writes that wait.
const WAITING: [Call; 2] = [
    Call::Write {
        sector: 2,
        byte: 0xA1,
    },
    Call::Write {
        sector: 4,
        byte: 0xB1,
    },
];

// A third write, for which the oldest lands.
const ONE_MORE: [Call; 1] = [Call::Write {
    sector: 6,
    byte: 0xC1,
}];

// Calls that are refused, reads and a settle.
const SETTLED: [Call; 5] = [
    Call::Write {
        sector: 1,
        byte: 0xD1,
    },
    Call::Write {
        sector: 7,
        byte: 0xE1,
    },
    Call::Read { sector: 6 },
    Call::Read { sector: 7 },
    Call::Settle,
];

// What the demonstration counted: the tally before it, the writes and settles that were accepted, and the tally after it.
#[derive(Clone, Copy, PartialEq, Eq, Debug)]
pub struct Counted {
    pub before: u64,
    pub accepted: u64,
    pub after: u64,
}

// Makes calls of the pile, tells what waits after some of them, and counts those that are accepted.
fn show_all(rt: &HostRuntime, pile: &mut Pile) -> io::Result<Counted>
    ensures { IfOk result (λ n. n.after ≡ (n.before + n.accepted) % 2 ^ 64) }
{
    let before = pile.tally();
    let waiting = tell_calls(rt, pile, &WAITING)?;
    tell_waiting(rt, pile)?;
    let one_more = tell_calls(rt, pile, &ONE_MORE)?;
    tell_waiting(rt, pile)?;
    let settled = tell_calls(rt, pile, &SETTLED)?;
    tell_waiting(rt, pile)?;
    let accepted = waiting.wrapping_add(one_more).wrapping_add(settled);
    let after = pile.tally();
    Ok(Counted {
        before,
        accepted,
        after,
    })
}

// Shows the pile at work. The tally counts each write and each settle that is accepted, and nothing else.
pub fn show_pile(rt: &HostRuntime) -> Result<Counted, Fault>
    ensures { IfOk result (λ n. n.after ≡ (n.before + n.accepted) % 2 ^ 64) }
{
    let mut pile = build(rt.alloc())?;
    println!(rt;
        "A gather layer (sectors 2 to 5 and 10 to 12) over a guard layer (no writes in 0 to 3) over a queue (16 sectors, 2 slots):"
    )?;
    println!(rt; "sectors of the pile: {}", pile.count())?;
    show_pairs(rt, &mut pile)?;
    let counted = show_all(rt, &mut pile)?;
    let Counted {
        accepted,
        after,
        ..
    } = counted;
    println!(rt; "writes and settles accepted: {accepted}; tally: {after}")?;
    Ok(counted)
}
