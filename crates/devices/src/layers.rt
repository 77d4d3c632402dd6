// Pairs and piles.
use crate::made::{first_byte, full, image, queue, with_pairs, write};
use device::fault::{self, DeviceFault, Origin, Reason};
use device::interface::Device;
use device::through::write_through;
use gather::gather::Gather;
use guard::guard::Guard;
use layer::kind::Kind;
use layer::layer::Layer;
use media::image::Image;
use pairs::pair::Pair;
use pairs::table::Pairs;
use queue::queue::Queue;
use std::alloc::Global;
use std::test::Fail;

// A pair offered over a device of 20 sectors, the refusal's number if it is refused, and the sectors of the layer after it.
struct Offer {
    offset: u32,
    length: u32,
    number: Option<u8>,
    count: u32,
}

const OFFERS: [Offer; 12] = [
    Offer {
        offset: 2,
        length: 0,
        number: Some(34),
        count: 0,
    },
    Offer {
        offset: 2,
        length: 2,
        number: None,
        count: 2,
    },
    Offer {
        offset: 3,
        length: 1,
        number: Some(33),
        count: 2,
    },
    Offer {
        offset: 3,
        length: 0,
        number: Some(34),
        count: 2,
    },
    Offer {
        offset: 4,
        length: 1,
        number: None,
        count: 3,
    },
    Offer {
        offset: 19,
        length: 2,
        number: Some(30),
        count: 3,
    },
    Offer {
        offset: 4,
        length: 40,
        number: Some(33),
        count: 3,
    },
    Offer {
        offset: 0xFFFF_FFFF,
        length: 0xFFFF_FFFF,
        number: Some(30),
        count: 3,
    },
    Offer {
        offset: 10,
        length: 4,
        number: None,
        count: 7,
    },
    Offer {
        offset: 20,
        length: 1,
        number: Some(30),
        count: 7,
    },
    Offer {
        offset: 19,
        length: 1,
        number: None,
        count: 8,
    },
    Offer {
        offset: 20,
        length: 0,
        number: Some(34),
        count: 8,
    },
];

// Offers a layer a pair, and answers the refusal's number, if it is refused.
fn offer_to<K: Kind, D: Device>(layer: &mut Layer<K, D>, offset: u32, length: u32) -> Option<u8> {
    let answer = layer.add(Pair { offset, length });
    answer.err().map(|fault| fault.number())
}

#[test]
fn offers(rt: HostRuntime) -> Result<(), Fail> {
    let mut layer = Gather::over(image(rt.alloc(), 20)?);
    for offered in &OFFERS {
        let number = offer_to(&mut layer, offered.offset, offered.length);
        assert_eq!(rt; (number, layer.count()), (offered.number, offered.count));
    }
    Ok(())
}

#[test]
fn a_ninth_pair(rt: HostRuntime) -> Result<(), Fail> {
    let mut layer = Guard::over(image(rt.alloc(), 20)?);
    for offset in 0..8u32 {
        assert_eq!(rt; offer_to(&mut layer, offset, 1), None);
    }
    assert_eq!(rt; offer_to(&mut layer, 8, 1), Some(34));
    assert_eq!(rt; offer_to(&mut layer, 0, 1), Some(34));
    assert_eq!(rt; layer.takes_writes(7), false);
    assert_eq!(rt; layer.takes_writes(8), true);
    Ok(())
}

// Where a refusal of a pile arose.
fn refusal(reason: Reason, layer: fault::Layer, depth: u8, sector: u32) -> DeviceFault {
    let origin = Origin {
        layer,
        depth,
        sector,
    };
    DeviceFault { reason, origin }
}

// A queue of 30 sectors, with no writes in 5 to 7; of that the sectors 4 to 8 and 29; of these the first two and the last two.
fn pile_of_four(heap: Global) -> Result<Gather<Gather<Guard<Queue>>>, Fail> {
    let guarded: Guard<Queue> = with_pairs(queue(heap, 30, 2)?, &[(5, 2), (7, 1)])?;
    let six: Gather<Guard<Queue>> = with_pairs(guarded, &[(4, 3), (7, 2), (29, 1)])?;
    Ok(with_pairs(six, &[(0, 2), (4, 2)])?)
}

#[test]
fn a_pile_of_four(rt: HostRuntime) -> Result<(), Fail> {
    let mut pile = pile_of_four(rt.alloc())?;
    let full = full(9);
    let answers = [
        pile.write(0, &full),
        pile.write(1, &full),
        pile.write(2, &full),
        write_through(&mut pile, 3, &full),
        pile.write(4, &full),
    ];
    let expected = [
        Ok(()),
        Err(refusal(Reason::TakesNoWrites, fault::Layer::Guard, 2, 5)),
        Ok(()),
        Ok(()),
        Err(refusal(Reason::OffDevice, fault::Layer::Gather, 0, 4)),
    ];
    assert_eq!(rt; answers, expected);
    assert_eq!(rt;
        (pile.count(), pile.tally(), first_byte(&pile, 3)?),
        (4, 4, 9)
    );
    let queue = pile.into_below().into_below().into_below();
    let held = [
        first_byte(&queue, 4)?,
        first_byte(&queue, 5)?,
        first_byte(&queue, 8)?,
        first_byte(&queue, 29)?,
    ];
    assert_eq!(rt; (queue.waiting(), held), (0, [9, 0, 9, 9]));
    Ok(())
}

#[test]
fn guarded_sectors(rt: HostRuntime) -> Result<(), Fail> {
    let mut layer: Guard<Image> = with_pairs(image(rt.alloc(), 20)?, &[(3, 2), (5, 1), (19, 1)])?;
    for (sector, number) in (0u32..7).zip([None, None, None, Some(3), Some(3), Some(3), None]) {
        assert_eq!(rt; write(&mut layer, sector, 6), number);
    }
    let answers = [layer.write(19, &full(0)), layer.write(20, &full(0))];
    let expected = [
        Err(refusal(Reason::TakesNoWrites, fault::Layer::Guard, 0, 19)),
        Err(refusal(Reason::OffDevice, fault::Layer::Image, 1, 20)),
    ];
    assert_eq!(rt; answers, expected);
    assert_eq!(rt; layer.tally(), 4);
    Ok(())
}

#[test]
fn a_copy_of_pairs(rt: HostRuntime) -> Result<(), Fail> {
    let mut pairs = Pairs::none();
    pairs.add(
        Pair {
            offset: 3,
            length: 2,
        },
        20,
    )?;
    let copy = pairs.clone()?;
    assert_eq!(rt;
        (copy.place(0), copy.place(1), copy.place(2)),
        (Some(3), Some(4), None)
    );
    assert_eq!(rt; (copy.hold(4), copy.hold(5)), (true, false));
    Ok(())
}
