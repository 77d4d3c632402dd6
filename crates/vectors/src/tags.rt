// The example's tag, whole and damaged.
use descriptor::decode::decode;
use descriptor::kinds::{Place, Sector};
use examples::terminating_example;
use octets::fields::put_u16;
use sample::damage::{mend_sum, turn_bit};

// The number of the refusal of a sector, if it is refused.
pub fn refusal(sector: &Sector, number: u32, place: Place) -> Option<u8> {
    let refused = decode(sector, number, place).err();
    refused.map(|refusal| refusal.number())
}

// The example with the lowest bit of one byte turned, and its sum made right again or not.
fn turned(at: usize, mended: bool) -> Option<u8> {
    let mut sector = terminating_example();
    turn_bit(&mut sector, at);
    if mended {
        mend_sum(&mut sector);
    }
    refusal(&sector, 37, Place::Sequence)
}

// The example with another number of 16 bits at an offset, and its sum made right.
fn changed(at: usize, value: u16) -> Option<u8> {
    let mut sector = terminating_example();
    put_u16(&mut sector, at, value);
    mend_sum(&mut sector);
    refusal(&sector, 37, Place::Sequence)
}

#[test]
fn places(rt: HostRuntime) {
    let sector = terminating_example();
    assert_eq!(rt; refusal(&sector, 37, Place::Sequence), None);
    assert_eq!(rt; refusal(&sector, 37, Place::IntegrityExtent), None);
    assert_eq!(rt; refusal(&sector, 37, Place::Anchor), Some(13));
    assert_eq!(rt; refusal(&sector, 53, Place::Sequence), Some(11));
    assert_eq!(rt; refusal(&sector, 53, Place::Anchor), Some(11));
}

// Each row: the byte of which a bit is turned, the refusal as it stands, and the refusal once the sum is right again.
const TURNED: [(usize, Option<u8>, Option<u8>); 14] = [
    (0, Some(10), Some(13)),
    (1, Some(10), Some(13)),
    (2, Some(10), Some(10)),
    (3, Some(10), Some(10)),
    (4, Some(10), None),
    (5, Some(10), Some(10)),
    (6, Some(10), None),
    (8, Some(10), Some(12)),
    (10, Some(10), None),
    (11, Some(10), None),
    (12, Some(10), Some(11)),
    (15, Some(10), Some(11)),
    (16, Some(12), Some(12)),
    (511, Some(12), Some(12)),
];

#[test]
fn turned_bits(rt: HostRuntime) {
    for (at, plain, mended) in TURNED {
        assert_eq!(rt; turned(at, false), plain);
        assert_eq!(rt; turned(at, true), mended);
    }
    assert_eq!(rt; turned(512, false), None, "past what the CRC covers");
}

#[test]
fn versions_and_lengths(rt: HostRuntime) {
    assert_eq!(rt; changed(2, 2), Some(10), "version 2");
    assert_eq!(rt; changed(2, 3), None, "version 3");
    assert_eq!(rt; changed(10, 2032), None, "all that follows the tag");
    assert_eq!(rt; changed(10, 2033), Some(12), "one byte too many");
    assert_eq!(rt; changed(10, 0), None, "no byte covered");
    assert_eq!(rt; changed(0, 3), Some(13), "a kind that we do not read");
    assert_eq!(rt;
        changed(0, 9),
        Some(13),
        "an integrity descriptor in a sequence"
    );
}
