// Torn sectors.
use descriptor::kinds::Sector;
use device::torn::is_torn;
use examples::terminating_example;
use octets::fields::put_u16;
use sample::damage::{mend_sum, turn_bit};

// The Terminating Descriptor of the examples with a number of 16 bits put at an offset, and its sum made right again.
fn with(at: usize, value: u16) -> Sector {
    let mut sector = terminating_example();
    put_u16(&mut sector, at, value);
    mend_sum(&mut sector);
    sector
}

#[test]
fn by_check(rt: HostRuntime) {
    assert_eq!(rt; is_torn(&terminating_example()), false);
    assert_eq!(rt; is_torn(&[0; 2048]), true, "version 0");
    assert_eq!(rt; is_torn(&with(2, 2)), false, "version 2");
    assert_eq!(rt; is_torn(&with(2, 4)), true, "version 4");
    assert_eq!(rt; is_torn(&with(6, 900)), false, "another serial");
    assert_eq!(rt; is_torn(&with(8, 1)), true, "another CRC");
    assert_eq!(rt; is_torn(&with(10, 2032)), false, "a CRC of all zeros");
    assert_eq!(rt; is_torn(&with(10, 2033)), true, "a CRC of too many bytes");
}

#[test]
fn by_bit(rt: HostRuntime) {
    for at in 0..16usize {
        let mut sector = terminating_example();
        turn_bit(&mut sector, at);
        assert_eq!(rt; is_torn(&sector), true, "a bit of the tag");
    }
    let mut behind = terminating_example();
    turn_bit(&mut behind, 600);
    assert_eq!(rt; is_torn(&behind), false, "a bit that no CRC covers");
}
