// CRCs that were worked out elsewhere.
use octets::crc::crc_of;
use octets::fields::{byte_at, u32_at};

#[test]
fn known_crcs(rt: HostRuntime) {
    assert_eq!(rt; crc_of(b""), 0x0000, "no byte");
    assert_eq!(rt; crc_of(b"pjw"), 0x3299, "70 6A 77");
    assert_eq!(rt; crc_of(b"\x01"), 0x1021, "the generator itself");
    assert_eq!(rt;
        crc_of(b"\x80"),
        0x9188,
        "the most significant bit comes first"
    );
    assert_eq!(rt; crc_of(b"\x00\x00\x00"), 0x0000, "zeros");
    assert_eq!(rt; crc_of(b"123456789"), 0x31C3, "nine digits");
}

#[test]
fn past_the_end(rt: HostRuntime) {
    assert_eq!(rt; byte_at(b"ab", 2), 0);
    assert_eq!(rt; u32_at(b"\x01\x02\x03", 1), 0x0302);
    assert_eq!(rt; u32_at(b"\x01\x02\x03", usize::MAX), 0);
}
