// What follows a packet's header.
use packets::packet::Follows;
use packets::reading::read_packet;
use std::test::Fail;

// 24 bytes of options and addresses, UDP, 12 bytes after the header, and three bytes more.
const PACKET: [u8; 39] = [
    0x46, 0, 0, 36, 0, 0, 0x40, 0, 64, 17, 0, 0, 10, 1, 2, 3, 192, 0, 2, 9, 1, 1, 1, 1, 0x9C, 0x40,
    0x13, 0x8C, 0, 12, 0, 0, 5, 6, 7, 8, 99, 99, 99,
];

#[test]
fn borrowed(rt: HostRuntime) -> Result<(), Fail> {
    let packet = read_packet(&PACKET)?;
    assert_eq!(rt; packet.header.addresses.source, 0x0A01_0203);
    assert_eq!(rt; packet.header.addresses.destination, 0xC000_0209);
    assert_eq!(rt; packet.header.ports.source, 40000);
    assert_eq!(rt; packet.header.ports.destination, 5004);
    assert_eq!(rt; packet.header.protocol, 17);
    assert_eq!(rt; packet.rest.follows, Follows::Udp);
    assert_eq!(rt; packet.rest.place, 24);
    assert_eq!(rt; packet.rest.part, &PACKET[24..36]);
    Ok(())
}
