// Header blocks.
use blocks::{read_headers, write_headers};
use fields::refusal::Refusal;
use fields::sides::Sides;
use packets::header::Header;
use std::process::Abort;

const BLOCK: [u8; 32] = [
    10, 1, 2, 3, 192, 0, 2, 9, 0x9C, 0x40, 0x13, 0x8C, 17, 0, 0, 0, 255, 255, 255, 255, 0, 0, 0, 1,
    0, 1, 255, 255, 255, 0, 0, 0,
];

const NONE: Header = Header {
    addresses: Sides {
        source: 7,
        destination: 7,
    },
    ports: Sides {
        source: 7,
        destination: 7,
    },
    protocol: 7,
};

const FIRST: Header = Header {
    addresses: Sides {
        source: 0x0A01_0203,
        destination: 0xC000_0209,
    },
    ports: Sides {
        source: 40000,
        destination: 5004,
    },
    protocol: 17,
};

const SECOND: Header = Header {
    addresses: Sides {
        source: 0xFFFF_FFFF,
        destination: 1,
    },
    ports: Sides {
        source: 1,
        destination: 65535,
    },
    protocol: 255,
};

// The number that a read of one header is refused with. A refused read leaves the list as it was.
fn refused(rt: &impl Abort, bytes: &[u8]) -> Option<u8> {
    let mut list = [NONE; 1];
    let refusal = read_headers(bytes, &mut list).err()?;
    assert_eq!(rt; list[0], NONE);
    Some(refusal.number())
}

#[test]
fn read(rt: HostRuntime) {
    let mut list = [NONE; 3];
    assert_eq!(rt; read_headers(&BLOCK, &mut list), Ok(2));
    assert_eq!(rt; list, [FIRST, SECOND, NONE]);
}

#[test]
fn refusals(rt: HostRuntime) {
    assert_eq!(rt; refused(&rt, &BLOCK), Some(9));
    assert_eq!(rt; refused(&rt, &BLOCK[..16]), None);
    assert_eq!(rt; refused(&rt, &BLOCK[..15]), Some(23));
    assert_eq!(rt; refused(&rt, &BLOCK[..17]), Some(23));
    assert_eq!(rt; refused(&rt, &[]), None);
    for place in 13..16 {
        let mut spoiled = [0; 16];
        spoiled[place] = 1;
        assert_eq!(rt; refused(&rt, &spoiled), Some(23), "at {place}");
    }
}

#[test]
fn written(rt: HostRuntime) {
    let mut out = [0xEE; 32];
    assert_eq!(rt; write_headers(&[FIRST, SECOND], &mut out), Ok(32));
    assert_eq!(rt; out, BLOCK);
    let mut short = [0xEE; 31];
    let refusal = write_headers(&[FIRST, SECOND], &mut short).err();
    assert_eq!(rt; refusal.map(Refusal::number), Some(9));
    assert_eq!(rt; short, [0xEE; 31]);
}
