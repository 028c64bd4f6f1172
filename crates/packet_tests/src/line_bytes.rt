// Output lines.
use fields::refusal::Refusal;
use lines::{write_header_line, write_refusal_line};
use std::process::Abort;
use std::test::Fail;

fn check_line(
    rt: &impl Abort,
    index: usize,
    rules: &[u8],
    hits: usize,
    line: &[u8],
) -> Result<(), Fail> {
    let mut out = [0xEE; 64];
    let count = write_header_line(index, rules, hits, &mut out)?;
    assert!(rt; count <= 64);
    assert_eq!(rt; &out[..count], line);
    assert!(rt; count < 64 && out[count] == 0xEE);
    let mut short = [0xEE; 64];
    assert!(rt; count > 0);
    let refusal = write_header_line(index, rules, hits, &mut short[..count - 1]).err();
    assert_eq!(rt; refusal.map(Refusal::number), Some(9));
    assert_eq!(rt; short, [0xEE; 64]);
    Ok(())
}

#[test]
fn headers(rt: HostRuntime) -> Result<(), Fail> {
    check_line(&rt, 0, &[1, 2, 3, 4], 4, b"0: 1 2 3 4 / 4\n")?;
    check_line(&rt, 7, &[], 0, b"7: - / 0\n")?;
    check_line(
        &rt,
        4095,
        &[0, 9, 10, 99, 100, 255],
        32,
        b"4095: 0 9 10 99 100 255 / 32\n",
    )
}

#[test]
fn refusals(rt: HostRuntime) {
    let mut out = [0xEE; 12];
    assert_eq!(rt; write_refusal_line(Refusal::ByteCount, &mut out), Ok(11));
    assert_eq!(rt; &out, b"refused 10\n\xEE");
    assert_eq!(rt;
        write_refusal_line(Refusal::NoRoom, &mut out[..9]),
        Err(Refusal::NoRoom)
    );
    assert_eq!(rt; &out, b"refused 10\n\xEE");
}
