// What the server answers to frames, run over the packed tables.
use crate::serving::{fault, met, serve};
use frame::Cause;
use wire::Code;

#[test]
fn frames_that_are_not_taken_up(rt: HostRuntime) {
    let whole = b"500000FF03FF000018001004010000D*0000020001";
    let mut short = [0xEEu8; 4095];
    let answer = serve(Code::Ascii, whole, &mut short);
    assert_eq!(rt; answer.fault, fault(Cause::NoReplySpace, 0));
    assert!(rt; answer.taken == 0 && answer.length == 0);
    assert!(rt; short[0] == 0xEE && short[4094] == 0xEE);
    assert_eq!(rt;
        met(Code::Binary, b"\x50\x00\x00"),
        fault(Cause::Incomplete, 3)
    );
    assert_eq!(rt; met(Code::Ascii, b"500"), fault(Cause::Incomplete, 3));
    assert_eq!(rt;
        met(Code::Binary, b"\x51\x00"),
        fault(Cause::BadSubheader, 0)
    );
    assert_eq!(rt;
        met(Code::Ascii, b"500G00FF03FF00"),
        fault(Cause::BadSubheader, 0)
    );
    assert_eq!(rt;
        met(Code::Ascii, b"50000GFF03FF000018"),
        fault(Cause::BadDigit, 5)
    );
    assert_eq!(rt;
        met(Code::Ascii, b"500000FF03FF00001a"),
        fault(Cause::BadDigit, 17)
    );
    assert_eq!(rt;
        met(
            Code::Binary,
            b"\x54\x00\x34\x12\x01\x00\x00\xFF\xFF\x03\x00\x05\x00",
        ),
        fault(Cause::NonZero, 4)
    );
    assert_eq!(rt;
        met(Code::Binary, b"\x50\x00\x00\xFF\xFF\x03\x00\x05\x00"),
        fault(Cause::BadLength, 7)
    );
    assert_eq!(rt;
        met(Code::Binary, b"\x50\x00\x00\xFF\xFF\x03\x00\x01\x20"),
        fault(Cause::BadLength, 7)
    );
    assert_eq!(rt;
        met(Code::Binary, b"\x50\x00\x00\xFF\xFF\x03\x00\x06\x00\x10"),
        fault(Cause::Incomplete, 10)
    );
    assert_eq!(rt;
        met(Code::Ascii, b"500000FF03FF00000C001 04010000"),
        fault(Cause::BadDigit, 21)
    );
}

#[test]
fn requests_that_are_refused(rt: HostRuntime) {
    assert_eq!(rt;
        met(Code::Ascii, b"500000FF03FF00000C001009990000"),
        fault(Cause::UnknownCommand, 22)
    );
    assert_eq!(rt;
        met(Code::Ascii, b"500000FF03FF00000C001004010000"),
        fault(Cause::BadSize, 30)
    );
    assert_eq!(rt;
        met(Code::Ascii, b"500000FF03FF000018001004010000Q*0000020001"),
        fault(Cause::UnknownDevice, 30)
    );
    assert_eq!(rt;
        met(Code::Ascii, b"500000FF03FF000018001004010000D 0000020001"),
        fault(Cause::UnknownDevice, 30)
    );
    assert_eq!(rt;
        met(Code::Ascii, b"500000FF03FF000018001004010000D*00000A0001"),
        fault(Cause::DataDigit, 37)
    );
    assert_eq!(rt;
        met(Code::Ascii, b"500000FF03FF000018001004010000D*     20001"),
        fault(Cause::DataDigit, 32)
    );
    assert_eq!(rt;
        met(Code::Ascii, b"500000FF03FF000018001004010001D*0000020001"),
        fault(Cause::WrongKind, 30)
    );
    assert_eq!(rt;
        met(Code::Ascii, b"500000FF03FF000018001004010000D*0000020000"),
        fault(Cause::WordCount, 38)
    );
    assert_eq!(rt;
        met(Code::Ascii, b"500000FF03FF000018001004010000D*00000203C1"),
        fault(Cause::WordCount, 38)
    );
    assert_eq!(rt;
        met(Code::Ascii, b"500000FF03FF000018001004010001M*0000020E01"),
        fault(Cause::BitCount, 38)
    );
    assert_eq!(rt;
        met(Code::Ascii, b"500000FF03FF000018001004010000D*0000310002"),
        fault(Cause::OutsideExtent, 30)
    );
    assert_eq!(rt;
        met(Code::Ascii, b"500000FF03FF00001A001004010000D*000002000100"),
        fault(Cause::BadSize, 42)
    );
}

#[test]
fn replies_and_the_space_behind_them(rt: HostRuntime) {
    let mut reply = [0xEEu8; 4096];
    let answer = serve(
        Code::Ascii,
        b"500000FF03FF000018001004010000D*00000200015000",
        &mut reply,
    );
    assert_eq!(rt; answer.fault, None);
    assert!(rt; answer.taken == 42 && answer.length == 26);
    assert!(rt; reply[0..26] == b"D00000FF03FF00000800001234"[..]);
    assert!(rt; reply[26] == 0xEE && reply[4095] == 0xEE);
    let refused = serve(
        Code::Binary,
        b"\x54\x00\x34\x12\x00\x00\x01\xFE\xFF\x03\x02\x06\x00\x10\x00\x99\x09\x00\x00",
        &mut reply,
    );
    assert!(rt; refused.taken == 19 && refused.length == 24);
    assert!(rt;
        reply[0..24]
            == b"\xD4\x00\x34\x12\x00\x00\x01\xFE\xFF\x03\x02\x0B\x00\x59\xC0\x01\xFE\xFF\x03\x02\x99\x09\x00\x00"[..]
    );
    assert!(rt; reply[24] == b'3' && reply[26] == 0xEE);
}

#[test]
fn hexadecimal_numbers_and_bit_words(rt: HostRuntime) {
    let mut reply = [0xEEu8; 4096];
    let w = serve(
        Code::Ascii,
        b"500000FF03FF000018001004010000W*00001F0001",
        &mut reply,
    );
    assert!(rt; w.length == 26 && reply[22..26] == b"0007"[..]);
    let m = serve(
        Code::Binary,
        b"\x50\x00\x00\xFF\xFF\x03\x00\x0C\x00\x10\x00\x01\x04\x00\x00\x00\x00\x00\x90\x02\x00",
        &mut reply,
    );
    assert!(rt; m.length == 15 && reply[11..15] == b"\x09\x00\x00\x00"[..]);
}
