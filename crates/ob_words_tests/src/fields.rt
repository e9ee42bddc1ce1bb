//! Tests of names, numbers and keywords as texts.
use ob_net::Pos::{Closed, Opened};
use ob_net::{
    Crew, Name, Pos, Ref, Second, read_act, read_cause, read_feeder, read_normal, read_number,
    read_serial, read_unix_second, read_until,
};

// Names, and texts that are none behind a tilde, between bars.
const NAMES: &'static str = "\
A|T1-2_Z|ABCDEFGHIJKLMNOPQRSTUVWX|0123456789-_AZ\
|~|~ABCDEFGHIJKLMNOPQRSTUVWXY|~a|~Tz|~ T1|~T 1|~T/|~T:|~T@|~T[|~T.1|~T\u{C4}";

#[test]
fn identifiers(rt: HostRuntime) {
    for text in NAMES.split('|') {
        let (bytes, is_name) = match text.strip_prefix('~') {
            Some(text) => (text.as_bytes(), false),
            None => (text.as_bytes(), true),
        };
        match Name::read(bytes) {
            Some(name) => assert!(rt; is_name && name.bytes() == bytes, "{text}"),
            None => assert!(rt; !is_name, "{text}"),
        }
    }
    let long = [b'R'; 41];
    assert!(rt; Ref::read(&long[..40]).is_some() && Ref::read(&long).is_none());
    assert!(rt; Crew::read(&long[..16]).is_some() && Crew::read(&long[..17]).is_none());
}

// A text, and its expected value as a cause, as a feeder, as a serial number and as a second.
type NumberRow = (
    &'static [u8],
    Option<u8>,
    Option<u8>,
    Option<u32>,
    Option<Second>,
);

const MOST: u32 = 4_294_967_295;

const NUMBERS: &'static [NumberRow] = &[
    (b"", None, None, None, None),
    (b"0", None, None, None, Some(0)),
    (b"1", Some(1), Some(1), Some(1), Some(1)),
    (b"07", Some(7), Some(7), Some(7), Some(7)),
    (b"007", None, Some(7), Some(7), Some(7)),
    (b"63", Some(63), Some(63), Some(63), Some(63)),
    (b"64", None, Some(64), Some(64), Some(64)),
    (b"255", None, Some(255), Some(255), Some(255)),
    (b"256", None, None, Some(256), Some(256)),
    (b"0000000009", None, None, Some(9), Some(9)),
    (b"4294967295", None, None, Some(MOST), Some(4_294_967_295)),
    (b"4294967296", None, None, None, Some(4_294_967_296)),
    (b"99999999999", None, None, None, Some(99_999_999_999)),
    (b"000000000001", None, None, None, None),
    (b"100000000000", None, None, None, None),
    (b"+1", None, None, None, None),
    (b"1 ", None, None, None, None),
];

#[test]
fn numbers(rt: HostRuntime) {
    for (text, cause, feeder, serial, second) in NUMBERS {
        assert!(rt; read_cause(text) == *cause && read_feeder(text) == *feeder);
        assert!(rt; read_serial(text) == *serial && read_unix_second(text) == *second);
    }
}

// Numbers from 5 to 9 with at most four digits, and ends of service.
#[test]
fn numbers_in_a_range_and_ends(rt: HostRuntime) {
    assert!(rt; read_number(b"0004", 4, 5, 9) == None && read_number(b"0010", 4, 5, 9) == None);
    assert!(rt; read_number(b"0005", 4, 5, 9) == Some(5));
    assert!(rt; read_number(b"0009", 4, 5, 9) == Some(9));
    assert!(rt; read_number(b"00009", 4, 5, 9) == None);
    assert!(rt; read_until(b"", None) == Some(None) && read_until(b"", Some(5)) == Some(None));
    assert!(rt; read_until(b"12", Some(12)) == Some(Some(12)));
    assert!(rt; read_until(b"x", None) == None);
}

// A text, and the position that it names in a switching and as a normal position.
const POSITIONS: &'static [(&'static [u8], Option<Pos>, Option<Pos>)] = &[
    (b"open", Some(Opened), Some(Opened)),
    (b"close", Some(Closed), None),
    (b"closed", None, Some(Closed)),
    (b"Open", None, None),
    (b"opened", None, None),
    (b"", None, None),
];

#[test]
fn words_of_positions(rt: HostRuntime) {
    for (text, act, normal) in POSITIONS {
        assert!(rt; read_act(text) == *act && read_normal(text) == *normal);
    }
}
