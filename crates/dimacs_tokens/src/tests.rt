use crate::bytes::{is_newline, is_white};
use crate::{Numeral, Seen, laws};

fn seen_of(token: &[u8]) -> Seen {
    let mut seen = Seen::make();
    for byte in token {
        seen.push(*byte);
    }
    seen
}

fn value_of(token: &[u8]) -> Option<i64> {
    seen_of(token).number().value()
}

#[test]
fn numbers_have_digits_and_at_most_one_minus(rt: HostRuntime) {
    assert_eq!(rt; value_of(b"0"), Some(0));
    assert_eq!(rt; value_of(b"007"), Some(7));
    assert_eq!(rt; value_of(b"-42"), Some(-42));
    for token in [
        b"".as_slice(),
        b"-",
        b"-0",
        b"-00",
        b"+1",
        b"1x",
        b"--1",
        b"1-",
        b"x",
        b"1.0",
    ] {
        assert_eq!(rt; value_of(token), None, "at {token:?}");
    }
}

#[test]
fn long_numbers_are_capped(rt: HostRuntime) {
    assert_eq!(rt; value_of(b"4294967294"), Some(4294967294));
    assert_eq!(rt; value_of(b"4294967295"), Some(4294967295));
    assert_eq!(rt;
        value_of(b"123456789012345678901234567890"),
        Some(4294967295)
    );
    assert_eq!(rt;
        value_of(b"-123456789012345678901234567890"),
        Some(-4294967295)
    );
    assert_eq!(rt; value_of(b"000000000000000000000000000001"), Some(1));
}

#[test]
fn five_bytes_are_white(rt: HostRuntime) {
    for byte in 0..=255u8 {
        let white = matches!(byte, 9 | 11 | 12 | 13 | 32);
        assert_eq!(rt; is_white(byte), white, "at {byte}");
        assert_eq!(rt; is_newline(byte), byte == 10, "at {byte}");
    }
}

#[test]
fn a_word_is_told_from_longer_ones(rt: HostRuntime) {
    assert!(rt; seen_of(b"cnf").is_word(b"cnf"));
    assert!(rt; !seen_of(b"cnfs").is_word(b"cnf"));
    assert!(rt; !seen_of(b"cn").is_word(b"cnf"));
    assert!(rt; !seen_of(b"seventh-and-more").is_word(b"seventh"));
    let mut seen = seen_of(b"p");
    seen.begin();
    assert!(rt; seen.is_empty());
    assert_eq!(rt; seen.number(), Numeral::Nothing);
}

#[test]
fn the_laws_are_called(rt: HostRuntime) {
    laws::ended_lines_are_lines();
    laws::only_tokens_are_cut();
    laws::no_byte_is_lost();
    laws::joined_tokens_are_cut();
    laws::written_numbers_have_their_value();
    laws::leading_zeros_change_nothing();
    laws::words_are_told_by_head();
    assert!(rt; Seen::make().is_empty());
}

#[test]
fn a_token_begins_with_its_first_byte(rt: HostRuntime) {
    assert!(rt; seen_of(b"%junk").begins_with(b'%'));
    assert!(rt; !seen_of(b"junk%").begins_with(b'%'));
    assert!(rt; !seen_of(b"").begins_with(0));
}
