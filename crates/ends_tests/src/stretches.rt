// Rows of ASCII, of the patterns that CommonMark 0.31.2 gives in words or as expressions, and of Liquid's names.
use site_text::{
    Class, begins, begins_in_lower_case, byte_at, class_len, class_run, is_alnum, is_letter,
    is_name_start, is_one_of, is_punctuation, is_space, is_white, lower, number, starts_with_byte,
};

fn has_run(class: Class, text: &str, len: usize) -> bool {
    class_run(class, text.as_bytes()) == len && class_len(class, text) == len
}

#[test]
fn white_space(rt: HostRuntime) {
    const ROWS: &[(Class, &str, usize)] = &[
        (Class::Space, " \t \n", 3),
        (Class::Space, "\u{a0}", 0),
        (Class::Space, "", 0),
        (Class::NoWhite, "caf\u{e9} x", 5),
        (Class::NoWhite, "a\rb", 1),
        (Class::NoWhite, "a\u{b}", 2),
    ];
    for (class, text, len) in ROWS {
        assert!(rt; has_run(*class, text, *len), "{text}");
    }
}

#[test]
fn letters_and_digits(rt: HostRuntime) {
    const ROWS: &[(Class, &str, usize)] = &[
        (Class::Digit, "0129/", 4),
        (Class::Digit, "9:", 1),
        (Class::Digit, "\u{661}", 0),
        (Class::HexDigit, "09afAFg", 6),
        (Class::HexDigit, "G", 0),
        (Class::Alphanumeric, "azAZ09_", 6),
        (Class::Alphanumeric, "\u{e9}", 0),
    ];
    for (class, text, len) in ROWS {
        assert!(rt; has_run(*class, text, *len), "{text}");
    }
}

#[test]
fn names(rt: HostRuntime) {
    const ROWS: &[(Class, &str, usize)] = &[
        (Class::Hyphenated, "my-tag3_", 7),
        (Class::Name, "my_var-2.first", 8),
        (Class::Name, "\u{e9}", 0),
        (Class::AttributeName, "xml:a_b.c-1=", 11),
        (Class::AttributeName, "a\"", 1),
    ];
    for (class, text, len) in ROWS {
        assert!(rt; has_run(*class, text, *len), "{text}");
    }
}

#[test]
fn values_of_attributes(rt: HostRuntime) {
    const ROWS: &[(Class, &str, usize)] = &[
        (Class::Unquoted, "a/b>", 3),
        (Class::Unquoted, "\u{e9}=", 2),
        (Class::Unquoted, "a`", 1),
        (Class::NoSingleQuote, "a\"\n'", 3),
        (Class::NoDoubleQuote, "a'\u{e9}\"", 4),
    ];
    for (class, text, len) in ROWS {
        assert!(rt; has_run(*class, text, *len), "{text}");
    }
}

#[test]
fn autolinks(rt: HostRuntime) {
    const ROWS: &[(Class, &str, usize)] = &[
        (Class::Scheme, "made-up+1.x:", 11),
        (Class::Scheme, "a_b", 1),
        (Class::Address, "foo.bar?q=[1]>", 13),
        (Class::Address, "a b", 1),
        (Class::Address, "a\u{7f}", 1),
        (Class::Mailbox, "foo.!#$%&'*+/=?^_`{|}~-@", 23),
        (Class::Mailbox, "a\\", 1),
    ];
    for (class, text, len) in ROWS {
        assert!(rt; has_run(*class, text, *len), "{text}");
    }
}

#[test]
fn text_of_markdown(rt: HostRuntime) {
    const ROWS: &[(Class, &str, usize)] = &[
        (Class::Literal, "a*b\\", 3),
        (Class::Literal, "a&amp;", 1),
        (Class::Textual, "a.b c", 3),
        (Class::Textual, "\u{e9}*", 2),
        (Class::Textual, "a\n", 1),
        (Class::Plain, "a.b c!", 5),
        (Class::Plain, " \n", 1),
    ];
    for (class, text, len) in ROWS {
        assert!(rt; has_run(*class, text, *len), "{text}");
    }
}

fn begins_as_said(text: &str, word: &str, is_front: bool, is_front_in_lower_case: bool) -> bool {
    begins(text.as_bytes(), word.as_bytes()) == is_front
        && begins_in_lower_case(text.as_bytes(), word.as_bytes()) == is_front_in_lower_case
}

#[test]
fn words_at_the_front(rt: HostRuntime) {
    const ROWS: &[(&str, &str, bool, bool)] = &[
        ("<!-- a", "<!--", true, true),
        ("<!-", "<!--", false, false),
        ("</PRE>", "</pre>", false, true),
        ("</pre>", "</pre>", true, true),
        ("</prE", "</pre>", false, false),
        ("a", "", true, true),
        ("", "a", false, false),
    ];
    for (text, word, is_front, in_lower_case) in ROWS {
        assert!(rt;
            begins_as_said(text, word, *is_front, *in_lower_case),
            "{text}"
        );
    }
}

fn starts_with_colon(text: &str, is_first: bool) -> bool {
    starts_with_byte(text, b':') == is_first
}

#[test]
fn first_bytes(rt: HostRuntime) {
    const ROWS: &[(&str, bool)] = &[(":", true), (": a", true), ("a:", false), ("", false)];
    for (text, is_first) in ROWS {
        assert!(rt; starts_with_colon(text, *is_first), "{text}");
    }
}

#[test]
fn bytes_at_places(rt: HostRuntime) {
    const ROWS: &[(&str, usize, u8)] = &[
        ("ab", 0, b'a'),
        ("ab", 1, b'b'),
        ("ab", 2, 0),
        ("", 7, 0),
        ("\u{e9}", 1, 0xa9),
    ];
    for (text, place, byte) in ROWS {
        assert!(rt; byte_at(text, *place) == *byte, "{text}");
    }
}

fn spells(base: u64, digits: &str, value: u64) -> bool {
    let digits = digits.as_bytes();
    2 <= base && base <= 16 && digits.len() <= 10 && number(base, digits) == value
}

#[test]
fn numbers(rt: HostRuntime) {
    const ROWS: &[(u64, &str, u64)] = &[
        (10, "35", 35),
        (10, "1234", 1_234),
        (10, "0000000", 0),
        (16, "22", 34),
        (16, "D06", 3_334),
        (16, "cab", 3_243),
        (10, "9999999999", 9_999_999_999),
        (16, "ffffffffff", 1_099_511_627_775),
        (10, "", 0),
    ];
    for (base, digits, value) in ROWS {
        assert!(rt; spells(*base, digits, *value), "{digits}");
    }
}

// Letter, letter or digit, start of a name, punctuation, space, white space.
fn is_of_kinds(c: u8, kinds: [bool; 6]) -> bool {
    kinds
        == [
            is_letter(c),
            is_alnum(c),
            is_name_start(c),
            is_punctuation(c),
            is_space(c),
            is_white(c),
        ]
}

#[test]
fn single_bytes(rt: HostRuntime) {
    assert!(rt; is_of_kinds(b'a', [true, true, true, false, false, false]));
    assert!(rt; is_of_kinds(b'7', [false, true, false, false, false, false]));
    assert!(rt; is_of_kinds(b'_', [false, false, true, true, false, false]));
    assert!(rt; is_of_kinds(b'\t', [false, false, false, false, true, true]));
    assert!(rt; is_of_kinds(b'\n', [false, false, false, false, false, true]));
    assert!(rt; is_of_kinds(b'@', [false, false, false, true, false, false]));
    assert!(rt; is_of_kinds(0xc3, [false; 6]));
}

#[test]
fn lower_case(rt: HostRuntime) {
    assert!(rt;
        lower(b'A') == b'a' && lower(b'Z') == b'z' && lower(b'[') == b'[' && lower(b'@') == b'@'
    );
    assert!(rt; is_one_of(b"_:", b':') && !is_one_of(b"_:", b'a') && !is_one_of(b"", b'a'));
}
