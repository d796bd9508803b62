//! Pieces and words of a value, and the small numbers that words spell.
use music_base::count_up_to;
use text_words::{around, cut_at, fixed, is_key, signed_within, split_declaration, split_word};

/// Words, and the count up to 65,535, the number within 65,535 of 0 and the millionths that each spells.
const NUMBERS: &[(&[u8], Option<u32>, Option<i64>, Option<i64>)] = &[
    (b"007", Some(7), Some(7), Some(7_000_000)),
    (b"65535", Some(65_535), Some(65_535), Some(65_535_000_000)),
    (b"65536", None, None, Some(65_536_000_000)),
    (b"-65535", None, Some(-65_535), Some(-65_535_000_000)),
    (b"+5", None, Some(5), None),
    (b"-0.5", None, None, Some(-500_000)),
    (
        b"999999999999.999999",
        None,
        None,
        Some(999_999_999_999_999_999),
    ),
    (b"0.0000001", None, None, None),
    (b"", None, None, None),
];

/// Texts, and what stands before the first `+` of each, and behind it where there is one.
const CUTS: &[(&[u8], &[u8], Option<&[u8]>)] = &[
    (b"2+3+4", b"2", Some(b"3+4")),
    (b"+", b"", Some(b"")),
    (b"23", b"23", None),
];

/// Texts, and the first part of each that has a word, with what stands behind it.
type Splits<'a> = &'a [(&'a [u8], Option<(&'a [u8], &'a [u8])>)];

const FIRST_WORDS: Splits<'static> = &[
    (b" \ta  bc ", Some((b"a", b" bc "))),
    (b"bc", Some((b"bc", b""))),
    (b" \t ", None),
    (b"", None),
];

const FIRST_PIECES: Splits<'static> = &[
    (b"; ;a b; c;", Some((b"a b", b" c;"))),
    (b" c", Some((b" c", b""))),
    (b" ;\t; ", None),
    (b"", None),
];

fn numbers_in(word: &[u8]) -> (Option<u32>, Option<i64>, Option<i64>) {
    (
        count_up_to(65_535, word),
        signed_within(65_535, word),
        fixed(word),
    )
}

fn is_cut(text: &[u8], before: &[u8], behind: Option<&[u8]>) -> bool {
    cut_at(b'+', text) == (before, behind) && around(b'+', text) == (before, behind.unwrap_or(&[]))
}

#[test]
fn numbers_are_read(rt: HostRuntime) {
    for (word, count, signed, millionths) in NUMBERS {
        assert!(rt;
            numbers_in(word) == (*count, *signed, *millionths),
            "{word:?}"
        );
    }
}

#[test]
fn texts_are_cut_at_the_first_byte(rt: HostRuntime) {
    for (text, before, behind) in CUTS {
        assert!(rt; is_cut(text, before, *behind), "{text:?}");
    }
}

#[test]
fn a_key_is_the_whole_word(rt: HostRuntime) {
    assert!(rt; is_key(b"hold", b"hold"));
    assert!(rt; !is_key(b"hol", b"hold"));
}

#[test]
fn blanks_part_words(rt: HostRuntime) {
    for (text, split) in FIRST_WORDS {
        assert!(rt; split_word(text) == *split, "{text:?}");
    }
}

#[test]
fn semicolons_part_declarations(rt: HostRuntime) {
    for (text, split) in FIRST_PIECES {
        assert!(rt; split_declaration(text) == *split, "{text:?}");
    }
}
