// How far a list is read whose tags end it, which no clause says, and what its tags are and count.
use super::records::{Records, Tag, Taped};
use super::words::Plain;

// A record with a tape of one word, a record without a tape, and the tag 0.
const LIST: &[u8] = b"\x01\0\0\0\0\0\0\0\x05\0\0\0\0\0\0\0\x01\0\0\0\0\0\0\0tape.\0\0\0\
    \x02\0\0\0\0\0\0\0\0\0\0\0\0\0\0\0\0\0\0\0\0\0\0\0\
    \0\0\0\0\0\0\0\0";

// The same with the tag 3, which is none, in the second record.
const OTHER_TAG: &[u8] = b"\x01\0\0\0\0\0\0\0\x05\0\0\0\0\0\0\0\x01\0\0\0\0\0\0\0tape.\0\0\0\
    \x03\0\0\0\0\0\0\0\0\0\0\0\0\0\0\0\0\0\0\0\0\0\0\0\
    \0\0\0\0\0\0\0\0";

#[test]
fn reads_a_list_to_its_end(rt: HostRuntime) {
    let mut records = Records::<Taped>::new(LIST);
    assert!(rt;
        matches!(records.next(), Some((Taped::Exact, words)) if words.bytes == &LIST[8..32])
    );
    assert!(rt;
        matches!(records.next(), Some((Taped::Angled, words)) if words.bytes == &LIST[40..56])
    );
    assert!(rt; records.is_at_end());
    assert!(rt; records.next().is_none());
    assert!(rt; records.is_at_end());
}

#[test]
fn ends_at_what_is_no_tag(rt: HostRuntime) {
    let mut records = Records::<Taped>::new(OTHER_TAG);
    assert!(rt; records.next().is_some());
    assert!(rt; records.next().is_none());
    assert!(rt; !records.is_at_end());
}

#[test]
fn counts_any_words(rt: HostRuntime) {
    assert!(rt; Taped::of(2) == Some(Taped::Angled));
    let many = b"\0\0\0\0\0\0\0\0\0\0\x01\0\0\0\0\0";
    assert_eq!(rt; Taped::Exact.length(Plain { bytes: many }), Some(0x1_0002));
    let too_many = b"\0\0\0\0\0\0\0\0\xff\xff\xff\xff\xff\xff\xff\xff";
    assert_eq!(rt; Taped::Exact.length(Plain { bytes: too_many }), None);
    assert_eq!(rt;
        Taped::Exact.length(Plain {
            bytes: b"\0\0\0\0\0\0\0\0"
        }),
        None
    );
}
