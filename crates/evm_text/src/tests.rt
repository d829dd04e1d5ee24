//! Each call, with values worked out by hand.

use super::*;
use std::test::Fail;

#[test]
fn cuts_a_text_and_reads_its_numbers(rt: HostRuntime) -> Result<(), Fail> {
    let (line, rest) = first_line(b"\t07  -1 \r\n#no\n").ok_or("line")?;
    assert_eq!(rt; rest, b"#no\n".as_slice());
    let line = without_cr(line);
    assert_eq!(rt; line, b"\t07  -1 ".as_slice());
    let (word, after) = first_word(line).ok_or("word")?;
    let words = words_of(rt.alloc(), after)?;
    assert_eq!(rt; words.len(), 1);
    assert!(rt; is_digit(b'0') && !is_comment(word));
    assert!(rt; is_comment(rest) && first_line(b"").is_none() && first_word(b" \t").is_none());
    let numbers: [(&[u8], Option<i64>); 8] = [
        (word, Some(7)),
        (words[0], Some(-1)),
        (b"-0", Some(0)),
        (b"-9999999999", Some(-NUM_MAX)),
        (b"00000000001", None),
        (b"-", None),
        (b"+1", None),
        (b"1-", None),
    ];
    for (word, number) in numbers {
        assert_eq!(rt; read_number(word), number);
    }
    let kept = InlineBytes::<4>::of(b"abcd").ok_or("four bytes")?;
    assert_eq!(rt; kept.bytes(), b"abcd".as_slice());
    assert!(rt; kept.len() == 4 && InlineBytes::<4>::of(b"abcde").is_none());
    Ok(())
}
