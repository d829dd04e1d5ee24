//! A script that is made line by line.

use super::*;

// With seed 0 the first numbers are 16807, 282475249, 1622650073, 984943658, 1144108930, 470211272, 101027544, 1457850878.
#[test]
fn one_edit_between_fourteen_lines(rt: HostRuntime) {
    let mut generator = Generator::new(0, 1);
    let mut text = Vec::new(rt.alloc());
    for _ in 0..15 {
        assert!(rt; generator.line(&mut text).expect(&rt, "memory"));
        text.push(b'\n').expect(&rt, "memory");
    }
    assert!(rt; !generator.line(&mut text).expect(&rt, "memory"));
    let expected: &[u8] =
        b"input a 3\ninput b 3\ninput c 3\ndef u or a b\ndef v sub u c\ndef p proj v 3\ndef s shift v 1 2 3\ndef w xor u s\nadd b 53 10 24 56 11 27\ncontent u\nboundary u\ncontent p\nboundary p\ncontent w\nboundary w\n";
    assert!(rt; text.as_slice() == expected);
}
