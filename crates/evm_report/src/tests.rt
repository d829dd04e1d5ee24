//! A report on one square that two squares share.

use super::*;

#[test]
fn a_square_in_one_line(rt: HostRuntime) {
    let report = Report {
        name: "c",
        kind: "and",
        operands: &["a", "b"],
        dim: 2,
        vertices: 4,
        content: "1",
        boundary: "4",
        parts: 1,
        low: &[1, 1],
        high: &[2, 2],
    };
    let text = report_text(rt.alloc(), &report).expect(&rt, "memory");
    let expected =
        "{\"boundary\":\"4\",\"content\":\"1\",\"dim\":2,\"high\":[2,2],\"kind\":\"and\",\"low\":[1,1],\"name\":\"c\",\"operands\":[\"a\",\"b\"],\"parts\":1,\"vertices\":4}";
    assert!(rt; text.as_str() == expected);
}
