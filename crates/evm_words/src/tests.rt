//! Words that ask for something, and words that do not.

use super::*;
use std::test::Fail;

#[test]
fn each_form_and_what_is_none(rt: HostRuntime) -> Result<(), Fail> {
    let gen_7_2 = Some(Form::Gen { seed: 7, edits: 2 });
    let most = Some(Form::Gen {
        seed: u64::MAX,
        edits: 100_000,
    });
    let cases: [(&str, Option<Form>); 20] = [
        ("evm run", Some(Form::Run)),
        ("evm gen --seed 7 --edits 2", gen_7_2),
        ("evm gen --edits 2 --seed 7", gen_7_2),
        ("evm gen --edits=+2 --seed 007", gen_7_2),
        ("evm gen --seed=18446744073709551615 --edits=100000", most),
        ("evm", None),
        ("evm run now", None),
        ("evm go", None),
        ("evm gen", None),
        ("evm gen --seed 7", None),
        ("evm gen --seed 7 --seed 7 --edits 2", None),
        ("evm gen --seed 7 --edits 2 --", None),
        ("evm gen --seed 7 --edits 2 --help", None),
        ("evm gen --seed -7 --edits 2", None),
        ("evm gen --seed=-7 --edits 2", None),
        ("evm gen --seed 7 --edits 0", None),
        ("evm gen --seed 7 --edits 100001", None),
        ("evm gen --seed 18446744073709551616 --edits 1", None),
        ("evm gen --seed= --edits 1", None),
        ("evm gen --help", None),
    ];
    for (line, form) in cases {
        let mut words = Vec::new(rt.alloc());
        for word in line.split(' ') {
            words.push(String::from_str(rt.alloc(), word)?)?;
        }
        let expected = form.ok_or(WordsError::NoForm);
        assert!(rt; read_words(rt.alloc(), words.as_slice()) == expected);
    }
    Ok(())
}
