use crate::{generate, summary};
use std::test::Fail;

/// Scripts that were worked out apart from this code, by the rule for the numbers and the four kinds of step.
#[test]
fn made_scripts(rt: HostRuntime) -> Result<(), Fail> {
    let five = "(prn (r/fold 8 + + (vec (range 64))))\n\
                (def s2 (filter even? (map inc (range 15))))\n(prn (count s2))\n\
                (def s3 (map inc (range 55)))\n(prn (reduce + (take 27 s3)))\n\
                (def s4 (filter even? (map inc (range 70))))\n(prn (count s4))\n\
                (def s5 (filter even? (map inc (range 49))))\n(prn (count s5))\n\
                (ledger)\n";
    let rows = [
        (0, "(ledger)\n"),
        (
            1,
            "(def s1 (pmap inc (range 10)))\n(prn (first s1))\n(ledger)\n",
        ),
        (5, five),
    ];
    for (steps, wanted) in rows {
        let Ok(text) = generate(rt.alloc(), steps) else {
            return Err(Fail::from("no memory"));
        };
        assert!(rt; text.as_slice() == wanted.as_bytes(), "of {steps}");
    }
    Ok(())
}

#[test]
fn summaries(rt: HostRuntime) -> Result<(), Fail> {
    let rows = [
        ("", "forms 3\nlines 0\n"),
        ("a", "forms 3\nlines 0\n"),
        ("a\n", "forms 3\nlines 1\na\n"),
        ("a\nb\n", "forms 3\nlines 2\nb\n"),
        ("a\nb", "forms 3\nlines 1\na\n"),
        ("a\n\n", "forms 3\nlines 2\n\n"),
    ];
    for (written, wanted) in rows {
        let Ok(text) = summary(rt.alloc(), 3, written.as_bytes()) else {
            return Err(Fail::from("no memory"));
        };
        assert!(rt; text.as_slice() == wanted.as_bytes(), "of {written:?}");
    }
    Ok(())
}
