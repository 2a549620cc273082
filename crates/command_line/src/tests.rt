use crate::{Options, Request, asked, law_bare_name_runs, law_one_request};
use seq_base::Limits;
use std::alloc::Global;
use std::test::Fail;

/// What the words behind a name ask for.
fn behind(alloc: Global, words: &[&str]) -> Result<Option<Options>, Fail> {
    let mut all = vec![in alloc; String::from_str(alloc, "--name")?]?;
    for word in words {
        all.push(String::from_str(alloc, word)?)?;
    }
    Ok(asked(alloc, all.as_slice())?)
}

/// A request within these bounds.
fn within(request: Request, processors: u32, cells: u32, steps: u32) -> Option<Options> {
    let limits = Limits {
        cells,
        steps,
        processors,
    };
    Some(Options { request, limits })
}

/// A request within the usual bounds.
fn usual(request: Request) -> Option<Options> {
    within(request, 4, 65_536, 1_000_000)
}

#[test]
fn words(rt: HostRuntime) -> Result<(), Fail> {
    law_one_request();
    law_bare_name_runs();
    let rows: [(&[&str], Option<Options>); 40] = [
        (&[], usual(Request::Run)),
        (&["--check"], usual(Request::Check)),
        (&["--workers", "0"], usual(Request::Run)),
        (&["--workers=0"], usual(Request::Run)),
        (&["--workers=0000000000"], usual(Request::Run)),
        (&["--workers=0", "--check"], usual(Request::Check)),
        (&["--check", "--workers", "0"], usual(Request::Check)),
        (&["--generate", "1"], usual(Request::Generate(1))),
        (&["--generate=1000"], usual(Request::Generate(1000))),
        (
            &["--processors", "1"],
            within(Request::Run, 1, 65_536, 1_000_000),
        ),
        (
            &["--processors=64"],
            within(Request::Run, 64, 65_536, 1_000_000),
        ),
        (&["--cells=1"], within(Request::Run, 4, 1, 1_000_000)),
        (
            &["--cells=1048576"],
            within(Request::Run, 4, 1_048_576, 1_000_000),
        ),
        (&["--steps", "1"], within(Request::Run, 4, 65_536, 1)),
        (
            &["--steps=0016777216"],
            within(Request::Run, 4, 65_536, 16_777_216),
        ),
        (
            &["--steps=5", "--cells=6", "--processors=7", "--generate=8"],
            within(Request::Generate(8), 7, 6, 5),
        ),
        (
            &["--cells", "6", "--check", "--steps", "5"],
            within(Request::Check, 4, 6, 5),
        ),
        (&["--workers=00000000000"], None),
        (&["--workers=1"], None),
        (&["--workers", "65"], None),
        (&["--workers"], None),
        (&["--workers="], None),
        (&["--workers=+0"], None),
        (&["--workers=0", "--workers=0"], None),
        (&["--check", "--check"], None),
        (&["--check=1"], None),
        (&["--check", "--generate=1"], None),
        (&["--generate=1", "--check"], None),
        (&["--generate=0"], None),
        (&["--generate=1001"], None),
        (&["--processors=0"], None),
        (&["--processors=65"], None),
        (&["--cells=0"], None),
        (&["--cells=1048577"], None),
        (&["--steps=16777217"], None),
        (&["--steps=4294967297"], None),
        (&["--"], None),
        (&[""], None),
        (&["--steps=+1"], None),
        (&["--help"], None),
    ];
    for (words, want) in rows {
        assert_eq!(rt; behind(rt.alloc(), words)?, want);
    }
    Ok(())
}
