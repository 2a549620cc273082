ghost use Rattle.std.specs.Prelude.{◌<◌};

use crate::command::{CommandEnd, command};
use crate::evaluator::Language;
use crate::laws::law_one_answer;
use crate::words::{WordsStop, words_of};
use seq_base::{MemorySink, MemorySource};
use seq_run::Status;
use std::alloc::Global;
use std::env::FillError;
use std::process::Abort;
use std::rt::Env;
use std::test::Fail;

/// A script with the words behind the program's name, what it writes, and how it ends.
#[derive(Clone, Copy)]
struct Row {
    words: &'static [&'static str],
    text: &'static str,
    lines: &'static str,
    status: Status,
}

/// What a script gives under the words after the program's name, by at most `step` bytes a call.
fn given(
    alloc: Global,
    words: &[&str],
    text: &[u8],
    step: usize,
    failing: (&[u64], &[u64]),
) -> Result<(CommandEnd, Vec<u8>), Fail>
    requires { 0 < step }
{
    let (reads, writes) = failing;
    let mut input = MemorySource::new(text.to_vec(alloc)?, step, reads.to_vec(alloc)?);
    let mut out = MemorySink::new(alloc, step, writes.to_vec(alloc)?);
    let mut all = vec![in alloc; String::from_str(alloc, "cljseq")?]?;
    for word in words {
        all.push(String::from_str(alloc, word)?)?;
    }
    let end = command::<Language, _, _>(alloc, &all, &mut input, &mut out);
    let written = out.bytes().to_vec(alloc)?;
    Ok((end, written))
}

/// How a script ends, and what it writes.
fn answer(
    alloc: Global,
    words: &[&str],
    text: &[u8],
    step: usize,
    failing: (&[u64], &[u64]),
) -> Result<(Status, Vec<u8>), Fail>
    requires { 0 < step }
{
    let (end, written) = given(alloc, words, text, step, failing)?;
    Ok((end.status, written))
}

/// Each script writes its lines and ends so.
fn run_rows(rt: &impl Abort, alloc: Global, rows: &[Row]) -> Result<(), Fail> {
    for row in rows {
        let (status, written) = answer(alloc, row.words, row.text.as_bytes(), 7, (&[], &[]))?;
        assert_eq!(rt; written.as_slice(), row.lines.as_bytes(), "{}", row.text);
        assert_eq!(rt; status, row.status, "{}", row.text);
    }
    Ok(())
}

/// How much of a lazy sequence is realised.
#[test]
fn lazy_sequences(rt: HostRuntime) -> Result<(), Fail> {
    let rows: [Row; 11] = [
        Row {
            words: &[],
            text: "",
            lines: "",
            status: Status::Done,
        },
        Row {
            words: &[],
            text: "(prn (reduce + (take 3 (map inc (range 100)))))",
            lines: "6\n",
            status: Status::Done,
        },
        Row {
            words: &[],
            text: "(def xs (map inc (range 100))) (prn (first xs)) (ledger)",
            lines: "1\nxs 32\ncells 2 realised 1 failed 0\n",
            status: Status::Done,
        },
        Row {
            words: &[],
            text: "(def xs (map inc (range 100))) (prn (count (take 32 xs))) (ledger)",
            lines: "32\nxs 32\ncells 35 realised 34 failed 0\n",
            status: Status::Done,
        },
        Row {
            words: &[],
            text: "(def xs (map inc (range 100))) (prn (count (take 33 xs))) (ledger)",
            lines: "33\nxs 64\ncells 37 realised 36 failed 0\n",
            status: Status::Done,
        },
        Row {
            words: &[],
            text: "(def xs (map inc (range 100))) (prn (count (take 0 xs))) (ledger)",
            lines: "0\nxs 0\ncells 2 realised 1 failed 0\n",
            status: Status::Done,
        },
        Row {
            words: &[],
            text: "(def ys (map inc (iterate inc 0))) (prn (first ys)) (ledger)",
            lines: "1\nys 1\ncells 3 realised 1 failed 0\n",
            status: Status::Done,
        },
        Row {
            words: &[],
            text: "(def e (filter neg? (range 64))) (prn (seq e)) (ledger)",
            lines: "nil\ne 0 end\ncells 3 realised 3 failed 0\n",
            status: Status::Done,
        },
        Row {
            words: &[],
            text: "(defn fib [a b] (lazy-seq (cons a (fib b (+ a b))))) (def fs (fib 0 1)) (prn (nth fs 9)) (ledger)",
            lines: "34\nfs 10\ncells 11 realised 10 failed 0\n",
            status: Status::Done,
        },
        Row {
            words: &[],
            text: "(def a (map inc (iterate inc 0))) (def r (rest a)) (ledger) (def n (next a)) (ledger)",
            lines: "a 1\nr 0\ncells 3 realised 1 failed 0\na 2\nr 1\nn 1\ncells 5 realised 3 failed 0\n",
            status: Status::Done,
        },
        Row {
            words: &[],
            text: "(def z (sequence (map inc) (range 100))) (prn (first z)) (ledger)",
            lines: "1\nz 32\ncells 2 realised 1 failed 0\n",
            status: Status::Done,
        },
    ];
    run_rows(&rt, rt.alloc(), &rows)
}

/// Errors that are thrown, and thrown again where they are asked again.
#[test]
fn errors(rt: HostRuntime) -> Result<(), Fail> {
    let rows: [Row; 7] = [
        Row {
            words: &[],
            text: "(defn f [x] (quot 10 (- 5 x))) (def q (map f (range 10))) (prn (first q)) (prn (first q)) (ledger)",
            lines: "threw divide\nthrew divide\nq 0\ncells 1 realised 0 failed 2\n",
            status: Status::Done,
        },
        Row {
            words: &[],
            text: "(defn f [x] (quot 10 (- 5 x))) (prn (first (map f (iterate inc 0))))",
            lines: "2\n",
            status: Status::Done,
        },
        Row {
            words: &[],
            text: "(defn spin [n] (spin n)) (prn (spin 1))",
            lines: "threw steps\n",
            status: Status::Done,
        },
        Row {
            words: &[],
            text: "(prn (inc 9223372036854775807))",
            lines: "threw overflow\n",
            status: Status::Done,
        },
        Row {
            words: &[],
            text: "(def a (quot 1 0)) (prn 1)",
            lines: "threw divide\n",
            status: Status::DefThrew,
        },
        Row {
            words: &[],
            text: "(prn (count (nth (iterate vector 0) 256)))",
            lines: "threw depth\n",
            status: Status::Done,
        },
        Row {
            words: &[],
            text: "(prn (count (range -9223372036854775808 9223372036854775807)))",
            lines: "threw overflow\n",
            status: Status::Done,
        },
    ];
    run_rows(&rt, rt.alloc(), &rows)
}

/// What runs ahead of its demand.
#[test]
fn ahead(rt: HostRuntime) -> Result<(), Fail> {
    let rows: [Row; 5] = [
        Row {
            words: &[],
            text: "(def src (map inc (iterate inc 0))) (def p (pmap inc src)) (ledger) (prn (first p)) (ledger) (prn (second p)) (ledger)",
            lines: "src 2\np 0\ncells 12 realised 7 failed 0\n2\nsrc 7\np 1\ncells 33 realised 29 failed 0\n3\nsrc 8\np 2\ncells 38 realised 34 failed 0\n",
            status: Status::Done,
        },
        Row {
            words: &[],
            text: "(def src (map inc (iterate inc 0))) (def s (seque 3 src)) (ledger) (prn (first s)) (ledger)",
            lines: "src 3\ns 0\ncells 9 realised 6 failed 0\n1\nsrc 4\ns 1\ncells 13 realised 10 failed 0\n",
            status: Status::Done,
        },
        Row {
            words: &[],
            text: "(def big (map inc (range 64))) (prn (pmap (partial nth big) [40 40 40])) (ledger)",
            lines: "(41 41 41)\nbig 64\ncells 12 realised 11 failed 0\n",
            status: Status::Done,
        },
        Row {
            words: &[],
            text: "(defn f [x] (quot 10 (- 2 x))) (def p (pmap f (iterate inc 0))) (prn (first p)) (prn (take 3 p)) (ledger)",
            lines: "5\nthrew divide\np 2\ncells 35 realised 30 failed 3\n",
            status: Status::Done,
        },
        Row {
            words: &[],
            text: "(prn (pmap inc [1 2]))",
            lines: "(2 3)\n",
            status: Status::Done,
        },
    ];
    run_rows(&rt, rt.alloc(), &rows)
}

/// Folds, reductions and transducers.
#[test]
fn folds(rt: HostRuntime) -> Result<(), Fail> {
    let rows: [Row; 7] = [
        Row {
            words: &[],
            text: "(defn zero [] 0) (prn (r/fold 1 (r/monoid - zero) - [1 2 3 4])) (prn (reduce - 0 [1 2 3 4]))",
            lines: "0\n-10\n",
            status: Status::Done,
        },
        Row {
            words: &[],
            text: "(prn (r/fold + (vec (range 2000)))) (prn (r/fold + [])) (ledger)",
            lines: "1999000\n0\ncells 3 realised 3 failed 0\n",
            status: Status::Done,
        },
        Row {
            words: &[],
            text: "(prn (into [] (comp (take 3) (partition-all 2)) (iterate inc 0)))",
            lines: "[[0 1] [2]]\n",
            status: Status::Done,
        },
        Row {
            words: &[],
            text: "(def src (map inc (iterate inc 0))) (prn (into [] (take 0) src)) (ledger)",
            lines: "[]\nsrc 1\ncells 3 realised 1 failed 0\n",
            status: Status::Done,
        },
        Row {
            words: &[],
            text: "(prn (reduce + (map dec (range 2))))",
            lines: "-1\n",
            status: Status::Done,
        },
        Row {
            words: &[],
            text: "(prn (reduce + (take 0 (range 5))))",
            lines: "0\n",
            status: Status::Done,
        },
        Row {
            words: &[],
            text: "(prn (r/fold 1 + + [1 2 3 4]))",
            lines: "10\n",
            status: Status::Done,
        },
    ];
    run_rows(&rt, rt.alloc(), &rows)
}

/// The bounds of a run.
#[test]
fn limits(rt: HostRuntime) -> Result<(), Fail> {
    let rows: [Row; 5] = [
        Row {
            words: &["--cells", "2"],
            text: "(def xs (map inc (range 100))) (prn (first xs)) (ledger)",
            lines: "1\nxs 32\ncells 2 realised 1 failed 0\n",
            status: Status::Done,
        },
        Row {
            words: &["--cells", "1"],
            text: "(def xs (map inc (range 100))) (prn (first xs)) (ledger)",
            lines: "",
            status: Status::CellsSpent,
        },
        Row {
            words: &[],
            text: "(prn (first (filter neg? (range))))",
            lines: "",
            status: Status::CellsSpent,
        },
        Row {
            words: &["--steps", "2"],
            text: "(prn (inc 1))",
            lines: "2\n",
            status: Status::Done,
        },
        Row {
            words: &["--steps", "1"],
            text: "(prn (inc 1))",
            lines: "threw steps\n",
            status: Status::Done,
        },
    ];
    run_rows(&rt, rt.alloc(), &rows)
}

/// Texts that are refused, with the number and the place.
#[test]
fn refusals(rt: HostRuntime) -> Result<(), Fail> {
    let rows: [Row; 8] = [
        Row {
            words: &[],
            text: "(prn 9223372036854775808)",
            lines: "refused 4 1:6\n",
            status: Status::ScriptRefused,
        },
        Row {
            words: &[],
            text: "(prn (inc 1)",
            lines: "refused 2 1:1\n",
            status: Status::ScriptRefused,
        },
        Row {
            words: &[],
            text: "(prn foo)",
            lines: "refused 7 1:6\n",
            status: Status::ScriptRefused,
        },
        Row {
            words: &[],
            text: "(def xs (cons 1 xs))",
            lines: "refused 7 1:17\n",
            status: Status::ScriptRefused,
        },
        Row {
            words: &[],
            text: "(prn (fn [x] x))",
            lines: "refused 10 1:6\n",
            status: Status::ScriptRefused,
        },
        Row {
            words: &[],
            text: "(prn (prn 1))",
            lines: "refused 11 1:6\n",
            status: Status::ScriptRefused,
        },
        Row {
            words: &[],
            text: "(def inc 1)",
            lines: "refused 8 1:6\n",
            status: Status::ScriptRefused,
        },
        Row {
            words: &[],
            text: "(prn (if))",
            lines: "refused 9 1:6\n",
            status: Status::ScriptRefused,
        },
    ];
    run_rows(&rt, rt.alloc(), &rows)
}

/// Words that ask for nothing.
#[test]
fn faulty_words(rt: HostRuntime) -> Result<(), Fail> {
    let rows: [Row; 5] = [
        Row {
            words: &["--workers", "65"],
            text: "(prn 1)",
            lines: "",
            status: Status::Usage,
        },
        Row {
            words: &["--cells"],
            text: "(prn 1)",
            lines: "",
            status: Status::Usage,
        },
        Row {
            words: &["--check", "--check"],
            text: "(prn 1)",
            lines: "",
            status: Status::Usage,
        },
        Row {
            words: &["--steps=+1"],
            text: "(prn 1)",
            lines: "",
            status: Status::Usage,
        },
        Row {
            words: &["--"],
            text: "(prn 1)",
            lines: "",
            status: Status::Usage,
        },
    ];
    run_rows(&rt, rt.alloc(), &rows)
}

/// Scripts of several forms, looked at, run and made.
#[test]
fn whole_scripts(rt: HostRuntime) -> Result<(), Fail> {
    law_one_answer();
    let rows: [Row; 8] = [
        Row {
            words: &[],
            text: "(defn collatz [n] (if (even? n) (quot n 2) (inc (* 3 n))))\n(def path (take-while (partial < 1) (iterate collatz 27)))\n(prn (count path))\n(prn (reduce max path))\n(prn (->> (range 1 200) (filter odd?) (map (partial * 3)) (take 5)))\n(prn (transduce (comp (map inc) (filter even?)) + 0 (range 1000)))\n(prn (r/fold + (r/map inc (vec (range 10000)))))",
            lines: "111\n9232\n(3 9 15 21 27)\n250500\n50005000\n",
            status: Status::Done,
        },
        Row {
            words: &[],
            text: "(prn (count (nth (iterate vector 0) 255)))",
            lines: "1\n",
            status: Status::Done,
        },
        Row {
            words: &[],
            text: "(prn (keep identity [1 nil false 2])) (prn (= [1 2 3] (map inc (range 3)))) (prn (= nil ())) (prn (mapcat (partial list 0) [1 2]))",
            lines: "(1 false 2)\ntrue\nfalse\n(0 1 0 2)\n",
            status: Status::Done,
        },
        Row {
            words: &["--check"],
            text: "(defn collatz [n] (if (even? n) (quot n 2) (inc (* 3 n))))\n(def path (take-while (partial < 1) (iterate collatz 27)))\n(prn (count path))\n(prn (reduce max path))\n(prn (->> (range 1 200) (filter odd?) (map (partial * 3)) (take 5)))\n(prn (transduce (comp (map inc) (filter even?)) + 0 (range 1000)))\n(prn (r/fold + (r/map inc (vec (range 10000)))))",
            lines: "forms 7\n",
            status: Status::Done,
        },
        Row {
            words: &["--generate", "1"],
            text: "",
            lines: "forms 3\nlines 3\ncells 15 realised 13 failed 0\n",
            status: Status::Done,
        },
        Row {
            words: &[],
            text: "(prn \"a\\\"b\") (prn [:k nil true inc])",
            lines: "\"a\\\"b\"\n[:k nil true #fn]\n",
            status: Status::Done,
        },
        Row {
            words: &[],
            text: "(defn f \"adds\" [x'] (inc x')) (prn (f 1))",
            lines: "2\n",
            status: Status::Done,
        },
        Row {
            words: &[],
            text: "(def a (cons 1 (range -9223372036854775808 9223372036854775807))) (ledger)",
            lines: "a 18446744073709551616 end\ncells 0 realised 0 failed 0\n",
            status: Status::Done,
        },
    ];
    run_rows(&rt, rt.alloc(), &rows)
}

/// What the book that is handed back counts of its parts, if there is one.
fn totals(alloc: Global, words: &[&str], text: &str) -> Result<Option<(u32, u32, u128)>, Fail> {
    let (end, _) = given(alloc, words, text.as_bytes(), 4096, (&[], &[]))?;
    match end.book {
        Some(book) => {
            let totals = book.totals();
            Ok(Some((totals.made, totals.realised, totals.failed)))
        }
        None => Ok(None),
    }
}

/// A script with its words, and what the book that is handed back counts of its parts, if there is one.
#[derive(Drop)]
struct Kept {
    words: &'static [&'static str],
    text: &'static str,
    totals: Option<(u32, u32, u128)>,
}

/// The book of a whole run is handed back, and no other.
#[test]
fn books(rt: HostRuntime) -> Result<(), Fail> {
    let rows: [Kept; 6] = [
        Kept {
            words: &[],
            text: "",
            totals: Some((0, 0, 0)),
        },
        Kept {
            words: &[],
            text: "(def xs (map inc (range 100))) (prn (first xs)) (ledger)",
            totals: Some((2, 1, 0)),
        },
        Kept {
            words: &[],
            text: "(def src (map inc (iterate inc 0))) (def p (pmap inc src)) (ledger) (prn (first p)) (ledger) (prn (second p)) (ledger)",
            totals: Some((38, 34, 0)),
        },
        Kept {
            words: &[],
            text: "(def a (quot 1 0)) (prn 1)",
            totals: None,
        },
        Kept {
            words: &["--check"],
            text: "(prn 1)",
            totals: None,
        },
        Kept {
            words: &["--generate", "1"],
            text: "(prn 1)",
            totals: None,
        },
    ];
    for row in &rows {
        assert_eq!(rt;
            totals(rt.alloc(), row.words, row.text)?,
            row.totals,
            "{}",
            row.text
        );
    }
    Ok(())
}

/// A script of more bytes than there may be.
#[test]
fn too_long(rt: HostRuntime) -> Result<(), Fail> {
    let long = vec![in rt.alloc(); b' '; 1_048_577]?;
    let (status, written) = answer(rt.alloc(), &[], &long, 8192, (&[], &[]))?;
    assert_eq!(rt; written.as_slice(), b"refused 6 1:1\n".as_slice());
    assert_eq!(rt; status, Status::ScriptRefused);
    let (status, written) = answer(rt.alloc(), &[], b"(prn \xff)", 8192, (&[], &[]))?;
    assert_eq!(rt; written.as_slice(), b"refused 1 1:6\n".as_slice());
    assert_eq!(rt; status, Status::ScriptRefused);
    Ok(())
}

/// Words, and sources and sinks that fail in mid-stream.
#[test]
fn faults(rt: HostRuntime) -> Result<(), Fail> {
    let text = b"(prn (reduce + (range 5))) (prn (reduce + (range 4)))".as_slice();
    let rows: [(&[&str], usize, &[u64], &[u64], Status, &str); 10] = [
        (&["--workers"], 8, &[1], &[1], Status::Usage, ""),
        (&["--check"], 8, &[1], &[], Status::ReadFault, ""),
        (&["--check"], 4, &[], &[2], Status::WriteFault, "form"),
        (&[""], 8, &[], &[], Status::Usage, ""),
        (&[], 8, &[1], &[], Status::ReadFault, ""),
        (&[], 8, &[2], &[], Status::ReadFault, ""),
        (&[], 1, &[], &[2], Status::WriteFault, "1"),
        (&[], 8, &[], &[2], Status::WriteFault, "10\n"),
        (&[], 1, &[], &[5], Status::WriteFault, "10\n6"),
        (&[], 8, &[9], &[3], Status::Done, "10\n6\n"),
    ];
    for (words, step, reads, writes, status, lines) in rows {
        let (ended, written) = answer(rt.alloc(), words, text, step.max(1), (reads, writes))?;
        assert_eq!(rt; ended, status);
        assert_eq!(rt; written.as_slice(), lines.as_bytes());
    }
    let refused = b"(prn 9223372036854775808)".as_slice();
    let (ended, written) = answer(rt.alloc(), &[], refused, 4, (&[], &[3]))?;
    assert_eq!(rt; ended, Status::WriteFault);
    assert_eq!(rt; written.as_slice(), b"refused ".as_slice());
    Ok(())
}

/// A command line in memory, and no environment.
#[derive(Drop)]
struct CommandLine<'a> {
    words: &'a [&'a [u8]],
}

impl Env for CommandLine<'_> {
    fn arg(&self, i: usize, buf: &mut [u8]) -> Result<usize, FillError> {
        match self.words.get(i) {
            Some(word) if word.len() <= buf.len() => {
                buf[..word.len()].copy_from_slice(word);
                Ok(word.len())
            }
            Some(_) => Err(FillError::TooLong),
            None => Err(FillError::NotPresent),
        }
    }

    fn var(&self, _name: &str, _buf: &mut [u8]) -> Result<usize, FillError> {
        Err(FillError::NotPresent)
    }

    fn var_at(&self, _i: usize, _buf: &mut [u8]) -> Result<usize, FillError> {
        Err(FillError::NotPresent)
    }
}

/// The program's name isn't looked at, and each other word has to be text.
#[test]
fn words(rt: HostRuntime) -> Result<(), Fail> {
    let rows: [(&[&[u8]], Result<&[&str], WordsStop>); 6] = [
        (&[], Ok([""].as_slice())),
        (&[b"cljseq"], Ok([""].as_slice())),
        (&[b"\xff"], Ok([""].as_slice())),
        (
            &[b"\xff", b"--check", b""],
            Ok(["", "--check", ""].as_slice()),
        ),
        (&[b"cljseq", b"\xff"], Err(WordsStop::NotText)),
        (&[b"cljseq", b"--check", b"\xc3"], Err(WordsStop::NotText)),
    ];
    for (words, want) in rows {
        match (words_of(&CommandLine { words }, rt.alloc()), want) {
            (Ok(all), Ok(want)) => {
                assert_eq!(rt; all.len(), want.len());
                for (word, want) in all.iter().zip(want) {
                    assert_eq!(rt; word.as_str(), *want);
                }
            }
            (Err(stop), Err(want)) => assert_eq!(rt; stop, want),
            _ => assert!(rt; false, "{}", words.len()),
        }
    }
    Ok(())
}
