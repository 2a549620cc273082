use crate::{
    Form, Forms, ReadFormsStop, Shape, one_reading, one_refusal, read_forms, script_or_refused,
};
use std::alloc::Global;
use std::str;
use std::test::Fail;

/// A form on a line: its place, then `#` and an integer, `'` and a symbol, or its text.
#[cycle(shown)]
fn show_form(alloc: Global, out: &mut String, form: &Form) -> Result<(), Fail> {
    let line = form.place.line;
    let column = form.place.column;
    write!(out, "{line}:{column} ")?;
    match &form.shape {
        Shape::Nil => out.push_str("nil")?,
        Shape::Bool(value) => write!(out, "{value}")?,
        Shape::Int(value) => write!(out, "#{value}")?,
        Shape::Text(name) => {
            let text = utf8(name.bytes())?;
            write!(out, "\"{text}\"")?;
        }
        Shape::Keyword(name) => {
            let text = utf8(name.bytes())?;
            write!(out, ":{text}")?;
        }
        Shape::Symbol(name) => {
            let text = utf8(name.bytes())?;
            write!(out, "'{text}")?;
        }
        Shape::List(forms) => show_group(alloc, out, "(", forms, ")")?,
        Shape::Vector(forms) => show_group(alloc, out, "[", forms, "]")?,
    }
    Ok(())
}

#[cycle(shown)]
fn show_group(
    alloc: Global,
    out: &mut String,
    open: &str,
    forms: &Forms,
    close: &str,
) -> Result<(), Fail> {
    out.push_str(open)?;
    show_forms(alloc, out, forms)?;
    out.push_str(close)?;
    Ok(())
}

#[cycle(shown)]
fn show_forms(alloc: Global, out: &mut String, forms: &Forms) -> Result<(), Fail> {
    for at in 0..forms.len() {
        if at > 0 {
            out.push_str(" ")?;
        }
        if let Some(form) = forms.get(at) {
            show_form(alloc, out, form)?;
        }
    }
    Ok(())
}

fn utf8(bytes: &[u8]) -> Result<&str, Fail> {
    match str::from_utf8(bytes) {
        Ok(text) => Ok(text),
        Err(_) => Err(Fail::from("not UTF-8")),
    }
}

/// What a text is read as.
fn shown(alloc: Global, text: &[u8]) -> Result<String, Fail> {
    let mut out = String::new(alloc);
    match read_forms(alloc, text) {
        Ok(forms) => show_forms(alloc, &mut out, &forms)?,
        Err(ReadFormsStop::Memory) => out.push_str("memory")?,
        Err(ReadFormsStop::Refused(refusal)) => {
            let number = refusal.number;
            let line = refusal.place.line;
            let column = refusal.place.column;
            write!(out, "refused {number} {line}:{column}")?;
        }
    }
    Ok(out)
}

/// Separators, comments, lines and columns.
const GAPS: [(&[u8], &[u8]); 15] = [
    (b"", b""),
    (b" \t\r\n\x0c,", b""),
    (b"; only a comment", b""),
    (b"; a\n1", b"2:1 #1"),
    (b"; a\r1\n2", b"2:1 #2"),
    (b"1\r\n2", b"1:1 #1 2:1 #2"),
    (b"\t1", b"1:2 #1"),
    (b"a,b", b"1:1 'a 1:3 'b"),
    (b"a;b", b"1:1 'a"),
    (b"\"\xe2\x82\xac\" 1", b"1:1 \"\xe2\x82\xac\" 1:5 #1"),
    (b"; \xe2\x82\xac\n\"\xe2\x82\xac\" }", b"refused 3 2:5"),
    (b"\"\xc3\xa9\"x", b"1:1 \"\xc3\xa9\" 1:4 'x"),
    (b"\"a\nb\" c", b"1:1 \"a\nb\" 2:4 'c"),
    (b"\xc2\xa0a", b"refused 3 1:1"),
    (b"(\xc3\xa9)", b"refused 3 1:2"),
];

/// Integers, symbols, keywords and literals.
const WORDS: [(&[u8], &[u8]); 64] = [
    (b"0", b"1:1 #0"),
    (b"-0", b"1:1 #0"),
    (b"+5", b"1:1 #5"),
    (b"-5", b"1:1 #-5"),
    (b"10", b"1:1 #10"),
    (b"00", b"refused 3 1:1"),
    (b"007", b"refused 3 1:1"),
    (b"-5a", b"refused 3 1:1"),
    (b"+5x", b"refused 3 1:1"),
    (b"1.5", b"refused 3 1:1"),
    (b"1/2", b"refused 3 1:1"),
    (b"0x1F", b"refused 3 1:1"),
    (b"9223372036854775807", b"1:1 #9223372036854775807"),
    (b"9223372036854775808", b"refused 4 1:1"),
    (b"+9223372036854775808", b"refused 4 1:1"),
    (b"-9223372036854775808", b"1:1 #-9223372036854775808"),
    (b"-9223372036854775809", b"refused 4 1:1"),
    (
        b"99999999999999999999999999999999999999999",
        b"refused 4 1:1",
    ),
    (b"(prn 9223372036854775808)", b"refused 4 1:6"),
    (b"-", b"1:1 '-"),
    (b"+", b"1:1 '+"),
    (b"->>", b"1:1 '->>"),
    (b"-a", b"1:1 '-a"),
    (b"-'", b"1:1 '-'"),
    (b"*+!-_?<>=", b"1:1 '*+!-_?<>="),
    (b"aZ9'", b"1:1 'aZ9'"),
    (b"Az", b"1:1 'Az"),
    (b"'a", b"refused 3 1:1"),
    (b"a.b", b"refused 3 1:1"),
    (b"a/b", b"refused 3 1:1"),
    (b"r", b"1:1 'r"),
    (b"r/", b"refused 3 1:1"),
    (b"r/fold", b"1:1 'r/fold"),
    (b"r/+1", b"1:1 'r/+1"),
    (b"r/nil", b"1:1 'r/nil"),
    (b"r/5", b"refused 3 1:1"),
    (b"r/a/b", b"refused 3 1:1"),
    (b"q/a", b"refused 3 1:1"),
    (b":", b"refused 3 1:1"),
    (b":a", b"1:1 :a"),
    (b":+1", b"1:1 :+1"),
    (b":nil", b"1:1 :nil"),
    (b":5", b"refused 3 1:1"),
    (b"::a", b"refused 3 1:1"),
    (b":a/b", b"refused 3 1:1"),
    (b":r/a", b"refused 3 1:1"),
    (b"nil true false", b"1:1 nil 1:5 true 1:10 false"),
    (b"nilx", b"1:1 'nilx"),
    (b"True", b"1:1 'True"),
    (b"{}", b"refused 3 1:1"),
    (b"#x", b"refused 3 1:1"),
    (b"@a", b"refused 3 1:1"),
    (b"~a", b"refused 3 1:1"),
    (b"\\a", b"refused 3 1:1"),
    (b"\0", b"refused 3 1:1"),
    (b"a\0", b"refused 3 1:1"),
    (b"a \0", b"refused 3 1:3"),
    (b"%", b"refused 3 1:1"),
    (b"&", b"refused 3 1:1"),
    (b"`", b"refused 3 1:1"),
    (b"[", b"refused 2 1:1"),
    (b"a\"b\"", b"1:1 'a 1:2 \"b\""),
    (b"a(b)", b"1:1 'a 1:2 (1:3 'b)"),
    (b"1[2]", b"1:1 #1 1:2 [1:3 #2]"),
];

/// Texts, brackets, and which refusal comes first.
const GROUPS: [(&[u8], &[u8]); 24] = [
    (b"\"\"", b"1:1 \"\""),
    (b"\"", b"refused 3 1:1"),
    (b"\"\\", b"refused 3 1:1"),
    (b"\"a\\\"", b"refused 3 1:1"),
    (b"\"\\q\"", b"refused 3 1:1"),
    (b"1 \"a\\q\" )", b"refused 3 1:3"),
    (b"\"\\n\\t\\r\\\"\\\\\"", b"1:1 \"\n\t\r\"\\\""),
    (b"\"; [ \" a", b"1:1 \"; [ \" 1:8 'a"),
    (b"()", b"1:1 ()"),
    (b"[]", b"1:1 []"),
    (b"(a [1 :k])", b"1:1 (1:2 'a 1:4 [1:5 #1 1:7 :k])"),
    (b"(()())", b"1:1 (1:2 () 1:4 ())"),
    (b"(a\n b) c", b"1:1 (1:2 'a 2:2 'b) 2:5 'c"),
    (b"(a", b"refused 2 1:1"),
    (b"(prn (inc 1)", b"refused 2 1:1"),
    (b"(a [b", b"refused 2 1:4"),
    (b"(a]", b"refused 2 1:3"),
    (b"[a)", b"refused 2 1:3"),
    (b"(a [b)", b"refused 2 1:6"),
    (b")", b"refused 2 1:1"),
    (b"a]", b"refused 2 1:2"),
    (b"(a \"", b"refused 3 1:4"),
    (b") 9223372036854775808", b"refused 2 1:1"),
    (b"9223372036854775808 )", b"refused 4 1:1"),
];

#[test]
fn reads_the_table(rt: HostRuntime) -> Result<(), Fail> {
    for (text, want) in GAPS {
        assert_eq!(rt; shown(rt.alloc(), text)?.as_bytes(), want);
    }
    for (text, want) in WORDS {
        assert_eq!(rt; shown(rt.alloc(), text)?.as_bytes(), want);
    }
    for (text, want) in GROUPS {
        assert_eq!(rt; shown(rt.alloc(), text)?.as_bytes(), want);
    }
    Ok(())
}

/// A bracket of a kind so many times.
fn repeated(alloc: Global, byte: u8, count: usize) -> Result<Vec<u8>, Fail> {
    Ok(vec![in alloc; byte; count]?)
}

#[test]
fn reads_forms_by_their_places(rt: HostRuntime) -> Result<(), Fail> {
    one_reading();
    one_refusal();
    script_or_refused();
    match read_forms(rt.alloc(), b"a \"b\"") {
        Ok(forms) => {
            assert_eq!(rt; forms.len(), 2);
            assert!(rt; forms.get(1).is_some());
            assert!(rt; forms.get(2).is_none());
            Ok(())
        }
        Err(_) => Err(Fail::from("refused")),
    }
}

#[test]
fn refuses_at_the_edges(rt: HostRuntime) -> Result<(), Fail> {
    let alloc = rt.alloc();
    // A byte that begins nothing, a lone surrogate, a character cut off, one past the last, and an overlong form.
    assert_eq!(rt; shown(alloc, b"a\xff")?.as_str(), "refused 1 1:2");
    assert_eq!(rt; shown(alloc, b"\xed\xa0\x80")?.as_str(), "refused 1 1:1");
    assert_eq!(rt; shown(alloc, b") \xe2\x82")?.as_str(), "refused 1 1:3");
    assert_eq!(rt;
        shown(alloc, b"(\xf4\x90\x80\x80")?.as_str(),
        "refused 1 1:2"
    );
    assert_eq!(rt;
        shown(alloc, b"\"\xe2\x82\xac\n\xe2\x82\xac\xc0\x80")?.as_str(),
        "refused 1 2:2"
    );
    // 200 brackets, and 201.
    let mut nested = repeated(alloc, b'[', 200)?;
    nested.extend_from_slice(&repeated(alloc, b']', 200)?)?;
    assert!(rt; read_forms(alloc, &nested).is_ok());
    assert_eq!(rt;
        shown(alloc, &repeated(alloc, b'(', 201)?)?.as_str(),
        "refused 5 1:201"
    );
    // 1,048,576 bytes, and one more.
    assert_eq!(rt;
        shown(alloc, &repeated(alloc, b',', 1_048_576)?)?.as_str(),
        ""
    );
    assert_eq!(rt;
        shown(alloc, &repeated(alloc, 0xff, 1_048_577)?)?.as_str(),
        "refused 6 1:1"
    );
    Ok(())
}
