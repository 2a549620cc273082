use clj_reader::{Forms, Place, ReadFormsStop, read_forms};
use clj_script::{
    CompileStop, Expr, Numbers, Program, Top, closed_later, compile, meaning_is_closed,
    one_meaning, refused_or_meant, some_meaning,
};
use seq_values::{Line, Value, print_atom};
use std::alloc::Global;
use std::str;
use std::test::Fail;

/// A number and a place, as `7 1:6`.
fn write_refusal(out: &mut String, number: u8, place: Place) -> Result<(), Fail> {
    let (line, column) = (place.line, place.column);
    write!(out, "{number} {line}:{column}")?;
    Ok(())
}

/// `forms N`, or a refusal as its number and place.
fn judged(alloc: Global, script: &str) -> Result<String, Fail> {
    let mut out = String::new(alloc);
    match read_forms(alloc, script.as_bytes()) {
        Ok(forms) => write_judgement(alloc, &mut out, &forms)?,
        Err(ReadFormsStop::Refused(refusal)) => {
            write_refusal(&mut out, refusal.number, refusal.place)?;
        }
        Err(ReadFormsStop::Memory) => out.push_str("memory")?,
    }
    Ok(out)
}

fn write_judgement(alloc: Global, out: &mut String, forms: &Forms) -> Result<(), Fail> {
    match compile(alloc, forms) {
        Ok(program) => {
            let count = program.tops();
            write!(out, "forms {count}")?;
        }
        Err(CompileStop::Refused(refusal)) => write_refusal(out, refusal.number, refusal.place)?,
        Err(CompileStop::Memory) => out.push_str("memory")?,
    }
    Ok(())
}

/// The program of a script.
fn compiled(alloc: Global, script: &str) -> Result<Program, Fail> {
    let forms = match read_forms(alloc, script.as_bytes()) {
        Ok(forms) => forms,
        Err(_) => return Err(Fail::from("not read")),
    };
    match compile(alloc, &forms) {
        Ok(program) => Ok(program),
        Err(_) => Err(Fail::from("not compiled")),
    }
}

/// Scripts that are compiled.
const SCRIPTS: [(&str, &str); 50] = [
    ("", "forms 0"),
    ("; nothing", "forms 0"),
    ("(prn (reduce + (take 3 (map inc (range 100)))))", "forms 1"),
    ("(prn 1) (prn 2) (ledger)", "forms 3"),
    ("(def x 1) (prn x)", "forms 2"),
    ("(def f inc) (prn (f 1))", "forms 2"),
    ("(def int 1) (def Inc 2)", "forms 2"),
    // A function knows itself and what was defined before it.
    ("(defn f [n] (f n)) (prn (f 1))", "forms 2"),
    ("(defn f [] 1) (defn g [] (f))", "forms 2"),
    ("(defn f ([] (f 1)) ([x] (f)))", "forms 1"),
    // One body for each number of parameters, behind a text or not.
    ("(defn f \"adds\" [x'] (inc x')) (prn (f 1))", "forms 2"),
    ("(defn f \"text\" ([x] x) ([x y] y))", "forms 1"),
    ("(defn f ([] 0))", "forms 1"),
    ("(defn f [] \"text\")", "forms 1"),
    (
        "(defn f [a b c d e f g h i j k l m n o p q r s t] t)",
        "forms 1",
    ),
    // Locals may hide definitions, words and one another.
    ("(def x 1) (defn f [x] x) (prn (let [x 2] x))", "forms 3"),
    ("(defn f [inc] (inc 1))", "forms 1"),
    ("(prn (let [map 1 inc map] (inc map)))", "forms 1"),
    ("(defn f [f] f)", "forms 1"),
    ("(prn (let [x 1 x (inc x)] x))", "forms 1"),
    ("(prn (let [x 1 y x] (+ x y)))", "forms 1"),
    ("(prn (let [] 1))", "forms 1"),
    ("(prn (if 1 2))", "forms 1"),
    ("(prn (if 1 2 3))", "forms 1"),
    ("(prn (when 1 2))", "forms 1"),
    ("(prn (and))", "forms 1"),
    ("(prn (or 1 2 3))", "forms 1"),
    ("(prn (lazy-seq nil))", "forms 1"),
    // Any form may head a call, and what is no list stands for itself.
    ("(prn ())", "forms 1"),
    ("(prn (()))", "forms 1"),
    ("(prn (1 2))", "forms 1"),
    ("(prn (\"a\" :b))", "forms 1"),
    ("(prn ([inc 1] 0))", "forms 1"),
    ("(prn ((if true inc dec) 1))", "forms 1"),
    ("(prn [[] [nil true false :k \"t\"]])", "forms 1"),
    ("(prn -9223372036854775808)", "forms 1"),
    // Threading is written out before anything else is asked of a form.
    ("(prn (-> 1))", "forms 1"),
    ("(prn (-> 1 inc (+ 2)))", "forms 1"),
    ("(prn (->> 1 (+ 2) inc))", "forms 1"),
    ("(-> 1 prn)", "forms 1"),
    ("(->> 1 (prn))", "forms 1"),
    ("(-> x (def 1)) (prn x)", "forms 2"),
    ("(->> (inc x) (defn f [x])) (prn (f 1))", "forms 2"),
    ("(-> (ledger))", "forms 1"),
    ("(-> 1 (-> prn))", "forms 1"),
    ("(-> (-> 1 inc) prn)", "forms 1"),
    ("(prn (-> (-> 1 inc) (-> inc)))", "forms 1"),
    ("(prn (->> x (let [x 1])))", "forms 1"),
    ("(prn (-> 1 (if 2 3)))", "forms 1"),
    ("(prn (-> [1] (lazy-seq)))", "forms 1"),
];

/// Names that nothing defines, and names that are defined twice.
const NAMES: [(&str, &str); 26] = [
    ("(prn foo)", "7 1:6"),
    ("(def x x)", "7 1:8"),
    ("(def xs (map inc xs))", "7 1:18"),
    ("(prn x) (def x 1)", "7 1:6"),
    ("(prn (f 1)) (defn f [x] x)", "7 1:7"),
    ("(defn f [x] y)", "7 1:13"),
    ("(defn f [] (g)) (defn g [] 1)", "7 1:13"),
    // A local is known in its own form alone, and not in its own expression.
    ("(defn f [x] x) (prn x)", "7 1:21"),
    ("(defn f ([x] x) ([] x))", "7 1:21"),
    ("(prn [(let [x 1] x) x])", "7 1:21"),
    ("(prn (let [x x] 1))", "7 1:14"),
    ("(prn (let [x y y 1] x))", "7 1:14"),
    ("(prn (lazy-seq foo))", "7 1:16"),
    ("(prn (when 1 foo))", "7 1:14"),
    ("(prn (if true 1 foo))", "7 1:17"),
    ("(prn (and 1 foo))", "7 1:13"),
    ("(prn [1 (inc 2) q])", "7 1:17"),
    ("(prn r/foo)", "7 1:6"),
    ("(prn 1)\n(prn\n  foo)", "7 3:3"),
    ("(def inc 1)", "8 1:6"),
    ("(defn map [x] x)", "8 1:7"),
    ("(def x 1) (def x 2)", "8 1:16"),
    ("(def x 1) (defn x [] 1)", "8 1:17"),
    ("(defn f [] 1) (defn f [x] x)", "8 1:21"),
    ("(defn f [] 1) (def f 2)", "8 1:20"),
    ("(-> inc (def 1))", "8 1:5"),
];

/// Special forms with wrong arguments.
const ARGUMENTS: [(&str, &str); 41] = [
    ("(prn (if))", "9 1:6"),
    ("(prn (if 1))", "9 1:6"),
    ("(prn (if 1 2 3 4))", "9 1:6"),
    ("(prn (when 1))", "9 1:6"),
    ("(prn (when 1 2 3))", "9 1:6"),
    ("(prn (let))", "9 1:6"),
    ("(prn (let [x 1]))", "9 1:6"),
    ("(prn (let [x 1] x x))", "9 1:6"),
    ("(prn (let [x] x))", "9 1:6"),
    ("(prn (let [x 1 y] x))", "9 1:6"),
    ("(prn (let (x 1) x))", "9 1:6"),
    ("(prn (let x 1))", "9 1:6"),
    ("(prn (lazy-seq))", "9 1:6"),
    ("(prn (lazy-seq 1 2))", "9 1:6"),
    ("(prn (->))", "9 1:6"),
    ("(prn (->>))", "9 1:6"),
    ("(prn)", "9 1:1"),
    ("(prn 1 2)", "9 1:1"),
    ("(ledger 1)", "9 1:1"),
    ("(-> 1 ledger)", "9 1:7"),
    ("(def)", "9 1:1"),
    ("(def x)", "9 1:1"),
    ("(def x 1 2)", "9 1:1"),
    ("(def 1 2)", "9 1:1"),
    ("(def (x) 1)", "9 1:1"),
    ("(-> 1 (def x))", "9 1:7"),
    ("(defn)", "9 1:1"),
    ("(defn f)", "9 1:1"),
    ("(defn f \"text\")", "9 1:1"),
    ("(defn f [x])", "9 1:1"),
    ("(defn f [x] 1 2)", "9 1:1"),
    ("(defn [x] 1)", "9 1:1"),
    ("(defn f \"a\" \"b\" [x] 1)", "9 1:1"),
    ("(defn f (x 1))", "9 1:1"),
    ("(defn f ([x]))", "9 1:1"),
    ("(defn f ([x] 1 2))", "9 1:1"),
    ("(defn f ([x] 1) [y])", "9 1:1"),
    ("(->)", "9 1:1"),
    // A threading list where a body, a vector or a name has to stand is a list.
    ("(defn f (->> x ([x])))", "9 1:1"),
    ("(prn (let (-> [x 1]) x))", "9 1:6"),
    ("(def (-> a) 1)", "9 1:1"),
];

/// Forms out of the profile, and what can't be bound.
const PROFILE: [(&str, &str); 43] = [
    ("1", "10 1:1"),
    ("\"text\"", "10 1:1"),
    ("[(prn 1)]", "10 1:1"),
    ("()", "10 1:1"),
    ("(inc 1)", "10 1:1"),
    ("(let [x 1] x)", "10 1:1"),
    ("((prn 1))", "10 1:1"),
    ("(fn [x] x)", "10 1:1"),
    ("(prn 1) 2", "10 1:9"),
    ("(-> 1 inc)", "10 1:7"),
    ("(-> 1)", "10 1:5"),
    ("(prn (fn [x] x))", "10 1:6"),
    ("(prn (quote foo))", "10 1:6"),
    ("(prn (-> 1 do))", "10 1:12"),
    ("(prn (map if [1]))", "10 1:11"),
    ("(prn [recur])", "10 1:7"),
    ("(prn (let [1 2] 3))", "10 1:12"),
    ("(prn (let [[x] 2] 3))", "10 1:12"),
    ("(prn (let [if 2] 3))", "10 1:12"),
    ("(prn (let [r/x 2] 3))", "10 1:12"),
    ("(prn (let [x 1 fn 2] 3))", "10 1:16"),
    ("(def r/x 1)", "10 1:6"),
    ("(defn r/f [] 1)", "10 1:7"),
    ("(defn let [] 1)", "10 1:7"),
    ("(defn f [1] 2)", "10 1:10"),
    ("(defn f [x :k] 2)", "10 1:12"),
    ("(defn f [def] 2)", "10 1:10"),
    ("(defn f [r/x] 2)", "10 1:10"),
    ("(defn f [x x] 1)", "10 1:12"),
    ("(defn f [x y x] 1)", "10 1:14"),
    ("(defn f ([x] 1) ([y] 2))", "10 1:17"),
    ("(defn f ([] 1) ([x] 2) ([] 3))", "10 1:24"),
    (
        "(defn f [a b c d e f g h i j k l m n o p q r s t u] 1)",
        "10 1:9",
    ),
    ("(prn (-> 1 2))", "10 1:12"),
    ("(prn (-> 1 ()))", "10 1:12"),
    ("(prn (->> 1 [inc]))", "10 1:13"),
    ("(-> 1 2 prn)", "10 1:7"),
    // A list at the top that is none of the four is looked into.
    ("(->> reduce case letfn map)", "10 1:18"),
    ("(-> zz map)", "7 1:5"),
    // A function's name is known in its bodies, also where it is refused for its spelling.
    ("(->> r/q (defn r/q []))", "10 1:16"),
    ("(->> (r/q r/q) (defn r/q []))", "10 1:22"),
    ("(->> r/q (def r/q))", "7 1:6"),
    ("(->> r/p (defn r/q []))", "7 1:6"),
];

/// Words of the top inside another form, and which refusal comes first.
const PLACES: [(&str, &str); 27] = [
    ("(prn (prn 1))", "11 1:6"),
    ("(prn (def x 1))", "11 1:6"),
    ("(prn (defn f [x] x))", "11 1:6"),
    ("(prn (defn f \"text\" ([x] x) ([y] y)))", "11 1:6"),
    ("(prn (ledger))", "11 1:6"),
    ("(def x [1 (ledger)])", "11 1:11"),
    ("(defn f [] (def x 1))", "11 1:12"),
    ("(prn (->> 1 (def x)))", "11 1:13"),
    // Nothing inside a list that is refused whole is looked at.
    ("(prn (prn foo))", "11 1:6"),
    ("(prn (fn foo))", "10 1:6"),
    ("(prn (if foo))", "9 1:6"),
    ("(prn (def inc (if)))", "11 1:6"),
    // At one place the lowest number comes.
    ("(prn (prn))", "9 1:6"),
    ("(prn (def 1 2))", "9 1:6"),
    ("(prn (defn f))", "9 1:6"),
    ("(prn (ledger 1))", "9 1:6"),
    ("(if 1)", "9 1:1"),
    ("(defn inc [inc inc] foo)", "8 1:7"),
    // The least place comes, whatever is looked at first.
    ("(def inc foo)", "8 1:6"),
    ("(prn foo) (def inc 1)", "7 1:6"),
    ("(prn (foo (if)))", "7 1:7"),
    ("(prn (inc (if) foo))", "9 1:11"),
    ("(prn (->> foo (+ bar)))", "7 1:11"),
    ("(prn (->> 1 (-> 2)))", "10 1:11"),
    ("(prn [1\nfoo]) (prn (if))", "7 2:1"),
    ("(prn 9223372036854775808)", "4 1:6"),
    ("(prn (inc 1)", "2 1:1"),
];

/// The scripts of a table that aren't judged as it says.
fn misjudged(alloc: Global, table: &[(&str, &str)]) -> Result<String, Fail> {
    let mut out = String::new(alloc);
    for (script, wanted) in table {
        let found = judged(alloc, script)?;
        if found.as_str() != *wanted {
            write!(out, "{script}: {found}, wanted {wanted}\n")?;
        }
    }
    Ok(out)
}

#[test]
fn judges_scripts(rt: HostRuntime) -> Result<(), Fail> {
    one_meaning();
    some_meaning();
    refused_or_meant();
    meaning_is_closed();
    closed_later();
    let tables: [&[(&str, &str)]; 5] = [&SCRIPTS, &NAMES, &ARGUMENTS, &PROFILE, &PLACES];
    for table in tables {
        assert_eq!(rt; misjudged(rt.alloc(), table)?.as_str(), "");
    }
    Ok(())
}

/// Each of these words as a value, as a name and, where it is left out, at the head of a list.
#[test]
fn refuses_each_word(rt: HostRuntime) -> Result<(), Fail> {
    for word in SPECIAL_WORDS {
        assert_eq!(rt;
            misused(rt.alloc(), word)?.as_str(),
            "10 1:6 10 1:6 10 1:12"
        );
    }
    for word in OTHER_WORDS {
        assert_eq!(rt;
            misused(rt.alloc(), word)?.as_str(),
            "10 1:6 10 1:6 10 1:12"
        );
        let script = format!(in rt.alloc(); "(prn ({word} foo))")?;
        assert_eq!(rt; judged(rt.alloc(), &script)?.as_str(), "10 1:6");
    }
    Ok(())
}

const SPECIAL_WORDS: [&str; 12] = [
    "def", "defn", "prn", "ledger", "let", "if", "when", "and", "or", "lazy-seq", "->", "->>",
];

const OTHER_WORDS: [&str; 20] = [
    "fn", "loop", "recur", "try", "throw", "catch", "quote", "var", "do", "doseq", "for",
    "dotimes", "when-let", "if-let", "when-not", "cond", "case", "letfn", "defmacro", "ns",
];

/// What is refused of a word as a value, as the name of a definition and as a local.
fn misused(alloc: Global, word: &str) -> Result<String, Fail> {
    let value = judged(alloc, &format!(in alloc; "(prn {word})")?)?;
    let name = judged(alloc, &format!(in alloc; "(def {word} 1)")?)?;
    let local = judged(alloc, &format!(in alloc; "(prn (let [{word} 1] 2))")?)?;
    Ok(format!(in alloc; "{value} {name} {local}")?)
}

/// The text of an expression that has a number.
fn part(texts: &[String], number: u32) -> &str {
    match texts.get(number as usize) {
        Some(text) => text.as_str(),
        None => "?",
    }
}

/// A word with the texts of some expressions.
fn write_tree(out: &mut String, texts: &[String], word: &str, items: &Numbers) -> Result<(), Fail> {
    write!(out, "({word}")?;
    for at in 0..items.len() {
        if let Some(number) = items.get(at) {
            let text = part(texts, number);
            write!(out, " {text}")?;
        }
    }
    out.push_str(")")?;
    Ok(())
}

fn write_literal(alloc: Global, out: &mut String, value: &Value) -> Result<(), Fail> {
    let mut line = Line::new(alloc);
    match print_atom(value, &mut line) {
        Ok(true) => match str::from_utf8(line.bytes()) {
            Ok(text) => out.push_str(text)?,
            Err(_) => out.push_str("?")?,
        },
        Ok(false) => out.push_str("()")?,
        Err(_) => return Err(Fail::from("no memory")),
    }
    Ok(())
}

/// An expression as a tree, over the texts of those before it.
fn shown(alloc: Global, texts: &[String], expr: &Expr) -> Result<String, Fail> {
    let mut out = String::new(alloc);
    match expr {
        Expr::Literal(value) => write_literal(alloc, &mut out, value)?,
        Expr::Word(word) => write!(out, "{word:?}")?,
        Expr::Function(number) => write!(out, "function-{number}")?,
        Expr::Defined { form } => write!(out, "form-{form}")?,
        Expr::Local(number) => write!(out, "local-{number}")?,
        Expr::Vector(items) => write_tree(&mut out, texts, "vector", items)?,
        Expr::Call { head, args } => write_tree(&mut out, texts, part(texts, *head), args)?,
        Expr::Let { value, body } => {
            let (value, body) = (part(texts, *value), part(texts, *body));
            write!(out, "(let {value} {body})")?;
        }
        Expr::If { test, yes, no } => {
            let (test, yes, no) = (part(texts, *test), part(texts, *yes), part(texts, *no));
            write!(out, "(if {test} {yes} {no})")?;
        }
        Expr::And(items) => write_tree(&mut out, texts, "and", items)?,
        Expr::Or(items) => write_tree(&mut out, texts, "or", items)?,
        Expr::LazySeq { body } => write!(out, "(lazy-seq body-{body})")?,
    }
    Ok(out)
}

/// The texts of all expressions.
fn all_shown(alloc: Global, program: &Program) -> Result<Vec<String>, Fail> {
    let mut texts = Vec::new(alloc);
    for number in 0..1000 {
        if let Some(expr) = program.expr(number) {
            let text = shown(alloc, &texts, expr)?;
            texts.push(text)?;
        }
    }
    Ok(texts)
}

/// The bodies of a program's first functions and of its first `lazy-seq`s.
fn write_bodies(out: &mut String, texts: &[String], program: &Program) -> Result<(), Fail> {
    for function in 0..3 {
        for arguments in 0..21 {
            if let Some(expr) = program.body(function, arguments) {
                let text = part(texts, expr);
                write!(out, "function-{function} {arguments} {text}; ")?;
            }
        }
    }
    for body in 0..5 {
        if let Some(expr) = program.lazy_body(body) {
            let text = part(texts, expr);
            write!(out, "body-{body} {text}; ")?;
        }
    }
    Ok(())
}

fn write_tops(out: &mut String, texts: &[String], program: &Program) -> Result<(), Fail> {
    for form in 0..10 {
        match program.top(form) {
            Some(Top::Def { name, expr }) => {
                let (name, text) = (name_of(program, name), part(texts, expr));
                write!(out, "def {name} {text}; ")?;
            }
            Some(Top::Defn) => out.push_str("defn; ")?,
            Some(Top::Prn { expr }) => {
                let text = part(texts, expr);
                write!(out, "prn {text}; ")?;
            }
            Some(Top::Ledger) => out.push_str("ledger; ")?,
            None => {}
        }
    }
    Ok(())
}

fn name_of(program: &Program, name: u32) -> &str {
    match program.name_text(name) {
        Some(text) => str::from_utf8(text).unwrap_or("?"),
        None => "?",
    }
}

/// A program's bodies and forms, each expression as a tree.
fn listed(alloc: Global, program: &Program) -> Result<String, Fail> {
    let mut out = String::new(alloc);
    let texts = all_shown(alloc, program)?;
    write_bodies(&mut out, &texts, program)?;
    write_tops(&mut out, &texts, program)?;
    Ok(out)
}

/// Scripts with their bodies and forms.
const PROGRAMS: [(&str, &str); 24] = [
    ("", ""),
    ("(prn (map inc (range 3)))", "prn (Map Inc (Range 3)); "),
    ("(prn (reduce + 1 dec))", "prn (Reduce Plus 1 Dec); "),
    (
        "(prn [() \"t\" :k nil true -5])",
        "prn (vector () \"t\" :k nil true -5); ",
    ),
    // A definition is meant by the number of its form.
    ("(prn 1) (def x 2) (prn x)", "prn 1; def x 2; prn form-2; "),
    (
        "(def a 1) (ledger) (def b [a]) (prn [a b])",
        "def a 1; ledger; def b (vector form-1); prn (vector form-1 form-3); ",
    ),
    (
        "(defn f [a b] (b a (f a)))",
        "function-0 2 (local-1 local-0 (function-0 local-0)); defn; ",
    ),
    (
        "(defn g [] inc) (defn f [] g)",
        "function-0 0 Inc; function-1 0 function-0; defn; defn; ",
    ),
    // A text behind the name is dropped, and each body has its own parameters.
    (
        "(defn f \"text\" ([] 0) ([x y] [y x])) (ledger)",
        "function-0 0 0; function-0 2 (vector local-1 local-0); defn; ledger; ",
    ),
    // Locals count from the outermost, parameters first.
    (
        "(defn f [a] (let [b a c b] [a b c]))",
        "function-0 1 (let local-0 (let local-1 (vector local-0 local-1 local-2))); defn; ",
    ),
    (
        "(prn (let [x 1 y [x] x (x y)] x))",
        "prn (let 1 (let (vector local-0) (let (local-0 local-1) local-2))); ",
    ),
    (
        "(prn (let [x (let [y 1] y) z 2] [x z]))",
        "prn (let (let 1 local-0) (let 2 (vector local-0 local-1))); ",
    ),
    (
        "(defn f [inc] (inc (let [x inc] x)))",
        "function-0 1 (local-0 (let local-0 local-1)); defn; ",
    ),
    ("(prn (if true 2))", "prn (if true 2 nil); "),
    ("(prn (if 1 2 3))", "prn (if 1 2 3); "),
    ("(prn (when 1 2))", "prn (if 1 2 nil); "),
    (
        "(prn [(and) (or 1 2) (and nil)])",
        "prn (vector (and) (or 1 2) (and nil)); ",
    ),
    // Threading puts what stands so far second, or last.
    ("(prn (-> 1 (+ 2 3) inc))", "prn (Inc (Plus 1 2 3)); "),
    ("(prn (->> 1 (+ 2 3) inc))", "prn (Inc (Plus 2 3 1)); "),
    ("(-> 5 (+ 1) prn)", "prn (Plus 5 1); "),
    ("(->> x (let [x 1]) prn)", "prn (let 1 local-0); "),
    ("(prn (-> (-> 1 inc) (->> dec)))", "prn (Dec (Inc 1)); "),
    // A body has its number once it is finished, so an inner one comes first.
    (
        "(defn f [x] (lazy-seq [x (lazy-seq x)])) (prn (lazy-seq 1))",
        "function-0 1 (lazy-seq body-1); body-0 local-0; body-1 (vector local-0 (lazy-seq body-0)); body-2 1; defn; prn (lazy-seq body-2); ",
    ),
    (
        "(prn (let [x 1] (lazy-seq (let [y x] y))))",
        "body-0 (let local-0 local-1); prn (let 1 (lazy-seq body-0)); ",
    ),
];

#[test]
fn compiles_programs(rt: HostRuntime) -> Result<(), Fail> {
    for (script, wanted) in PROGRAMS {
        let program = compiled(rt.alloc(), script)?;
        assert_eq!(rt; listed(rt.alloc(), &program)?.as_str(), wanted);
    }
    Ok(())
}

#[test]
fn reads_a_program(rt: HostRuntime) -> Result<(), Fail> {
    let alloc = rt.alloc();
    let program = compiled(alloc, "(prn (reduce + (take 3 (map inc (range 100)))))")?;
    assert_eq!(rt; program.tops(), 1);
    assert!(rt; program.top(0).is_none());
    assert!(rt; program.top(2).is_none());
    assert!(rt; program.name_text(0).is_none());
    assert!(rt; program.body(0, 0).is_none());
    assert!(rt; program.lazy_body(0).is_none());
    let Some(Top::Prn { expr }) = program.top(1) else {
        return Err(Fail::from("no prn"));
    };
    let Some(Expr::Call { args, .. }) = program.expr(expr) else {
        return Err(Fail::from("no call"));
    };
    assert_eq!(rt; args.len(), 2);
    assert!(rt; args.get(2).is_none());
    let copy = match program.share() {
        Ok(copy) => copy,
        Err(_) => return Err(Fail::from("no memory")),
    };
    assert_eq!(rt; copy.tops(), 1);
    assert_eq!(rt;
        listed(alloc, &copy)?.as_str(),
        listed(alloc, &program)?.as_str()
    );
    Ok(())
}

/// A script of a beginning, a step so many times, and an end.
fn repeated(alloc: Global, begin: &str, step: &str, count: u32, end: &str) -> Result<String, Fail> {
    let mut out = String::new(alloc);
    out.push_str(begin)?;
    for _ in 0..count {
        out.push_str(step)?;
    }
    out.push_str(end)?;
    Ok(out)
}

/// A call within a call within a call, and so on, as an expression and at the top.
#[test]
fn compiles_long_threadings(rt: HostRuntime) -> Result<(), Fail> {
    let alloc = rt.alloc();
    let calls = repeated(alloc, "(prn (-> 0", " inc", 100_000, "))")?;
    assert_eq!(rt; judged(alloc, &calls)?.as_str(), "forms 1");
    let tops = repeated(alloc, "(-> 1", " (->)", 20_000, " prn)")?;
    assert_eq!(rt; judged(alloc, &tops)?.as_str(), "forms 1");
    Ok(())
}

/// A local within another's body, and a lazy part within another.
#[test]
fn compiles_deep_bodies(rt: HostRuntime) -> Result<(), Fail> {
    let alloc = rt.alloc();
    let lets = repeated(alloc, "(->> x", " (let [x 1])", 60_000, " prn)")?;
    assert_eq!(rt; judged(alloc, &lets)?.as_str(), "forms 1");
    let parts = repeated(alloc, "(prn (->> 1", " (lazy-seq)", 20_000, "))")?;
    assert_eq!(rt; judged(alloc, &parts)?.as_str(), "forms 1");
    Ok(())
}
