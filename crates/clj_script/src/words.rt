//! The words of the language by their spelling.
ghost use Rattle.std.specs.Prelude.{◌≡◌, map};
ghost use Rattle.clj_script.specs.Words as spec;

use seq_values::Builtin;

/// The words of special forms.
#[derive(Clone, Copy, Debug, PartialEq, Eq)]
pub(crate) enum Special {
    Def,
    Defn,
    Prn,
    Ledger,
    Let,
    If,
    When,
    And,
    Or,
    LazySeq,
    /// `->`, which puts a form second in the next.
    ThreadSecond,
    /// `->>`, which puts a form last in the next.
    ThreadLast,
}

/// A word that no name may be.
#[derive(Clone, Copy, Debug, PartialEq, Eq)]
pub(crate) enum Reserved {
    Special(Special),
    /// A word of Clojure that the language leaves out.
    Outside,
}

const RESERVED: [(&[u8], Reserved); 32] = [
    (b"def", Reserved::Special(Special::Def)),
    (b"defn", Reserved::Special(Special::Defn)),
    (b"prn", Reserved::Special(Special::Prn)),
    (b"ledger", Reserved::Special(Special::Ledger)),
    (b"let", Reserved::Special(Special::Let)),
    (b"if", Reserved::Special(Special::If)),
    (b"when", Reserved::Special(Special::When)),
    (b"and", Reserved::Special(Special::And)),
    (b"or", Reserved::Special(Special::Or)),
    (b"lazy-seq", Reserved::Special(Special::LazySeq)),
    (b"->", Reserved::Special(Special::ThreadSecond)),
    (b"->>", Reserved::Special(Special::ThreadLast)),
    (b"fn", Reserved::Outside),
    (b"loop", Reserved::Outside),
    (b"recur", Reserved::Outside),
    (b"try", Reserved::Outside),
    (b"throw", Reserved::Outside),
    (b"catch", Reserved::Outside),
    (b"quote", Reserved::Outside),
    (b"var", Reserved::Outside),
    (b"do", Reserved::Outside),
    (b"doseq", Reserved::Outside),
    (b"for", Reserved::Outside),
    (b"dotimes", Reserved::Outside),
    (b"when-let", Reserved::Outside),
    (b"if-let", Reserved::Outside),
    (b"when-not", Reserved::Outside),
    (b"cond", Reserved::Outside),
    (b"case", Reserved::Outside),
    (b"letfn", Reserved::Outside),
    (b"defmacro", Reserved::Outside),
    (b"ns", Reserved::Outside),
];

/// The built-in words. A word is built in from the line on that stands for it here.
const BUILT_IN: [(&[u8], Builtin); 89] = [
    (b"+", Builtin::Plus),
    (b"*", Builtin::Times),
    (b"-", Builtin::Minus),
    (b"inc", Builtin::Inc),
    (b"dec", Builtin::Dec),
    (b"quot", Builtin::Quot),
    (b"rem", Builtin::Rem),
    (b"mod", Builtin::Mod),
    (b"min", Builtin::Min),
    (b"max", Builtin::Max),
    (b"<", Builtin::Less),
    (b"<=", Builtin::LessOrEqual),
    (b">", Builtin::Greater),
    (b">=", Builtin::GreaterOrEqual),
    (b"zero?", Builtin::IsZero),
    (b"pos?", Builtin::IsPositive),
    (b"neg?", Builtin::IsNegative),
    (b"even?", Builtin::IsEven),
    (b"odd?", Builtin::IsOdd),
    (b"nil?", Builtin::IsNil),
    (b"some?", Builtin::IsSome),
    (b"true?", Builtin::IsTrue),
    (b"false?", Builtin::IsFalse),
    (b"not", Builtin::Not),
    (b"number?", Builtin::IsNumber),
    (b"keyword?", Builtin::IsKeyword),
    (b"string?", Builtin::IsString),
    (b"vector?", Builtin::IsVector),
    (b"fn?", Builtin::IsFunction),
    (b"identity", Builtin::Identity),
    (b"constantly", Builtin::Constantly),
    (b"complement", Builtin::Complement),
    (b"partial", Builtin::Partial),
    (b"comp", Builtin::Comp),
    (b"completing", Builtin::Completing),
    (b"r/monoid", Builtin::Monoid),
    (b"vector", Builtin::Vector),
    (b"list", Builtin::List),
    (b"reduced", Builtin::Reduced),
    (b"reduced?", Builtin::IsReduced),
    (b"unreduced", Builtin::Unreduced),
    (b"seq", Builtin::Seq),
    (b"first", Builtin::First),
    (b"second", Builtin::Second),
    (b"rest", Builtin::Rest),
    (b"next", Builtin::Next),
    (b"nth", Builtin::Nth),
    (b"last", Builtin::Last),
    (b"count", Builtin::Count),
    (b"empty?", Builtin::IsEmpty),
    (b"cons", Builtin::Cons),
    (b"conj", Builtin::Conj),
    (b"vec", Builtin::Vec),
    (b"reverse", Builtin::Reverse),
    (b"doall", Builtin::Doall),
    (b"every?", Builtin::IsEvery),
    (b"some", Builtin::Some),
    (b"apply", Builtin::Apply),
    (b"=", Builtin::Equal),
    (b"not=", Builtin::NotEqual),
    (b"reduce", Builtin::Reduce),
    (b"into", Builtin::Into),
    (b"transduce", Builtin::Transduce),
    (b"map", Builtin::Map),
    (b"filter", Builtin::Filter),
    (b"keep", Builtin::Keep),
    (b"remove", Builtin::Remove),
    (b"take", Builtin::Take),
    (b"drop", Builtin::Drop),
    (b"take-while", Builtin::TakeWhile),
    (b"drop-while", Builtin::DropWhile),
    (b"concat", Builtin::Concat),
    (b"mapcat", Builtin::Mapcat),
    (b"iterate", Builtin::Iterate),
    (b"range", Builtin::Range),
    (b"repeat", Builtin::Repeat),
    (b"cycle", Builtin::Cycle),
    (b"partition-all", Builtin::PartitionAll),
    (b"sequence", Builtin::Sequence),
    (b"pmap", Builtin::Pmap),
    (b"seque", Builtin::Seque),
    (b"cat", Builtin::Cat),
    (b"r/map", Builtin::ReducerMap),
    (b"r/filter", Builtin::ReducerFilter),
    (b"r/remove", Builtin::ReducerRemove),
    (b"r/mapcat", Builtin::ReducerMapcat),
    (b"r/take", Builtin::ReducerTake),
    (b"r/take-while", Builtin::ReducerTakeWhile),
    (b"r/fold", Builtin::Fold),
];

/// What a table has for a spelling, the first line of it where there are several.
fn spelled<T: Copy>(table: &[(&[u8], T)], spelling: &[u8]) -> Option<T>
    ensures { result ≡ spec.spelled (map (λ line. (line.0.now, line.1)) table.now) spelling.now }
{
    for (word, meaning) in table {
        if *word == spelling {
            return Some(*meaning);
        }
    }
    None
}

/// The reserved word with this spelling.
#[tactic(auto, unfolding(crate::specs::Words::reserved_of))]
pub(crate) fn reserved_word(spelling: &[u8]) -> Option<Reserved>
    ensures { result ≡ spec.reserved_of spelling.now }
{
    spelled(&RESERVED, spelling)
}

/// The built-in word with this spelling.
#[tactic(auto, unfolding(crate::specs::Words::built_in_of))]
pub(crate) fn built_in(spelling: &[u8]) -> Option<Builtin>
    ensures { result ≡ spec.built_in_of spelling.now }
{
    spelled(&BUILT_IN, spelling)
}
