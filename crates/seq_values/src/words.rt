/// The built-in words.
#[derive(Clone, Copy, Debug, PartialEq, Eq)]
pub enum Builtin {
    // Words that force nothing.
    Plus,
    Times,
    Minus,
    Inc,
    Dec,
    Quot,
    Rem,
    Mod,
    Min,
    Max,
    Less,
    LessOrEqual,
    Greater,
    GreaterOrEqual,
    IsZero,
    IsPositive,
    IsNegative,
    IsEven,
    IsOdd,
    IsNil,
    IsSome,
    IsTrue,
    IsFalse,
    Not,
    IsNumber,
    IsKeyword,
    IsString,
    IsVector,
    IsFunction,
    Identity,
    Constantly,
    Complement,
    Partial,
    Comp,
    Completing,
    Monoid,
    Vector,
    List,
    Reduced,
    IsReduced,
    Unreduced,
    // Words that walk.
    Seq,
    First,
    Second,
    Rest,
    Next,
    Nth,
    Last,
    Count,
    IsEmpty,
    Cons,
    Conj,
    Vec,
    Reverse,
    Doall,
    IsEvery,
    Some,
    Apply,
    Equal,
    NotEqual,
    Reduce,
    Into,
    Transduce,
    // Words of lazy operations, which with one argument fewer give transducers.
    Map,
    Filter,
    Keep,
    Remove,
    Take,
    Drop,
    TakeWhile,
    DropWhile,
    Concat,
    Mapcat,
    Iterate,
    Range,
    Repeat,
    Cycle,
    PartitionAll,
    Sequence,
    Pmap,
    Seque,
    /// The transducer `cat`.
    Cat,
    // Reducers.
    ReducerMap,
    ReducerFilter,
    ReducerRemove,
    ReducerMapcat,
    ReducerTake,
    ReducerTakeWhile,
    Fold,
}

/// The kinds of a transducer's stage.
#[derive(Clone, Copy, Debug, PartialEq, Eq)]
pub enum XfKind {
    Map,
    Filter,
    Remove,
    Keep,
    Take,
    TakeWhile,
    Drop,
    DropWhile,
    Mapcat,
    Cat,
    PartitionAll,
}

/// The kinds of a reducer value's stage.
#[derive(Clone, Copy, Debug, PartialEq, Eq)]
pub enum FolderKind {
    Map,
    Filter,
    Remove,
    Mapcat,
    Take,
    TakeWhile,
}

/// What a function value calls.
#[derive(Clone, Copy, Debug, PartialEq, Eq)]
pub enum Target {
    Builtin(Builtin),
    /// A function of the script, by its number.
    User(u32),
    Partial,
    Comp,
    Complement,
    Constantly,
    Completing,
    Monoid,
    Xf(XfKind),
    Folder(FolderKind),
}

/// The kind of a part.
#[derive(Clone, Copy, Debug, PartialEq, Eq)]
pub enum Kind {
    Lazy,
    Future,
}

/// The operation of a part's term.
#[derive(Clone, Copy, Debug, PartialEq, Eq)]
pub enum Op {
    Map,
    MapN,
    Filter,
    Keep,
    Take,
    TakeWhile,
    Drop,
    DropWhile,
    Concat,
    Mapcat,
    Next,
    Repeat,
    Cycle,
    Parts,
    Pull,
    Rets,
    Step,
    Derefs,
    Call,
    Ahead,
    AheadOf,
    Near,
    Fold,
    /// The body of a `lazy-seq`, by its number.
    Body(u32),
}
