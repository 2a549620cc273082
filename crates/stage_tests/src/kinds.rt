use value_samples::Sample;

/// A transducer, or a value that is none.
#[derive(Clone, Copy)]
pub(crate) enum Piece {
    /// `(map f)`
    Map(Sample),
    /// `(filter p)`
    Filter(Sample),
    /// `(remove p)`
    Remove(Sample),
    /// `(keep f)`
    Keep(Sample),
    /// `(take-while p)`
    TakeWhile(Sample),
    /// `(drop-while p)`
    DropWhile(Sample),
    /// `(mapcat f)`
    Mapcat(Sample),
    /// `(take n)`
    Take(i64),
    /// `(drop n)`
    Drop(i64),
    /// `(partition-all n)`, with n at least 1.
    PartitionAll(i64),
    /// A value by itself, such as the word `cat`.
    Only(Sample),
    /// `(constantly x)`
    Constantly(Sample),
    /// `(partial f)`
    Partial(Sample),
    /// A function of a script, by its number.
    User(u32),
}

/// What the stages of a transducer are given.
#[derive(Clone, Copy)]
pub(crate) enum Act {
    /// An integer as an input.
    Enter(i64),
    /// Another value as an input.
    Item(Sample),
    /// Each element of a collection, one after the other.
    Walk(Sample),
    /// Their states, which are kept and put into new stages of the transducer.
    Keep,
    /// The completion.
    Complete,
}
