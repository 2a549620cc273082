use seq_values::Builtin;

/// A value for a test. The elements of a collection are the integers from 1 on, so many.
#[derive(Clone, Copy)]
pub enum Sample {
    Nil,
    True,
    False,
    Int(i64),
    /// `:k`
    Keyword,
    /// `"t"`
    Text,
    /// A word as a function.
    Word(Builtin),
    /// A part, by its number. The number 0 stands for nil.
    Part(u32),
    Vector(u32),
    /// A vector of one vector.
    Nested(u32),
    /// A list.
    List(u32),
    /// The elements before a part.
    Before(u32, u32),
    /// The elements in one chunk before a part.
    Chunk(u32, u32),
    /// The integers from the first one up to the second, which is left out.
    Range(i64, i64),
    /// The seq of a vector.
    Seq(u32),
    /// A reduced integer.
    Ended(i64),
    /// A vector that is so deep, from 1 to 256.
    Deep(u32),
}
