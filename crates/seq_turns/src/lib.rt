//! How the rules that run by turns take a turn: well-formed values by type, what `seq` finds, the first chunk of a node, what is made and how deep it may be, and the ways to end a turn. A function named `law_` states a law over the definitions.
#![tactic(auto)]

mod arguments;
mod chunks;
mod gathering;
mod handling;
mod laws;
mod made;
mod making;
mod next;
mod places;
mod proper;
mod rule;
mod seeking;
mod terms;
mod ways;

pub use arguments::{is_truthy, number_of, part_of};
pub use chunks::chunk_of_cursor;
pub use laws::{law_found_again, law_silent_in};
pub use made::{Grown, Made};
pub use making::{
    chunk_and_end, first_before, function_made, items_before, list_before, list_made,
    list_of_heads, one_more, put_first, vector_made,
};
pub use next::Next;
pub use places::{Chunked, Rest, Seen, Sought, Split};
pub use proper::{Gathered, Proper, ProperList};
pub use rule::Rule;
pub use seeking::{
    cursor_value, first_of_cursor, rest_value, seek, seek_rest, seen_of, seen_value, split_cursor,
    step_cursor,
};
pub use terms::{term_of, term_with_one, term_with_two};
pub use ways::{
    calls, gives, gives_first_before, gives_function, gives_items_before, gives_list_before,
    gives_made, gives_nil, gives_truth, gives_vector, makes, needs, seeks, throws, visits,
};
