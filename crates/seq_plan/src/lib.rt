//! The plan of a work, what the rules say of nodes, and likeness. Cursors over nodes. A function named `law_` states a law over the definitions.
#![tactic(auto)]

mod cursor;
mod left;

ghost use Rattle.seq_plan.specs.Laws.{ThenJoins, ThenGives, LikeIsAsDeep, LikeFirsts, LikeRests, LikeThen, CursorIsFound, DepthIsPlain, WellFormedIsSound, WellFormedIsWell, TermsAreWell, WellIsSound, SoundNodes, WellNodes, StandingEnters, RoundIsOfEach, ThenEnters, ThenCompletes};

pub use cursor::{Cursor, Walked, cursor_at};
pub use left::{HeadsLeft, ItemsLeft, RangeLeft, VecLeft};

/// What goes on after two plans may be joined in either order.
pub fn law_then_joins()
    ensures { ThenJoins }
{}

/// A plan that goes on by giving what it gave is that plan.
pub fn law_then_gives()
    ensures { ThenGives }
{}

/// Like values are equally deep.
pub fn law_like_is_as_deep()
    ensures { LikeIsAsDeep }
{}

/// Like nodes have like first elements.
pub fn law_like_firsts()
    ensures { LikeFirsts }
{}

/// Like nodes are alike after so many rests.
pub fn law_like_rests()
    ensures { LikeRests }
{}

/// Like plans that go on alike are alike.
pub fn law_like_then()
    ensures { LikeThen }
{}

/// `seq` of what a cursor stands for is that itself.
pub fn law_cursor_is_found()
    ensures { CursorIsFound }
{}

/// A value of the code is as deep as the value that it stands for.
pub fn law_depth_is_plain()
    ensures { DepthIsPlain }
{}

/// A well-formed value of the code stands for a sound one.
pub fn law_well_formed_is_sound()
    ensures { WellFormedIsSound }
{}

/// A value of the code is well formed if and only if the value that it stands for is.
pub fn law_well_formed_is_well()
    ensures { WellFormedIsWell }
{}

/// A term of the code is well formed if and only if the term that it stands for is.
pub fn law_terms_are_well()
    ensures { TermsAreWell }
{}

/// A well-formed value is sound.
pub fn law_well_is_sound()
    ensures { WellIsSound }
{}

/// What is taken of a sound node is sound.
pub fn law_sound_nodes()
    ensures { SoundNodes }
{}

/// What is taken of a well-formed node is well formed.
pub fn law_well_nodes()
    ensures { WellNodes }
{}

/// What the loop of stages gives is handed on as it is.
pub fn law_standing_enters()
    ensures { StandingEnters }
{}

/// A round of the loop of stages has the variables with which the loop began.
pub fn law_round_is_of_each()
    ensures { RoundIsOfEach }
{}

/// What goes on after an input has entered stages goes on after each of its ends.
pub fn law_then_enters()
    ensures { ThenEnters }
{}

/// What goes on after the completion of stages goes on after each of its ends.
pub fn law_then_completes()
    ensures { ThenCompletes }
{}
