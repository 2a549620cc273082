//! What a program shows of itself.
ghost use Rattle.std.specs.Prelude.{◌≡◌, ◌<◌, ℕ, true, List, length, map, slice_get, MatchOption, IfOk, IfSome, Some, None};
ghost use Rattle.std.specs.Option.{option_copied, option_map};
ghost use Rattle.clj_script.specs.Trees as tree;
ghost use Rattle.clj_script.specs.Arena.{AllBelow};
ghost use Rattle.clj_script.specs.Nodes.{at, tree_over, parts_of, is_writable};
ghost use Rattle.clj_script.specs.Numbered.{numbers_of_bodies, number_of_top};
ghost use Rattle.clj_script.specs.Seen.{seen, trees, numbered, body_of, body_among, body_over, top_over};

use crate::expr::Expr;
use crate::program::{Body, Program, Top};
use seq_vector::{NoMemory, Share};

impl Program {
    /// How many forms the script has.
    #[tactic(auto, unfolding(crate::specs::Seen::seen_parts))]
    pub fn tops(&self) -> u32
        ensures { result ≡ length (seen self.now).tops }
    {
        self.parts.get().count
    }

    /// The form with a number from 1, and `None` exactly for 0 and past the last form.
    #[tactic(auto, unfolding(crate::specs::Seen::seen_parts), using(crate::proofs::SeenLemmas::mapped_item))]
    pub fn top(&self, form: u32) -> Option<Top>
        ensures form { option_map (top_over (trees self.now)) result ≡ numbered (seen self.now).tops form }
        // The expression that it names is there.
        ensures below { IfSome result (λ t. AllBelow (length (trees self.now)) (number_of_top t)) }
    {
        if form == 0 {
            return None;
        }
        item(self.parts.get().tops.as_slice(), form as usize - 1).copied()
    }

    /// The text of the defined name with a number from 0, and `None` exactly where no name has the number.
    #[tactic(auto, unfolding(crate::specs::Seen::seen_parts), using(crate::proofs::SeenLemmas::mapped_item))]
    pub fn name_text(&self, name: u32) -> Option<&[u8]>
        ensures { option_copied result ≡ slice_get (seen self.now).names name }
    {
        match self.parts.get().definitions.get_index(name as usize) {
            Some((text, _)) => Some(text.as_slice()),
            None => None,
        }
    }

    /// The expression with a number, and `None` exactly where none has it.
    pub fn expr(&self, number: u32) -> Option<&Expr>
        ensures tree { MatchOption result (slice_get (trees self.now) number ≡ None) (λ e. slice_get (trees self.now) number ≡ Some (tree_over (trees self.now) e.now)) }
        // A literal is a value that a script can write, and no other: nil, a truth value, an integer, a keyword, a text or `()`.
        ensures written { IfSome result (λ e. is_writable e.now ≡ true) }
        // It names only expressions of lower numbers.
        ensures lower { IfSome result (λ e. AllBelow number (parts_of e.now)) }
    {
        item(self.parts.get().nodes.as_slice(), number as usize)
    }

    /// The expression of a function's body for that number of arguments, and `None` exactly where there is none.
    #[tactic(auto, unfolding(crate::specs::Seen::seen_parts), using(crate::proofs::SeenLemmas::mapped_item))]
    pub fn body(&self, function: u32, arguments: u32) -> Option<u32>
        ensures tree { option_map (at (trees self.now)) result ≡ body_of (seen self.now).functions function arguments }
        // The expression is there.
        ensures below { IfSome result (λ n. n < length (trees self.now)) }
    {
        match item(self.parts.get().functions.as_slice(), function as usize) {
            Some(bodies) => body_for(bodies.as_slice(), arguments),
            None => None,
        }
    }

    /// The expression of the body of a `lazy-seq` by its number from 0, and `None` exactly where none has it.
    #[tactic(auto, unfolding(crate::specs::Seen::seen_parts), using(crate::proofs::SeenLemmas::mapped_item))]
    pub fn lazy_body(&self, body: u32) -> Option<u32>
        ensures tree { option_map (at (trees self.now)) result ≡ slice_get (seen self.now).bodies body }
        // The expression is there.
        ensures below { IfSome result (λ n. n < length (trees self.now)) }
    {
        item(self.parts.get().bodies.as_slice(), body as usize).copied()
    }

    /// The same program for one more owner.
    pub fn share(&self) -> Result<Program, NoMemory>
        ensures { IfOk result (λ copy. copy ≡ self.now) }
    {
        let parts = self.parts.share()?;
        Ok(Program { parts })
    }
}

/// The expression of the first body for that number of arguments.
#[tactic(auto, using(crate::proofs::SeenLemmas::body_below))]
fn body_for(bodies: &[Body], arguments: u32) -> Option<u32>
    ensures tree { (ts : List tree.Expr) → option_map (at ts) result ≡ body_among (map (body_over ts) bodies.now) arguments }
    ensures below { (bound : ℕ) → AllBelow bound (numbers_of_bodies bodies.now) → IfSome result (λ n. n < bound) }
{
    for body in bodies {
        if body.parameters == arguments {
            return Some(body.expr);
        }
    }
    None
}

/// The item at a place from 0.
fn item<T>(items: &[T], at: usize) -> Option<&T>
    ensures { option_copied result ≡ slice_get items.now at }
{
    items.get(at)
}
