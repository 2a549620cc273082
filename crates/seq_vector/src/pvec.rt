ghost use Rattle.std.specs.Prelude.{◌≡◌, ◌+◌, ◌*◌, ◌/◌, ◌<◌, ◌≤◌, [], ◌∷◌, ◌++◌, length, take, drop, slice_get, vec_len, IfOk, IfErr};
ghost use Rattle.std.specs.Option.{option_copied, SomeIff};
ghost use Rattle.seq_vector.specs.Forms.{whole_items, IsWhole, second_items, IsSecond};
ghost use Rattle.seq_vector.specs.Blocks.{joined, AreFull};

use crate::blocks::{Blocks, Deep, inside, run_at};
use crate::run::{Run, copied};
use crate::share::{NoMemory, Share};
use crate::shared::Shared;
use std::alloc::Global;
use std::marker::Model;

/// Leaves of 32 items, and nodes of 32 leaves.
type Second<T> = Deep<Run<T>, Run<Run<Run<T>>>>;

/// Items, and what stands between them.
type Whole<T> = Deep<T, Second<T>>;

/// How the items are kept.
#[derive(Drop)]
enum Form<T> {
    Empty,
    /// At most 32 items.
    Few(Shared<Vec<T>>),
    /// A tree.
    Many(Shared<Whole<T>>),
}

/// A vector of at most 4,294,967,295 items that is never changed in place. Contracts see it as the list of its items. It is a tree of shared nodes of at most 32 items, and as small as one `Vec` where it has at most 32.
#[derive(Drop)]
pub struct PVec<T> {
    form: Form<T>,
}

impl<T> Model for PVec<T> {
    ghost use Rattle.std.specs.Prelude.{List, length, ◌≤◌};
    ghost use Rattle.std.specs.Coded.{coded_list};

    ghost Value = { List T };

    ghost coded = { coded_list T.code };

    ghost use Rattle.seq_vector.specs.Forms.{form_items, IsForm};

    ghost view = { λ vector. form_items T vector.form };

    ghost invariant = { λ vector. IsForm T vector.form × (length (form_items T vector.form) ≤ 4294967295) };
}

impl<T> PVec<T> {
    /// The vector without items. It takes no memory.
    pub fn new() -> PVec<T>
        ensures { result ≡ [] }
    {
        PVec { form: Form::Empty }
    }
}

impl<T: Share> PVec<T> {
    /// Takes the items over, in time linear in their number. They are handed back where there is no memory.
    pub fn from_items(alloc: Global, items: Vec<T>) -> Result<PVec<T>, (Vec<T>, NoMemory)>
        requires { vec_len items ≤ 4294967295 }
        ensures ok { IfOk result (λ vector. vector ≡ items.items) }
        ensures refused { IfErr result (λ back. back.0 ≡ items) }
    {
        if items.len() <= 32 {
            return match Shared::of(alloc, items) {
                Ok(items) => Ok(PVec {
                    form: Form::Few(items),
                }),
                Err(back) => Err(back),
            };
        }
        match planted(alloc, items.as_slice()) {
            Ok(all) => Ok(all),
            Err(why) => Err((items, why)),
        }
    }

    /// The `count` items from `from`, and `None` exactly where `from` and `count` together pass the length. It shares the nodes that lie inside, wherever the window begins and ends; at most 32 items are copied.
    pub fn window(
        &self,
        alloc: Global,
        from: usize,
        count: usize,
    ) -> Result<Option<PVec<T>>, NoMemory>
        ensures { IfOk result (λ part. SomeIff part (from + count ≤ length self.now) (take count (drop from self.now))) }
    {
        let length = self.len();
        if from > length || count > length - from {
            return Ok(None);
        }
        let part = self.part(alloc, from, count)?;
        Ok(Some(part))
    }

    #[tactic(auto, using(crate::proofs::VectorLemmas::nothing_of_nothing))]
    /// The `count` items from `from`.
    fn part(&self, alloc: Global, from: usize, count: usize) -> Result<PVec<T>, NoMemory>
        requires { from + count ≤ length self.now }
        ensures { IfOk result (λ part. part ≡ take count (drop from self.now)) }
    {
        match &self.form {
            Form::Empty => Ok(PVec { form: Form::Empty }),
            Form::Few(items) => few_of(alloc, items.get().as_slice(), from, count),
            Form::Many(whole) => cut(alloc, whole.get(), from, count),
        }
    }

    /// The items that stand side by side from a place on: at least one, where the place is below the length.
    pub fn run_from(&self, at: usize) -> &[T]
        ensures same { result.now ≡ take (length result.now) (drop at self.now) }
        ensures some { at < length self.now → 0 < length result.now }
    {
        match &self.form {
            Form::Empty => &[],
            Form::Few(items) => rest_of(items.get().as_slice(), at),
            Form::Many(whole) => side_by_side(whole.get(), at),
        }
    }

    /// How many items there are.
    pub fn len(&self) -> usize
        ensures same { result ≡ length self.now }
        ensures bound { result ≤ 4294967295 }
    {
        match &self.form {
            Form::Empty => 0,
            Form::Few(items) => items.get().len(),
            Form::Many(whole) => whole.get().count(),
        }
    }

    /// The item at a place counted from 0, and `None` exactly where the place isn't below the length.
    pub fn get(&self, at: usize) -> Option<&T>
        ensures { option_copied result ≡ slice_get self.now at }
    {
        match &self.form {
            Form::Empty => None,
            Form::Few(items) => items.get().get(at),
            Form::Many(whole) => whole.get().block(at),
        }
    }

    /// The list with the item last. It shares each node that stays as it is, and copies at most 32 items. The item is handed back where there is no memory.
    pub fn push(&self, alloc: Global, item: T) -> Result<PVec<T>, (T, NoMemory)>
        requires { length self.now < 4294967295 }
        ensures ok { IfOk result (λ vector. vector ≡ self.now ++ item ∷ []) }
        ensures refused { IfErr result (λ back. back.0 ≡ item) }
    {
        match item.share() {
            Err(why) => Err((item, why)),
            Ok(copy) => match self.with(alloc, copy) {
                Ok(all) => Ok(all),
                Err(why) => Err((item, why)),
            },
        }
    }

    /// The list with the item last.
    fn with(&self, alloc: Global, item: T) -> Result<PVec<T>, NoMemory>
        requires { length self.now < 4294967295 }
        ensures { IfOk result (λ vector. vector ≡ self.now ++ item ∷ []) }
    {
        match &self.form {
            Form::Empty => with_few(alloc, &[], item),
            Form::Few(items) => {
                if items.get().len() < 32 {
                    with_few(alloc, items.get().as_slice(), item)
                } else {
                    with_run(alloc, Run::over(items)?, item)
                }
            }
            Form::Many(whole) => many(alloc, whole.get().with(alloc, item)?),
        }
    }
}

/// A few items and one more.
fn with_few<T: Share>(alloc: Global, items: &[T], item: T) -> Result<PVec<T>, NoMemory>
    requires { length items.now ≤ 32 }
    ensures { IfOk result (λ vector. vector ≡ items.now ++ item ∷ []) }
{
    let mut all = copied(alloc, items, 1)?;
    if all.push(item).is_err() {
        return Err(NoMemory);
    }
    few(alloc, all)
}

/// The `count` items from `from` of items that stand side by side.
fn few_of<T: Share>(
    alloc: Global,
    items: &[T],
    from: usize,
    count: usize,
) -> Result<PVec<T>, NoMemory>
    requires { (length items.now ≤ 4294967295) × (from + count ≤ length items.now) }
    ensures { IfOk result (λ part. part ≡ take count (drop from items.now)) }
{
    few(alloc, copied(alloc, &items[from..from + count], 0)?)
}

/// A part of a tree. It shares each node that lies inside; a small part is laid side by side.
fn cut<T: Share>(
    alloc: Global,
    whole: &Whole<T>,
    from: usize,
    count: usize,
) -> Result<PVec<T>, NoMemory>
    requires good { IsWhole T whole.now }
    requires bound { length (whole_items T whole.now) ≤ 4294967295 }
    requires inside { from + count ≤ length (whole_items T whole.now) }
    ensures { IfOk result (λ part. part ≡ take count (drop from (whole_items T whole.now))) }
{
    if count <= 32 {
        return few(alloc, gathered(alloc, whole, from, count)?);
    }
    let rest = whole.after(alloc, from)?;
    many(alloc, rest.first(alloc, count)?)
}

#[tactic(auto, using(crate::proofs::VectorLemmas::one_more_taken))]
/// A few items of a tree side by side.
fn gathered<T: Share>(
    alloc: Global,
    whole: &Whole<T>,
    from: usize,
    count: usize,
) -> Result<Vec<T>, NoMemory>
    requires good { IsWhole T whole.now }
    requires bound { length (whole_items T whole.now) ≤ 4294967295 }
    requires inside { from + count ≤ length (whole_items T whole.now) }
    ensures { IfOk result (λ items. items.items ≡ take count (drop from (whole_items T whole.now))) }
{
    let Ok(mut items) = Vec::with_capacity(alloc, count) else {
        return Err(NoMemory);
    };
    for at in 0..count {
        match whole.block(from + at) {
            Some(item) => {
                let one = item.share()?;
                if items.push(one).is_err() {
                    return Err(NoMemory);
                }
            }
            None => unreachable!(),
        }
    }
    Ok(items)
}

/// The items as a tree.
fn planted<T: Share>(alloc: Global, items: &[T]) -> Result<PVec<T>, NoMemory>
    requires { length items.now ≤ 4294967295 }
    ensures { IfOk result (λ vector. vector ≡ items.now) }
{
    let cut = items.len() / 32 * 32;
    let upper = leaves(alloc, items)?;
    let right = Run::of(alloc, copied(alloc, &items[cut..], 0)?)?;
    many(
        alloc,
        Deep {
            count: items.len(),
            left: Run::new(),
            upper,
            right,
        },
    )
}

/// The leaves of the items, all but those that fill none.
fn leaves<T: Share>(alloc: Global, items: &[T]) -> Result<Second<T>, NoMemory>
    requires { length items.now ≤ 4294967295 }
    ensures good { IfOk result (λ upper. IsSecond T upper) }
    ensures full { IfOk result (λ upper. AreFull (second_items T upper)) }
    ensures same { IfOk result (λ upper. joined (second_items T upper) ≡ take (length items.now / 32 * 32) items.now) }
{
    let mut upper: Second<T> = Blocks::none();
    for number in 0..items.len() / 32 {
        let leaf = leaf_of(alloc, items, number * 32)?;
        upper = upper.with(alloc, leaf)?;
    }
    Ok(upper)
}

/// The 32 items from `from` as a leaf.
fn leaf_of<T: Share>(alloc: Global, items: &[T], from: usize) -> Result<Run<T>, NoMemory>
    requires { (length items.now ≤ 4294967295) × (from + 32 ≤ length items.now) }
    ensures { IfOk result (λ leaf. leaf ≡ take 32 (drop from items.now)) }
{
    Run::of(alloc, copied(alloc, &items[from..from + 32], 0)?)
}

/// The items from a place on.
fn rest_of<T>(items: &[T], at: usize) -> &[T]
    requires { length items.now ≤ 4294967295 }
    ensures same { result.now ≡ drop at items.now }
{
    if at < items.len() { &items[at..] } else { &[] }
}

#[tactic(auto, using(crate::proofs::VectorLemmas::first_of_left))]
/// The items that stand in one run from a place on.
fn side_by_side<T: Share>(whole: &Whole<T>, at: usize) -> &[T]
    requires good { IsWhole T whole.now }
    requires bound { length (whole_items T whole.now) ≤ 4294967295 }
    ensures same { result.now ≡ take (length result.now) (drop at (whole_items T whole.now)) }
    ensures some { at < length (whole_items T whole.now) → 0 < length result.now }
{
    let before = whole.left.len();
    if at < before {
        return rest_of(whole.left.as_slice(), at);
    }
    let place = at - before;
    let inside = inside(whole);
    if place < inside {
        rest_of(run_at(whole, place).as_slice(), place % 32)
    } else {
        rest_of(whole.right.as_slice(), place - inside)
    }
}

/// The items side by side.
fn few<T: Share>(alloc: Global, items: Vec<T>) -> Result<PVec<T>, NoMemory>
    requires { vec_len items ≤ 4294967295 }
    ensures { IfOk result (λ vector. vector ≡ items.items) }
{
    match Shared::of(alloc, items) {
        Ok(items) => Ok(PVec {
            form: Form::Few(items),
        }),
        Err((_, why)) => Err(why),
    }
}

/// A run of items and one more.
fn with_run<T: Share>(alloc: Global, left: Run<T>, item: T) -> Result<PVec<T>, NoMemory>
    requires { length left < 4294967295 }
    ensures { IfOk result (λ vector. vector ≡ left ++ item ∷ []) }
{
    let count = left.len() + 1;
    let right = Run::one(alloc, item)?;
    many(
        alloc,
        Deep {
            count,
            left,
            upper: Blocks::none(),
            right,
        },
    )
}

/// The items of a tree.
fn many<T: Share>(alloc: Global, whole: Whole<T>) -> Result<PVec<T>, NoMemory>
    requires good { IsWhole T whole }
    requires bound { length (whole_items T whole) ≤ 4294967295 }
    ensures { IfOk result (λ vector. vector ≡ whole_items T whole) }
{
    match Shared::of(alloc, whole) {
        Ok(whole) => Ok(PVec {
            form: Form::Many(whole),
        }),
        Err((_, why)) => Err(why),
    }
}

/// One atomic increment, whatever the items are: no item is shared.
impl<T: Drop> Share for PVec<T> {
    fn share(&self) -> Result<PVec<T>, NoMemory> {
        match &self.form {
            Form::Empty => Ok(PVec { form: Form::Empty }),
            Form::Few(items) => {
                let items = items.share()?;
                Ok(PVec {
                    form: Form::Few(items),
                })
            }
            Form::Many(whole) => {
                let whole = whole.share()?;
                Ok(PVec {
                    form: Form::Many(whole),
                })
            }
        }
    }
}
