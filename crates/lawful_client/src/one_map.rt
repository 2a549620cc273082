//! The script of one `map`, step by step: `(prn (first (map inc (range 1))))`. The form makes a part and asks it; the part makes the one for
//! the rest and gives a chunk; the form gives the text of the first element. Each call asks for nothing but that its step keeps the law of the book.
ghost use Rattle.std.specs.Prelude.{◌≡◌, ◌≢◌, ℕ, true, codes, IfOk, IfErr};
ghost use Rattle.seq_values.specs.Plain.{plain, plain_term};
ghost use Rattle.seq_values.specs.Model.{text};
ghost use Rattle.cell_book.specs.Account.{Duty};
ghost use Rattle.cell_book.specs.Glimpses.{Owns};
ghost use Rattle.lawful_client.specs.OneMap.{KeepsGood, IsNew, RunsTo, HasTerm, AskedBy, whole_map, rest_map, one_before, form_makes, form_waits, form_gives, part_makes, part_gives};

use cell_book::{Cells, ClaimRefusal, MakeRefusal, Work};
use seq_values::{
    Builtin, CellId, Kind, Node, Op, Term, Text, Value, chunk_before, empty_list, integer,
    one_item, part, term_of_two, word_value,
};
use seq_vector::NoMemory;
use std::alloc::Global;

/// Begins the form.
fn begin_map<C: Cells>(cells: &mut C) -> Result<Work, NoMemory>
    requires ready { C.ready cells.old }
    requires leads { C.leads cells.old ≡ true }
    requires new { IsNew (C.noted cells.old) (C.seen cells.old) }
    requires law { KeepsGood (C.alone cells.old) (C.law cells.old) (C.noted cells.old) }
    ensures run { IfOk result (λ w. RunsTo (C.held cells.new) (C.seen cells.new) w 6 form_makes) }
    ensures law { KeepsGood (C.alone cells.new) (C.law cells.new) (C.noted cells.new) }
    ensures same { C.same cells.old cells.new }
{
    cells.begin_form(1)
}

/// Makes the part for the form.
fn make_whole<C: Cells>(cells: &mut C, form: &Work, term: Term) -> Result<CellId, MakeRefusal>
    requires ready { C.ready cells.old }
    requires law { KeepsGood (C.alone cells.old) (C.law cells.old) (C.noted cells.old) }
    requires run { RunsTo (C.held cells.old) (C.seen cells.old) form.now 6 form_makes }
    requires term { plain_term term ≡ whole_map }
    ensures run { IfOk result (λ id. RunsTo (C.held cells.new) (C.seen cells.new) form.now 5 (form_waits id)) }
    ensures part { IfOk result (λ id. HasTerm (C.seen cells.new) id whole_map) }
    ensures kept { Owns (C.held cells.new) (C.seen cells.new) form.now }
    ensures law { KeepsGood (C.alone cells.new) (C.law cells.new) (C.noted cells.new) }
    ensures same { C.same cells.old cells.new }
{
    cells.make(form, term, Kind::Lazy)
}

/// Claims the part for the form.
fn claim_whole<C: Cells>(cells: &mut C, form: &Work, id: CellId) -> Result<Work, ClaimRefusal>
    requires ready { C.ready cells.old }
    requires law { KeepsGood (C.alone cells.old) (C.law cells.old) (C.noted cells.old) }
    requires run { RunsTo (C.held cells.old) (C.seen cells.old) form.now 5 (form_waits id) }
    requires part { HasTerm (C.seen cells.old) id whole_map }
    ensures form { IfOk result (λ w. RunsTo (C.held cells.new) (C.seen cells.new) form.now 5 (form_waits id)) }
    ensures run { IfOk result (λ w. RunsTo (C.held cells.new) (C.seen cells.new) w 7 part_makes) }
    ensures kept { IfErr result (λ _. Owns (C.held cells.new) (C.seen cells.new) form.now) }
    ensures asked { IfOk result (λ w. AskedBy (C.seen cells.new) form.now w id) }
    ensures law { KeepsGood (C.alone cells.new) (C.law cells.new) (C.noted cells.new) }
    ensures same { C.same cells.old cells.new }
{
    cells.claim(id, Some(form))
}

/// Makes the part for the rest. What the form waits for stays.
fn make_rest<C: Cells>(cells: &mut C, work: &Work, term: Term) -> Result<CellId, MakeRefusal>
    requires ready { C.ready cells.old }
    requires law { KeepsGood (C.alone cells.old) (C.law cells.old) (C.noted cells.old) }
    requires run { RunsTo (C.held cells.old) (C.seen cells.old) work.now 7 part_makes }
    requires term { plain_term term ≡ rest_map }
    ensures run { IfOk result (λ id. RunsTo (C.held cells.new) (C.seen cells.new) work.now 7 (part_gives id)) }
    ensures kept { (w : Duty) → Owns (C.held cells.old) (C.seen cells.old) w → Owns (C.held cells.new) (C.seen cells.new) w }
    ensures form { (form : Duty) (id : ℕ) → RunsTo (C.held cells.old) (C.seen cells.old) form 5 (form_waits id) → AskedBy (C.seen cells.old) form work.now id → RunsTo (C.held cells.new) (C.seen cells.new) form 5 (form_waits id) × AskedBy (C.seen cells.new) form work.now id }
    ensures law { KeepsGood (C.alone cells.new) (C.law cells.new) (C.noted cells.new) }
    ensures same { C.same cells.old cells.new }
{
    cells.make(work, term, Kind::Lazy)
}

/// Finishes the part. The form goes on with its value.
fn finish_whole<C: Cells>(cells: &mut C, work: Work, value: Value, rest: CellId)
    requires ready { C.ready cells.old }
    requires law { KeepsGood (C.alone cells.old) (C.law cells.old) (C.noted cells.old) }
    requires run { RunsTo (C.held cells.old) (C.seen cells.old) work 7 (part_gives rest) }
    requires value { plain value ≡ one_before rest }
    ensures form { (form : Duty) (id : ℕ) → RunsTo (C.held cells.old) (C.seen cells.old) form 5 (form_waits id) → AskedBy (C.seen cells.old) form work id → RunsTo (C.held cells.new) (C.seen cells.new) form 3 form_gives }
    ensures law { KeepsGood (C.alone cells.new) (C.law cells.new) (C.noted cells.new) }
    ensures same { C.same cells.old cells.new }
{
    cells.finish(work, value);
}

/// Finishes the form.
fn finish_form<C: Cells>(cells: &mut C, form: Work, line: Value)
    requires ready { C.ready cells.old }
    requires law { KeepsGood (C.alone cells.old) (C.law cells.old) (C.noted cells.old) }
    requires run { RunsTo (C.held cells.old) (C.seen cells.old) form 3 form_gives }
    requires line { plain line ≡ text (codes "1") }
    ensures law { KeepsGood (C.alone cells.new) (C.law cells.new) (C.noted cells.new) }
    ensures same { C.same cells.old cells.new }
{
    cells.finish(form, line);
}

/// `(map inc (range 1))`.
fn whole_term(alloc: Global) -> Result<Term, NoMemory>
    ensures { IfOk result (λ t. plain_term t ≡ whole_map) }
{
    let range = Value::Node(Node::Range {
        from: 0,
        at: 0,
        end: 1,
    });
    term_of_two(alloc, Op::Map, word_value(Builtin::Inc), range)
}

/// What is left of it behind its chunk: `(map inc ())`.
fn rest_term(alloc: Global) -> Result<Term, NoMemory>
    ensures { IfOk result (λ t. plain_term t ≡ rest_map) }
{
    term_of_two(alloc, Op::Map, word_value(Builtin::Inc), empty_list())
}

/// The chunk of the 1 before the part.
fn one_and(alloc: Global, rest: CellId) -> Result<Value, NoMemory>
    ensures { IfOk result (λ v. plain v ≡ one_before rest) }
{
    let items = one_item(alloc, integer(1))?;
    chunk_before(alloc, items, part(rest))
}

/// The line that the form gives.
fn line_of_one(alloc: Global) -> Result<Value, NoMemory>
    ensures { IfOk result (λ v. plain v ≡ text (codes "1")) }
{
    Ok(Value::Text(Text::of(alloc, b"1")?))
}

/// Gives a work up, wherever its run is.
fn quit<C: Cells>(cells: &mut C, work: Work)
    requires ready { C.ready cells.old }
    requires law { KeepsGood (C.alone cells.old) (C.law cells.old) (C.noted cells.old) }
    requires own { Owns (C.held cells.old) (C.seen cells.old) work }
    ensures others { (w : Duty) → w.claim ≢ work.claim → Owns (C.held cells.old) (C.seen cells.old) w → Owns (C.held cells.new) (C.seen cells.new) w }
    ensures law { KeepsGood (C.alone cells.new) (C.law cells.new) (C.noted cells.new) }
    ensures same { C.same cells.old cells.new }
{
    cells.give_up(work);
}

/// Gives up the part's work and then the form's.
fn quit_both<C: Cells>(cells: &mut C, form: Work, work: Work) -> bool
    requires ready { C.ready cells.old }
    requires law { KeepsGood (C.alone cells.old) (C.law cells.old) (C.noted cells.old) }
    requires own { Owns (C.held cells.old) (C.seen cells.old) work }
    requires form { Owns (C.held cells.old) (C.seen cells.old) form }
    requires apart { form.claim ≢ work.claim }
    ensures law { KeepsGood (C.alone cells.new) (C.law cells.new) (C.noted cells.new) }
    ensures same { C.same cells.old cells.new }
{
    quit(cells, work);
    quit(cells, form);
    false
}

/// The part gives its chunk, and the form its line.
fn end_both<C: Cells>(
    cells: &mut C,
    alloc: Global,
    form: Work,
    work: Work,
    id: CellId,
    rest: CellId,
    line: Value,
) -> bool
    requires ready { C.ready cells.old }
    requires law { KeepsGood (C.alone cells.old) (C.law cells.old) (C.noted cells.old) }
    requires form { RunsTo (C.held cells.old) (C.seen cells.old) form 5 (form_waits id) }
    requires asked { AskedBy (C.seen cells.old) form work id }
    requires run { RunsTo (C.held cells.old) (C.seen cells.old) work 7 (part_gives rest) }
    requires line { plain line ≡ text (codes "1") }
    ensures law { KeepsGood (C.alone cells.new) (C.law cells.new) (C.noted cells.new) }
    ensures same { C.same cells.old cells.new }
{
    match one_and(alloc, rest) {
        Ok(value) => {
            finish_whole(cells, work, value, rest);
            finish_form(cells, form, line);
            true
        }
        Err(_) => quit_both(cells, form, work),
    }
}

/// The part makes the one for its rest, and both works end.
fn run_part<C: Cells>(
    cells: &mut C,
    alloc: Global,
    form: Work,
    work: Work,
    id: CellId,
    later: Term,
    line: Value,
) -> bool
    requires ready { C.ready cells.old }
    requires law { KeepsGood (C.alone cells.old) (C.law cells.old) (C.noted cells.old) }
    requires form { RunsTo (C.held cells.old) (C.seen cells.old) form 5 (form_waits id) }
    requires asked { AskedBy (C.seen cells.old) form work id }
    requires run { RunsTo (C.held cells.old) (C.seen cells.old) work 7 part_makes }
    requires later { plain_term later ≡ rest_map }
    requires line { plain line ≡ text (codes "1") }
    ensures law { KeepsGood (C.alone cells.new) (C.law cells.new) (C.noted cells.new) }
    ensures same { C.same cells.old cells.new }
{
    match make_rest(cells, &work, later) {
        Ok(rest) => end_both(cells, alloc, form, work, id, rest, line),
        Err(_) => quit_both(cells, form, work),
    }
}

/// The form asks for the part that it made, and both works end.
fn run_form<C: Cells>(
    cells: &mut C,
    alloc: Global,
    form: Work,
    id: CellId,
    later: Term,
    line: Value,
) -> bool
    requires ready { C.ready cells.old }
    requires law { KeepsGood (C.alone cells.old) (C.law cells.old) (C.noted cells.old) }
    requires run { RunsTo (C.held cells.old) (C.seen cells.old) form 5 (form_waits id) }
    requires part { HasTerm (C.seen cells.old) id whole_map }
    requires later { plain_term later ≡ rest_map }
    requires line { plain line ≡ text (codes "1") }
    ensures law { KeepsGood (C.alone cells.new) (C.law cells.new) (C.noted cells.new) }
    ensures same { C.same cells.old cells.new }
{
    match claim_whole(cells, &form, id) {
        Ok(work) => run_part(cells, alloc, form, work, id, later, line),
        Err(_) => {
            quit(cells, form);
            false
        }
    }
}

/// Runs the script on a book in which nothing was begun. It tells whether the form came to its end: want of memory and the limit of cells end it
/// before.
pub fn run_one_map<C: Cells>(cells: &mut C, alloc: Global) -> bool
    requires ready { C.ready cells.old }
    requires leads { C.leads cells.old ≡ true }
    requires new { IsNew (C.noted cells.old) (C.seen cells.old) }
    requires law { KeepsGood (C.alone cells.old) (C.law cells.old) (C.noted cells.old) }
    ensures law { KeepsGood (C.alone cells.new) (C.law cells.new) (C.noted cells.new) }
    ensures same { C.same cells.old cells.new }
{
    let Ok(whole) = whole_term(alloc) else {
        return false;
    };
    let Ok(later) = rest_term(alloc) else {
        return false;
    };
    let Ok(line) = line_of_one(alloc) else {
        return false;
    };
    let Ok(form) = begin_map(cells) else {
        return false;
    };
    match make_whole(cells, &form, whole) {
        Ok(id) => run_form(cells, alloc, form, id, later, line),
        Err(_) => {
            quit(cells, form);
            false
        }
    }
}
