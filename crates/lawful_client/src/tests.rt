use crate::run_one_map;
use cell_book::{Book, PlainCells};
use std::test::Fail;

#[test]
#[tactic(auto, using(crate::proofs::Walks::new_good, crate::proofs::Walks::new_book))]
fn one_map_on_a_plain_book(rt: HostRuntime) -> Result<(), Fail> {
    let Ok(mut book) = Book::new(rt.alloc(), 2) else {
        return Err(Fail::from("memory"));
    };
    let mut cells = PlainCells::over(&mut book);
    assert!(rt; run_one_map(&mut cells, rt.alloc()));
    let totals = book.totals();
    assert!(rt; totals.made == 2 && totals.realised == 1 && totals.failed == 0);
    Ok(())
}
