//! How far logs are from the best in all.

use onfi_gap::{Piece, Summary, summarize};
use std::test::Fail;

// A piece of two requests that begins at 0.
fn piece(line: u64, end: u64, best: u64) -> Piece {
    Piece {
        line,
        requests: 2,
        begin: 0,
        end,
        best,
        below: best,
    }
}

// A plan whose search met its limit may end later than the log: that is no gap.
#[test]
fn gaps_in_all(rt: HostRuntime) -> Result<(), Fail> {
    let alloc = rt.alloc();
    let pieces = [
        piece(1, 90, 83),
        piece(5, 91, 90),
        piece(9, 84, 80),
        piece(13, 80, 84),
    ];
    assert_eq!(rt; pieces[0].gap(), 7);
    assert_eq!(rt; pieces[3].gap(), 0);
    assert_eq!(rt;
        summarize(alloc, &pieces[..3])?,
        Some(Summary {
            mean: 4,
            median: 4,
            most: 7
        })
    );
    assert_eq!(rt;
        summarize(alloc, &pieces)?,
        Some(Summary {
            mean: 3,
            median: 1,
            most: 7
        })
    );
    assert_eq!(rt; summarize(alloc, &[])?, None);
    Ok(())
}
