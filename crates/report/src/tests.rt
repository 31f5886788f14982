// Figures put together by a caller, by values worked out by hand; programs make reports alone.
use crate::Figures;
use refusals::{No, Refusal};
use runs::Ending;

#[test]
fn one_run_is_counted_by_its_word(rt: HostRuntime) {
    let one = Figures {
        settings: 1,
        moves: 5,
        most: 5,
        ..Figures::default()
    };
    for (word, want) in [
        (Ok(Ending::Idle), Figures { idle: 1, ..one }),
        (Ok(Ending::Buzz), Figures { buzz: 1, ..one }),
        (Ok(Ending::Conflict), Figures { conflict: 1, ..one }),
        (Ok(Ending::Spent), Figures { spent: 1, ..one }),
        (Err(Refusal::from(No::LogTooLong)), one),
    ] {
        assert_eq!(rt; Figures::one_run(word, 5), want);
    }
}

#[test]
fn others_follow_some(rt: HostRuntime) {
    let some = Figures::one_run(Ok(Ending::Idle), 5);
    let more = Figures::one_run(Ok(Ending::Buzz), 7);
    let both = Figures {
        settings: 2,
        idle: 1,
        buzz: 1,
        moves: 12,
        most: 7,
        ..Figures::default()
    };
    assert_eq!(rt; some.followed(more), Figures { first: 1, ..both });
    assert_eq!(rt; more.followed(some), both);
    assert_eq!(rt;
        some.followed(some).first,
        0,
        "the first of two that have as many"
    );
    let large = Figures {
        moves: usize::MAX,
        ..some
    };
    assert_eq!(rt; large.followed(more).moves, usize::MAX);
}
