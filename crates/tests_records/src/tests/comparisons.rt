//! Comparisons of a record with processes and views.
use super::fixture::{ASKED, One, SMALLER, WEAK, desc, record};
use bx_digest::Digest;
use bx_tree::Path;
use observed::Answer;
use run_record::{Match, Record, matches};
use std::alloc::Global;
use std::test::Fail;

// What the comparison of a record with the process of a weak text and a view comes to, where `b` alone has this
// answer and all else is absent.
fn compared(alloc: Global, weak: &str, held: &Record, now: &Answer) -> Result<Match, Fail> {
    let path = Path::read(alloc, b"b")?;
    let desc = desc(alloc, weak)?;
    let mut view = One {
        path: &path,
        answer: now,
    };
    Ok(matches(alloc, &desc, held, &mut view))
}

// What the comparison with the record of a run comes to in which nothing was there.
fn comparison(alloc: Global, weak: &str, now: &Answer) -> Result<Match, Fail> {
    match record(alloc, ASKED, &Answer::Absent)? {
        Some(held) => {
            let found = compared(alloc, weak, &held, now);
            drop(held);
            found
        }
        None => Ok(Match::Memory),
    }
}

fn is_digest(digest: &Digest, text: &str) -> bool {
    Digest::from_hex(text.as_bytes()) == Ok(*digest)
}

#[test]
fn nothing_differs(rt: HostRuntime) -> Result<(), Fail> {
    assert!(rt; matches!(comparison(rt.alloc(), WEAK, &Answer::Absent)?, Match::Same));
    Ok(())
}

// Whether the second answer differs, which was `absent` and is `file`.
fn is_second(found: &Match) -> bool {
    match found {
        Match::Differs {
            index: 1,
            held,
            now,
        } => {
            is_digest(
                held,
                "7925d3e9a9613a093e5eb4054b32aa39de910d2b03ba7e8046c3b4550b8de1e4",
            ) && is_digest(
                now,
                "8b911a8716b94442f9ca3dff20584048536e4c2f47b8b5bb9096cbd43c3432d5",
            )
        }
        _ => false,
    }
}

#[test]
fn the_first_line_that_differs_is_named(rt: HostRuntime) -> Result<(), Fail> {
    assert!(rt; is_second(&comparison(rt.alloc(), WEAK, &Answer::File)?));
    Ok(())
}

// Whether the processes differ, with the digests of both weak texts.
fn is_other(found: &Match) -> bool {
    match found {
        Match::OtherDesc { held, now } => {
            is_digest(
                held,
                "a4713325d908270d5048c8a717155129d44e4a65a7bef8f52bedfadc04b717ae",
            ) && is_digest(
                now,
                "a0d7696df6d1d1ce02e17b5e0838fb9f536680909aca8d90ba7b9a698a6916ef",
            )
        }
        _ => false,
    }
}

#[test]
fn another_process_is_named_before_any_answer(rt: HostRuntime) -> Result<(), Fail> {
    assert!(rt; is_other(&comparison(rt.alloc(), SMALLER, &Answer::File)?));
    Ok(())
}
