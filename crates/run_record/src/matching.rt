//! Comparing a record with a process and a view.
ghost use Rattle.std.specs.Prelude.{◌≡◌, IfOk, MatchOption, length, map};
ghost use Rattle.tool_run.specs.Described.{described};
ghost use Rattle.run_record.specs.Collisions.{IsCompared, NoCollision};
ghost use Rattle.run_record.specs.Digests.{IsReadBack, digest_asked, digest_of_line, weak_of};
ghost use Rattle.run_record.specs.Matches.{Compares, FirstDiffer, Repeats};

use crate::answer_lines::line_digest;
use crate::record::Record;
use bx_digest::Digest;
use observed::{Answer, Ask, View};
use pip_model_types::Desc;
use prints::weak;
use std::alloc::{AllocError, Global};
use tool_run::noninterference;

/// What the comparison of a record with a process and a view comes to.
#[derive(Clone, Copy, Debug)]
pub enum Match {
    /// Nothing differs.
    Same,
    /// The weak texts of the record's process and of the process now have different digests.
    OtherDesc {
        held: Digest,
        now: Digest,
    },
    /// The weak texts agree. The answer to the ask with this number, counted from 0, is the first one whose
    /// line has another digest now.
    Differs {
        index: u64,
        held: Digest,
        now: Digest,
    },
    /// There was no memory.
    Memory,
}

/// The first place at which the digests of lines differ, counted from 0, and the digests there.
#[derive(Clone, Copy, Debug)]
pub struct LineDifference {
    pub index: usize,
    pub held: Digest,
    pub now: Digest,
}

/// The digest of the weak text of a process.
pub fn weak_digest(alloc: Global, desc: &Desc) -> Result<Digest, AllocError>
    ensures digest { IfOk result (λ digest. digest ≡ weak_of desc.now) }
    ensures read { IfOk result (λ _. IsReadBack desc.now) }
{
    let printed = weak(alloc, desc)?;
    Ok(printed.digest)
}

// The digest of the line that says what a view answers.
fn digest_now<V: View>(alloc: Global, ask: &Ask, view: &mut V) -> Result<Digest, AllocError>
    ensures digest { IfOk result (λ digest. digest ≡ digest_asked (V.answers view.old) ask.now) }
    ensures meaning { V.answers view.new ≡ V.answers view.old }
{
    let answer = view.ask(alloc, ask)?;
    line_digest(alloc, &answer)
}

/// The first stored answer whose line has not the digest of the line of the view's answer. There are as many
/// stored answers as asks.
pub fn first_difference<V: View>(
    alloc: Global,
    asks: &[Ask],
    stored: &[Answer],
    view: &mut V,
) -> Result<Option<LineDifference>, AllocError>
    requires { length stored.now ≡ length asks.now }
    ensures difference { IfOk result (λ found. MatchOption found
        (map digest_of_line stored.now ≡ map (digest_asked (V.answers view.old)) asks.now)
        (λ at. FirstDiffer (map digest_of_line stored.now)
        (map (digest_asked (V.answers view.old)) asks.now) at.index at.held at.now)) }
    ensures meaning { V.answers view.new ≡ V.answers view.old }
{
    'asks: for (index, ask) in asks.iter().enumerate() {
        let held = line_digest(alloc, &stored[index])?;
        let now = digest_now(alloc, ask, view)?;
        if held != now {
            return Ok(Some(LineDifference { index, held, now }));
        }
    }
    Ok(None)
}

// The comparison of the answers of a record.
fn compare_answers<V: View>(
    alloc: Global,
    ran: &Record,
    view: &mut V,
) -> Result<Option<LineDifference>, AllocError>
    ensures difference { IfOk result (λ found. MatchOption found
        (map digest_of_line ran.now.answers ≡ map (digest_asked (V.answers view.old)) ran.now.paths)
        (λ at. FirstDiffer (map digest_of_line ran.now.answers)
        (map (digest_asked (V.answers view.old)) ran.now.paths) at.index at.held at.now)) }
    ensures meaning { V.answers view.new ≡ V.answers view.old }
{
    let paths = ran.paths();
    first_difference(alloc, paths.asks(), ran.answers(), view)
}

// The comparison, if there is memory.
fn compare<V: View>(
    alloc: Global,
    desc: &Desc,
    ran: &Record,
    view: &mut V,
) -> Result<Match, AllocError>
    ensures compared { IfOk result (λ found. Compares desc.now ran.now (V.answers view.old) found) }
    ensures read { IfOk result (λ _. IsReadBack desc.now) }
    ensures read_held { IfOk result (λ _. IsReadBack ran.now.desc) }
    ensures meaning { V.answers view.new ≡ V.answers view.old }
{
    let held = weak_digest(alloc, ran.desc())?;
    let now = weak_digest(alloc, desc)?;
    if held != now {
        return Ok(Match::OtherDesc { held, now });
    }
    match compare_answers(alloc, ran, view)? {
        Some(at) => Ok(Match::Differs {
            index: at.index as u64,
            held: at.held,
            now: at.now,
        }),
        None => Ok(Match::Same),
    }
}

/// Compares a record with a process and a view: the digests of the weak texts, and then of the lines of the
/// answers, ask by ask, up to the first that differs. Where nothing differs and there is no hash collision among
/// the contents, weak texts and lines, the run of the process on the view has the accesses, the path set and
/// the outcome of the record. Both weak texts then read back as what they were written of.
pub fn matches<V: View>(alloc: Global, desc: &Desc, ran: &Record, view: &mut V) -> Match
    ensures compared { Compares desc.now ran.now (V.answers view.old) result }
    ensures same_run { result ≡ Match.Same → NoCollision (IsCompared desc.now ran.now (V.answers view.old)) →
        Repeats ran.now (described desc.now) (V.answers view.old) }
    ensures read { result ≡ Match.Same → IsReadBack desc.now × IsReadBack ran.now.desc }
    ensures meaning { V.answers view.new ≡ V.answers view.old }
{
    noninterference();
    let _sound = ran.desc();
    match compare(alloc, desc, ran, view) {
        Ok(found) => found,
        Err(_) => Match::Memory,
    }
}
